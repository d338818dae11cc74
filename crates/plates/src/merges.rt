//! Plans that are looked for: lists that have one, and lists that have none.
use crate::files::BRACED_SQUARE;
use crate::largest::largest_file;
use crate::plans::{braced_square, leaf, step};
use crate::score::refused;
use graph::dimension::Dimension;
use graph::limits::MOST_ENTRIES;
use graph::list::PlateList;
use graph::refusal::Refusal;
use plan::entry::Entry;
use plan::merge::merge;
use sketch::sketch::Sketch;

const ONE_PLACE_SHORT: usize = 186;

// What merge answers to a list, put together here, and a table; a fault in numbers.
fn merged(kinds: &[u8], dimensions: &[Dimension], table: &mut [Entry]) -> Result<usize, Refusal> {
    Ok(merge(PlateList { kinds, dimensions }, table)?)
}

// What merge answers to the list of a file.
fn planned(file: &[u8]) -> Result<usize, Refusal> {
    let mut sketch = Sketch::new();
    sketch.adopt(file)?;
    let mut table = [leaf(0); MOST_ENTRIES];
    Ok(merge(sketch.list(), &mut table)?)
}

#[test]
fn a_list_that_has_a_plan(rt: HostRuntime) {
    let mut table = [leaf(9); MOST_ENTRIES];
    let square = merged(&[0, 0, 0, 0], &braced_square(), &mut table);
    assert_eq!(rt; square, Ok(7));
    let entries = [
        leaf(0),
        leaf(1),
        leaf(2),
        leaf(3),
        leaf(4),
        step(0, 2, 4),
        step(1, 3, 5),
        leaf(9),
    ];
    for (entry, wanted) in table.iter().zip(entries.iter()) {
        assert_eq!(rt; *entry, *wanted);
    }
}

#[test]
fn the_lists_of_files(rt: HostRuntime) {
    assert_eq!(rt; planned(&BRACED_SQUARE), Ok(7));
    assert_eq!(rt; planned(&largest_file()), Ok(187));
}

#[test]
fn tables_short_and_long(rt: HostRuntime) {
    let two = [0, 0];
    let one = [Dimension::plain(0, 1)];
    let mut short = [leaf(9); ONE_PLACE_SHORT];
    assert_eq!(rt; merged(&two, &one, &mut short), refused(3, 18, 186));
    assert_eq!(rt;
        merged(&two, &[Dimension::plain(1, 1)], &mut short),
        refused(2, 10, 0)
    );
    let mut table = [leaf(9); MOST_ENTRIES];
    assert_eq!(rt; merged(&two, &one, &mut table), Ok(1));
}

#[test]
fn lists_that_have_no_plan(rt: HostRuntime) {
    let mut table = [leaf(9); MOST_ENTRIES];
    assert_eq!(rt; merged(&[0, 0], &[], &mut table), refused(3, 19, 0));
    let crowded = [
        Dimension::plain(0, 1),
        Dimension::plain(0, 2),
        Dimension::plain(0, 3),
        Dimension::plain(1, 2),
        Dimension::plain(1, 3),
        Dimension::plain(2, 3),
        Dimension::plain(3, 4),
    ];
    assert_eq!(rt; merged(&[0; 5], &crowded, &mut table), refused(3, 19, 0));
    let prism = [
        Dimension::plain(0, 1),
        Dimension::plain(0, 2),
        Dimension::plain(1, 2),
        Dimension::plain(0, 3),
        Dimension::plain(1, 4),
        Dimension::plain(3, 4),
        Dimension::plain(2, 5),
        Dimension::plain(3, 5),
        Dimension::plain(4, 5),
    ];
    assert_eq!(rt; merged(&[0; 6], &prism, &mut table), refused(3, 19, 0));
    assert_eq!(rt; table[0], leaf(9));
}
