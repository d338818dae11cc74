//! What a file can hold.
ghost use Rattle.file.specs.Contents.{holding, Within};

use graph::list::PlateList;
use plan::entry::Entry;

/// A list and a plan that a file can hold: their counts are within its limits, and each number in an entry takes one byte.
#[derive(Clone, Copy)]
pub struct FileParts<'a> {
    pub list: PlateList<'a>,
    pub plan: &'a [Entry],
    ghost within: { Within (holding list.kinds.now list.dimensions.now plan.now) },
}
