//! The search for a plan of a list.
ghost use Rattle.std.specs.Prelude.{◌≡◌, ◌≤◌, true, ◌↔◌, length};
ghost use Rattle.graph.specs.Limits.{most_entries};
ghost use Rattle.graph.specs.Rows.{told};
ghost use Rattle.graph.specs.Lists.{Lawful};
ghost use Rattle.plan.specs.PlanRows.{few_places};
ghost use Rattle.plan.specs.PlanFaults.{plan_refusal};
ghost use Rattle.plan.specs.Check.{AcceptedPlan};
ghost use Rattle.plan.specs.Drafts.{Drafted};
ghost use Rattle.plan.specs.Merge.{MergedTable, OneMerged, MergeRefusing, MergeAnswering, MergeFilling, MergingLaw, MergeExamples};

use crate::check::{check, not_named_once};
use crate::draft::Draft;
use crate::entry::Entry;
use crate::faults::PlanFault;
use crate::named::NamedPlan;
use arrayvec::ArrayVec;
use graph::limits::MOST_ENTRIES;
use graph::list::{LawfulList, PlateList};

// One leaf for each dimension, in their order; the places fit, since there are few.
fn leaves(lawful: LawfulList<'_>) -> Draft
    ensures { Drafted (length lawful.entry.list.dimensions.now) lawful.entry.list.dimensions.now result }
{
    let mut draft = Draft::new();
    for (place, dimension) in lawful.list.dimensions.iter().enumerate() {
        draft.push_leaf(place as u16, *dimension);
    }
    draft
}

// The table of the merging rule: joins the lowest three until no three can be joined.
fn merged_table(lawful: LawfulList<'_>) -> ArrayVec<Entry, MOST_ENTRIES>
    ensures { MergedTable lawful.entry.list.dimensions.now result.items }
{
    let mut draft = leaves(lawful);
    while let Some(three) = draft.lowest_three() {
        draft.join(three);
    }
    draft.plan()
}

// Whether a table has fewer places than a plan can have entries.
fn few_places(places: usize) -> bool
    ensures { result ≡ few_places places 0 }
{
    places < MOST_ENTRIES
}

// Whether the table of the merging rule is a plan: one entry is left that no step names, the last, and it reaches every element.
fn stands(lawful: LawfulList<'_>, plan: &[Entry]) -> bool
    requires { MergedTable lawful.list.dimensions.now plan.now }
    ensures { (result ≡ true) ↔ AcceptedPlan lawful.entry.list.kinds.now lawful.entry.list.dimensions.now plan.now }
{
    if plan.is_empty() || not_named_once(plan).is_some() {
        return false;
    }
    NamedPlan { lawful, plan }.reaches_all()
}

/// Looks for a plan of a list by the merging rule. Where there is one it fills the front of the table with the rule's plan, leaves
/// the places behind it alone, and answers how many entries it has. It refuses by the first row of the list or the table that holds,
/// and with 19 exactly where check accepts no plan whatever for the list; then the table is as it was. The caller lends the table: of
/// it refusal 18 and the clauses speak.
pub fn merge(list: PlateList<'_>, table: &mut [Entry]) -> Result<usize, PlanFault>
    ensures refuses { MergeRefusing list.entry.kinds.now list.entry.dimensions.now (length table.old) (told plan_refusal result) }
    ensures answers { MergeAnswering list.entry.kinds.now list.entry.dimensions.now (length table.old) result }
    ensures fills { MergeFilling list.entry.dimensions.now table.old table.new result }
    ensures rule { OneMerged list.entry.dimensions.now }
    ensures law { Lawful list.entry.kinds.now list.entry.dimensions.now → most_entries ≤ length table.old
        → MergingLaw list.entry.kinds.now list.entry.dimensions.now table.old table.new result }
{
    let lawful = list.lawful()?;
    let places = table.len();
    if few_places(places) {
        return Err(PlanFault::FewPlaces { places });
    }
    let merged = merged_table(lawful);
    let plan = merged.as_slice();
    if !stands(lawful, plan) {
        return Err(PlanFault::NoPlan);
    }
    table[..plan.len()].copy_from_slice(plan);
    check(list, &table[..plan.len()])?;
    Ok(plan.len())
}

/// What the merging rule makes of small lists, and lists that have no plan.
pub fn examples_stand()
    ensures { MergeExamples }
{}

#[cfg(test)]
mod tests {
    use super::*;
    use graph::dimension::Dimension;
    use std::test::Fail;

    #[test]
    fn a_leaf_is_the_plan_of_one_dimension(rt: HostRuntime) -> Result<(), Fail> {
        let mut table = [Entry::Leaf { place: 9 }; MOST_ENTRIES];
        let list = PlateList {
            kinds: &[0, 0],
            dimensions: &[Dimension::plain(0, 1)],
        };
        let Ok(entries) = merge(list, &mut table) else {
            return Err(Fail::new("refused"));
        };
        assert_eq!(rt; entries, 1);
        assert_eq!(rt; table[0], Entry::Leaf { place: 0 });
        assert_eq!(rt; table[1], Entry::Leaf { place: 9 });
        Ok(())
    }
}
