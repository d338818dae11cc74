//! The check of a plan.
ghost use Rattle.std.specs.Prelude.{◌≡◌, ◌-◌, length, count_by};
ghost use Rattle.graph.specs.Rows.{first_refusal, answered, told, lowest};
ghost use Rattle.plan.specs.Entries.{steps, is_step};
ghost use Rattle.plan.specs.PlanRows.{misnamed, names_entry, not_named_once, names_dimension, not_one_leaf, plan_rows};
ghost use Rattle.plan.specs.PlanFaults.{plan_refusal};
ghost use Rattle.plan.specs.Check.{check_answer, Refusing, Accepting, Deciding, Completing, RowsLaw, Examples};

use crate::entry::Entry;
use crate::faults::PlanFault;
use crate::named::NamedPlan;
use graph::limits::MOST_ENTRIES;
use graph::list::{LawfulList, PlateList};

// The first entry that is a leaf of no dimension, or a step that does not name three rising entries below itself.
fn misnamed(lawful: LawfulList<'_>, plan: &[Entry]) -> Option<usize>
    ensures { result ≡ lowest (length plan.now) (misnamed lawful.entry.list.dimensions.now plan.now) }
{
    let dimensions = lawful.list.dimensions.len();
    plan.iter()
        .enumerate()
        .position(|(at, entry)| entry.misnames(dimensions, at))
}

// How many steps name the entry. This and the two counts below are one line each, so a closure for the test would make none shorter.
fn times_named(plan: &[Entry], entry: usize) -> usize
    ensures { result ≡ count_by (names_entry entry) plan.now }
{
    plan.iter().filter(|step| step.names(entry)).count()
}

// The first entry, but for the last, that is not named by exactly one step.
pub(crate) fn not_named_once(plan: &[Entry]) -> Option<usize>
    ensures { result ≡ lowest (length plan.now - 1) (not_named_once plan.now) }
{
    let last = plan.len().saturating_sub(1);
    (0..last).find(|&entry| times_named(plan, entry) != 1)
}

// How many leaves name the dimension.
fn leaves_of(plan: &[Entry], dimension: usize) -> usize
    ensures { result ≡ count_by (names_dimension dimension) plan.now }
{
    plan.iter()
        .filter(|leaf| leaf.is_leaf_of(dimension))
        .count()
}

// The first dimension that is not named by exactly one leaf.
fn not_one_leaf(lawful: LawfulList<'_>, plan: &[Entry]) -> Option<usize>
    ensures { result ≡ lowest (length lawful.entry.list.dimensions.now) (not_one_leaf plan.now) }
{
    (0..lawful.list.dimensions.len()).find(|&dimension| leaves_of(plan, dimension) != 1)
}

// How many steps a plan has.
fn steps(plan: &[Entry]) -> usize
    ensures { result ≡ count_by is_step plan.now }
{
    plan.iter().filter(|entry| entry.is_step()).count()
}

// The rows of the plan alone, or else its number of steps. Each row makes a fault of its own, so a function for all of them would be no
// shorter.
fn judge_plan(lawful: LawfulList<'_>, plan: &[Entry]) -> Result<usize, PlanFault>
    ensures { told plan_refusal result ≡ answered (first_refusal (plan_rows lawful.entry.list.kinds.now lawful.entry.list.dimensions.now plan.now)) (steps plan.now) }
{
    let entries = plan.len();
    if entries < 1 || entries > MOST_ENTRIES {
        return Err(PlanFault::WrongCount { entries });
    }
    if let Some(entry) = misnamed(lawful, plan) {
        return Err(PlanFault::Misnamed { entry });
    }
    if let Some(entry) = not_named_once(plan) {
        return Err(PlanFault::NotNamedOnce { entry });
    }
    if let Some(dimension) = not_one_leaf(lawful, plan) {
        return Err(PlanFault::NotOneLeaf { dimension });
    }
    let named = NamedPlan { lawful, plan };
    if let Some(entry) = named.not_hinged() {
        return Err(PlanFault::NotHinged { entry });
    }
    if !named.reaches_all() {
        return Err(PlanFault::NotReached { entry: entries - 1 });
    }
    Ok(steps(plan))
}

/// Checks a plan for a list; the two may come from different hands. It answers the plan's number of steps exactly when the list is
/// lawful and the plan writes down a tree decomposition of the list's graph; else it refuses by the first row of layers 2 and 3 that
/// holds.
pub fn check(list: PlateList<'_>, plan: &[Entry]) -> Result<usize, PlanFault>
    ensures answer { told plan_refusal result ≡ check_answer list.entry.kinds.now list.entry.dimensions.now plan.now }
    ensures refuses { Refusing list.entry.kinds.now list.entry.dimensions.now plan.now (told plan_refusal result) }
    ensures accepts { Accepting list.entry.kinds.now list.entry.dimensions.now plan.now result }
    ensures decides { Deciding list.entry.kinds.now list.entry.dimensions.now plan.now result }
    ensures complete { Completing list.entry.kinds.now list.entry.dimensions.now }
{
    let lawful = list.lawful()?;
    judge_plan(lawful, plan)
}

/// The rows of check stand in rising order, and none holds anywhere exactly where the list is lawful and the plan keeps every rule.
pub fn rows_stand()
    ensures { RowsLaw }
{}

/// What check answers on the examples of the refusal table.
pub fn examples_stand()
    ensures { Examples }
{}

#[cfg(test)]
mod tests {
    use super::{check, *};
    use graph::dimension::Dimension;
    use std::test::Fail;

    #[test]
    fn a_triangle_is_one_step(rt: HostRuntime) -> Result<(), Fail> {
        let step = Entry::Step {
            first: 0,
            second: 1,
            third: 2,
        };
        let plan = [
            Entry::Leaf { place: 0 },
            Entry::Leaf { place: 1 },
            Entry::Leaf { place: 2 },
            step,
        ];
        let list = PlateList {
            kinds: &[0, 0, 0],
            dimensions: &[
                Dimension::plain(0, 1),
                Dimension::plain(0, 2),
                Dimension::plain(1, 2),
            ],
        };
        let Ok(steps) = check(list, &plan) else {
            return Err(Fail::new("refused"));
        };
        assert_eq!(rt; steps, 1);
        Ok(())
    }
}
