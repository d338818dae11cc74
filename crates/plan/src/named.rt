//! Plans whose leaves and steps name what is there, and what their entries reach.
ghost use Rattle.std.specs.Prelude.{◌≡◌, ℕ, ◌-◌, ◌<◌, not, length};
ghost use Rattle.graph.specs.ElementSets.{members};
ghost use Rattle.graph.specs.Rows.{Clear, lowest};
ghost use Rattle.plan.specs.Reach.{reached};
ghost use Rattle.plan.specs.PlanRows.{misnamed, not_hinged, not_reached};

use crate::entry::Entry;
use crate::reaches::{ends, hinged};
use graph::element_set::ElementSet;
use graph::list::LawfulList;

// A plan for a lawful list: each leaf names one of the dimensions, and each step three rising entries below itself.
#[derive(Clone, Copy)]
pub(crate) struct NamedPlan<'a> {
    pub(crate) lawful: LawfulList<'a>,
    pub(crate) plan: &'a [Entry],
    ghost named: { Clear (length plan.now) (misnamed lawful.list.dimensions.now plan.now) },
}

impl NamedPlan<'_> {
    // The two elements of a leaf's dimension, or all that the three entries of a step reach. The numbers of these are lower, so it
    // ends; it is called where each entry is named at most once, or it would work out the same reaches again and again.
    fn reach(self, entry: usize) -> ElementSet
        requires { entry < length self.plan.now }
        ensures { (j : ℕ) → members result j ≡ reached self.entry.lawful.list.dimensions.now self.entry.plan.now entry j }
    {
        match self.plan[entry] {
            Entry::Leaf { place } => ends(self.lawful.list.dimensions[usize::from(place)]),
            Entry::Step {
                first,
                second,
                third,
            } => {
                let a = self.reach(usize::from(first));
                let b = self.reach(usize::from(second));
                let c = self.reach(usize::from(third));
                a.union(b.union(c))
            }
        }
    }

    // Whether the entry is a step whose three reaches do not share single elements two by two, three different ones. They are worked
    // out here as in `reach`; a function for both would have `reach` call itself through it.
    fn is_unhinged(self, entry: usize) -> bool
        requires { entry < length self.plan.now }
        ensures { result ≡ not_hinged self.entry.lawful.list.dimensions.now self.entry.plan.now entry }
    {
        match self.plan[entry] {
            Entry::Leaf { .. } => false,
            Entry::Step {
                first,
                second,
                third,
            } => {
                let a = self.reach(usize::from(first));
                let b = self.reach(usize::from(second));
                let c = self.reach(usize::from(third));
                !hinged(a, b, c)
            }
        }
    }

    // The first such step.
    pub(crate) fn not_hinged(self) -> Option<usize>
        ensures { result ≡ lowest (length self.entry.plan.now) (not_hinged self.entry.lawful.list.dimensions.now self.entry.plan.now) }
    {
        (0..self.plan.len()).find(|&entry| self.is_unhinged(entry))
    }

    // Whether the last entry reaches every element, whose numbers fit a byte.
    pub(crate) fn reaches_all(self) -> bool
        requires { 0 < length self.plan.now }
        ensures { result ≡ not (not_reached self.entry.lawful.list.kinds.now self.entry.lawful.list.dimensions.now self.entry.plan.now 0) }
    {
        let reach = self.reach(self.plan.len() - 1);
        (0..self.lawful.list.kinds.len()).all(|element| reach.contains(element as u8))
    }
}
