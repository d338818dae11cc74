//! A plan in the making, and the three entries that it joins next.
ghost use Rattle.std.specs.Prelude.{◌≡◌, ◌<◌, [], ◌∷◌, ◌++◌};
ghost use Rattle.graph.specs.Limits.{most_entries};
ghost use Rattle.plan.specs.Reach.{IsEnds};
ghost use Rattle.plan.specs.Drafts.{drafted, count, new_part, with_named, meets, closes, Joined, Third, Second, LowestThree};

use crate::entry::Entry;
use crate::reaches::{ends, hinged, sharing_one};
use arrayvec::ArrayVec;
use graph::dimension::Dimension;
use graph::element_set::ElementSet;
use graph::limits::MOST_ENTRIES;

// An entry, what it reaches, and whether no step names it. The reach stays when it is named: it is that of every entry.
#[derive(Clone, Copy, Default)]
pub(crate) struct Part {
    entry: Entry,
    reach: ElementSet,
    unnamed: bool,
}

// The entries so far.
#[derive(Drop)]
pub(crate) struct Draft {
    parts: ArrayVec<Part, MOST_ENTRIES>,
}

// The numbers of three entries, in rising order.
#[derive(Clone, Copy)]
pub(crate) struct Three {
    first: usize,
    second: usize,
    third: usize,
}

impl Draft {
    // No entry yet.
    pub(crate) fn new() -> Draft
        ensures { result.parts.items ≡ [] }
    {
        Draft {
            parts: ArrayVec::new(),
        }
    }

    // The entries so far.
    pub(crate) fn plan(&self) -> ArrayVec<Entry, MOST_ENTRIES>
        ensures { result.items ≡ drafted self.now }
    {
        let mut plan = ArrayVec::new();
        for part in self.parts.as_slice() {
            plan.push(part.entry);
        }
        plan
    }

    // One more entry, which no step names. A full draft is a draft too, so whoever adds an entry shows that there is room.
    fn push(&mut self, entry: Entry, reach: ElementSet)
        requires { count self.old < most_entries }
        ensures { self.new.parts.items ≡ self.old.parts.items ++ new_part entry reach ∷ [] }
    {
        self.parts.push(Part {
            entry,
            reach,
            unnamed: true,
        });
    }

    // The leaf of a dimension, for which there is room.
    pub(crate) fn push_leaf(&mut self, place: u16, dimension: Dimension)
        requires { count self.old < most_entries }
        ensures { (both : ElementSet) × IsEnds dimension both × (self.new.parts.items ≡ self.old.parts.items ++ new_part (Entry.Leaf place) both ∷ []) }
    {
        self.push(Entry::Leaf { place }, ends(dimension));
    }

    // A step names the entry from here on. Here and below a number is one of this draft's, which grows, so no type can say it.
    fn name(&mut self, entry: usize)
        requires { entry < count self.old }
        ensures { self.new.parts.items ≡ with_named self.old.parts.items entry }
    {
        self.parts[entry].unnamed = false;
    }

    // The step of three entries, which are named from here on, where there is room.
    pub(crate) fn join(&mut self, three: Three)
        requires room { count self.old < most_entries }
        requires below { (three.first < count self.old) × (three.second < count self.old) × (three.third < count self.old) }
        ensures { Joined self.old three self.new }
    {
        let Three {
            first,
            second,
            third,
        } = three;
        let a = self.parts[first].reach;
        let b = self.parts[second].reach;
        let c = self.parts[third].reach;
        self.name(first);
        self.name(second);
        self.name(third);
        // Numbers of entries fit: no draft has more than a plan.
        let step = Entry::Step {
            first: first as u16,
            second: second as u16,
            third: third as u16,
        };
        self.push(step, a.union(b.union(c)));
    }

    // No step names b, and it shares exactly one element with a.
    fn meeting(&self, a: usize, b: usize) -> bool
        requires { (a < count self.now) × (b < count self.now) }
        ensures { result ≡ meets self.now a b }
    {
        self.parts[b].unnamed && sharing_one(self.parts[a].reach, self.parts[b].reach)
    }

    // No step names c, and a step can join it with a and b.
    fn closing(&self, a: usize, b: usize, c: usize) -> bool
        requires { (a < count self.now) × (b < count self.now) × (c < count self.now) }
        ensures { result ≡ closes self.now a b c }
    {
        let parts = &self.parts;
        parts[c].unnamed && hinged(parts[a].reach, parts[b].reach, parts[c].reach)
    }

    // The lowest third entry for a first and a second.
    fn lowest_third(&self, a: usize, b: usize) -> Option<usize>
        requires { (a < b) × (b < count self.now) }
        ensures { Third self.now a b result }
    {
        let count = self.parts.len();
        (b + 1..count).find(|&c| self.closing(a, b, c))
    }

    // The lowest second and third entry for a first. With `find_map` over the range the proof did not close.
    fn lowest_second(&self, a: usize) -> Option<(usize, usize)>
        requires { a < count self.now }
        ensures { Second self.now a result }
    {
        let count = self.parts.len();
        for b in a + 1..count {
            if self.meeting(a, b) {
                if let Some(c) = self.lowest_third(a, b) {
                    return Some((b, c));
                }
            }
        }
        None
    }

    // The lowest three entries that no step names and one can join. Again not by `find_map`.
    pub(crate) fn lowest_three(&self) -> Option<Three>
        ensures { LowestThree self.now result }
    {
        for first in 0..self.parts.len() {
            if self.parts[first].unnamed {
                if let Some((second, third)) = self.lowest_second(first) {
                    return Some(Three {
                        first,
                        second,
                        third,
                    });
                }
            }
        }
        None
    }
}
