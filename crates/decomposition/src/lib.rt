//! Tree decompositions of graphs, and the laws about them. There is no program here: the contract of each function names a law,
//! so that checking the crate proves it.
#![tactic(auto)]

ghost use Rattle.decomposition.specs.Laws.{RulesLaw, AcceptanceLaw, WrittenLaw, CornersLaw, CountsLaw, OverlapLaw, NeverStuckLaw, MergingRuleLaw, PlanningLaw};

/// The rules of a tree over a list of edges, one by one, are those of a tree decomposition of the list's graph.
pub fn rules_stand()
    ensures { RulesLaw }
{}

/// A table is accepted exactly when it writes down a tree decomposition of the list's graph.
pub fn acceptance_stands()
    ensures { AcceptanceLaw }
{}

/// Every tree decomposition of a list's graph is written down by an accepted table.
pub fn writing_stands()
    ensures { WrittenLaw }
{}

/// Among k elements of a tree decomposition there are at most 2k − 3 of its edges, and on all its k elements just 2k − 3.
pub fn corners_stand()
    ensures { CornersLaw }
{}

/// A list of n elements that has an accepted table has 2n − 3 edges, and at most 2k − 3 among any k elements.
pub fn counts_stand()
    ensures { CountsLaw }
{}

/// Two different parts of a merge of a list that has a tree decomposition share at most one element.
pub fn overlap_stands()
    ensures { OverlapLaw }
{}

/// A merge of a list that has a tree decomposition never gets stuck.
pub fn progress_stands()
    ensures { NeverStuckLaw }
{}

/// The merging rule makes exactly one table of any list of edges.
pub fn merging_stands()
    ensures { MergingRuleLaw }
{}

/// The table of the merging rule is accepted exactly where any table of the list is.
pub fn planning_stands()
    ensures { PlanningLaw }
{}
