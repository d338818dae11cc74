//! Plans: entries, what they reach, the check of a plan and the search for one: layer 3 of the refusals.
#![tactic(auto)]

pub mod check;
mod draft;
pub mod entry;
pub mod faults;
pub mod merge;
mod named;
mod reaches;
