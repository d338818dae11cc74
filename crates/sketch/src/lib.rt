//! Sketches: a list with a plan that check accepts, kept so by every call, the file of a sketch, and the report of an outcome.
//! Layer 4 of the refusals.
#![tactic(auto)]

mod buffer;
pub mod counts;
pub mod faults;
pub mod report;
pub mod sketch;
