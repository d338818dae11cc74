//! Elements, dimensions, sets of elements, and which lists of dimensions are lawful: layer 2 of the refusals.
#![tactic(auto)]

pub mod dimension;
pub mod element_set;
pub mod faults;
pub mod kind;
pub mod limits;
pub mod list;
pub mod refusal;
