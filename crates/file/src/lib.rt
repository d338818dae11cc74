//! Files: how a list and its plan are written as bytes, and read back. Layer 1 of the refusals.
#![tactic(auto)]

pub mod decode;
pub mod encode;
pub mod faults;
mod judge;
pub mod laws;
mod layout;
pub mod limits;
pub mod parts;
mod reading;
mod stored;
pub mod tables;
