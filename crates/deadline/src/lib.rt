//! The board by earliest deadline.
#![tactic(auto)]

mod deadline;

pub use deadline::Deadline;
