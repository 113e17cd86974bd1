//! The board by fixed priority.
#![tactic(auto)]

mod fixed;
mod tasks;

pub use fixed::Fixed;
