//! The controller, as far as a plan is drafted: components, their tasks and their uses of resources.
#![tactic(auto)]

mod component;
mod controller;
mod counts;
mod plan;

pub use controller::Controller;
pub use counts::Counts;
