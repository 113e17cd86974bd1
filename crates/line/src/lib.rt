//! A line of records that are kept in order, in memory that its owner lends it at each call.
#![tactic(auto)]

mod kept;
mod ranked;
mod records;

pub use kept::Line;
pub use ranked::Ranked;
pub use records::{Job, Refill};
