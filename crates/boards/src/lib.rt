//! Boards: which jobs are pending for each of at most eight components, and which one runs next.
#![tactic(auto)]

mod board;
mod either;
mod empty;
mod joined;
mod resizable;

pub use board::Board;
pub use either::Either;
pub use empty::is_empty;
pub use joined::Joined;
pub use resizable::{Resizable, with_reach};
