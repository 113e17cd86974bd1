//! One line of text in, one line of answer out, with the controller between them.
#![tactic(auto)]

mod answers;
mod buffer;
mod console;
mod making;
mod report;
mod session;
mod tally;
mod texts;

pub use answers::{Answer, Reply};
pub use console::Console;
pub use making::{SideBoard, TextBoard, make_board};
pub use report::Report;
pub use session::Session;
pub use tally::Tally;
