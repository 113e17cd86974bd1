//! Bracket text: one line of bytes is one command, or the first fault in it.
#![tactic(auto)]

mod commands;
mod faults;
mod forms;
mod items;
mod lines;
mod words;

pub use commands::{BoardText, Command, Kind, Side};
pub use faults::{FormFault, LineFault, WordFault};
pub use lines::read;
