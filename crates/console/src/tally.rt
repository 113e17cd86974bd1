//! How many lines an input had, and what became of them.
ghost use Rattle.std.specs.Prelude.{◌≡◌};
ghost use Rattle.console.specs.Tallies.{no_lines, line_after, tallied};

use super::answers::Answer;

/// Lines by the sort of their answer. Each count stays at the largest `u64` once it is there.
#[derive(Clone, Copy, PartialEq, Eq, Debug, Default)]
pub struct Tally {
    pub lines: u64,
    pub accepted: u64,
    pub refused: u64,
    pub unreadable: u64,
}

impl Tally {
    pub(crate) fn new() -> Tally
        ensures { result ≡ no_lines }
    {
        Tally::default()
    }

    // The number of the line that comes next, from 1.
    pub(crate) fn next_line(&self) -> u64
        ensures { result ≡ line_after self.now }
    {
        self.lines.saturating_add(1)
    }

    // Counts one line more.
    pub(crate) fn count(&mut self, answer: Answer)
        ensures { self.new ≡ tallied self.old answer }
    {
        self.lines = self.next_line();
        match answer {
            Answer::Accepted(_) => self.accepted = self.accepted.saturating_add(1),
            Answer::Refused(_) => self.refused = self.refused.saturating_add(1),
            Answer::Unreadable { .. } => self.unreadable = self.unreadable.saturating_add(1),
        }
    }
}
