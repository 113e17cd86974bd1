//! What was done with one input.
ghost use Rattle.std.specs.Prelude.{◌≡◌, ◌+◌, ◌++◌, length, is_ok, OnOk};
ghost use Rattle.console.specs.Memory.{Adds};
ghost use Rattle.console.specs.Reports.{report_text};

use super::tally::Tally;
use super::texts::{fill, push_text};
use controller::Counts;
use std::alloc::AllocError;

/// The lines of an input by their answers, and how much its plan declares.
#[derive(Clone, Copy, PartialEq, Eq, Debug)]
pub struct Report {
    pub tally: Tally,
    pub counts: Counts,
}

impl Report {
    /// Adds the report's text, one line.
    pub fn write(self, name: &[u8], out: &mut Vec<u8>) -> Result<(), AllocError>
        ensures memory { Adds (length name.now + 240) out.old out.new (is_ok result) }
        ensures text { OnOk result (out.new.items ≡ out.old.items ++ report_text name.now self) }
    {
        // filled in as answers are, and not by `Display`: what that needs of memory is promised nowhere
        let lines = self.tally;
        let plan = self.counts;
        push_text(name, out)?;
        fill(
            b": lines #, accepted #, refused #, unreadable #; components #, tasks #, uses #\n",
            &[
                lines.lines,
                lines.accepted,
                lines.refused,
                lines.unreadable,
                plan.components,
                plan.tasks,
                plan.uses,
            ],
            out,
        )
    }
}
