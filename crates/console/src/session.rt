//! Bytes in pieces of any length, cut into lines and answered.
ghost use Rattle.std.specs.Prelude.{ℕ, ◌*◌, List, [], length, is_ok, IfOk, OnOk};
ghost use Rattle.console.specs.Memory.{Adds};

use super::buffer::LineBuffer;
use super::console::Console;
use super::report::Report;
use super::texts::push_text;
use std::alloc::AllocError;

/// One input, from its first byte on.
#[derive(Drop)]
pub struct Session {
    console: Console,
    buffer: LineBuffer,
}

impl Session {
    ghost use Rattle.console.specs.Sessions.{Reached, LineEnded, Fed, Closed};

    /// Before the first byte.
    pub fn new() -> Session
        ensures { Reached [] [] result }
    {
        Session {
            console: Console::new(),
            buffer: LineBuffer::new(),
        }
    }

    // Answers the line that is kept.
    fn end_line(&mut self, out: &mut Vec<u8>) -> Result<(), AllocError>
        ensures memory { Adds 81 out.old out.new (is_ok result) }
        ensures line { OnOk result (LineEnded self.old self.new out.old.items out.new.items) }
    {
        let answer = self.console.answer(self.buffer.text());
        self.buffer.clear();
        answer.write(out)?;
        push_text(b"\n", out)
    }

    /// Takes the next bytes of the input, and adds the answers to the lines that end in them.
    pub fn feed(&mut self, bytes: &[u8], out: &mut Vec<u8>) -> Result<(), AllocError>
        ensures memory { Adds (81 * length bytes.now) out.old out.new (is_ok result) }
        ensures answers { OnOk result ((input output : List ℕ) → Reached input output self.old → Fed input output bytes.now self.new out.old.items out.new.items) }
    {
        for byte in bytes {
            if *byte != b'\n' {
                self.buffer.push(*byte);
                continue;
            }
            self.end_line(out)?;
        }
        Ok(())
    }

    /// Ends the input: adds the answer to a last line that no byte ended, and reports.
    pub fn finish(mut self, out: &mut Vec<u8>) -> Result<Report, AllocError>
        ensures memory { Adds 81 out.old out.new (is_ok result) }
        ensures answers { IfOk result (λ report. (input output : List ℕ) → Reached input output self → Closed input output report out.old.items out.new.items) }
    {
        if !self.buffer.text().is_empty() {
            self.end_line(out)?;
        }
        Ok(self.console.report())
    }
}
