//! What is answered to a line, and the bytes that are printed of it.
ghost use Rattle.std.specs.Prelude.{◌≡◌, ◌++◌, is_ok, OnOk};
ghost use Rattle.bracket.specs.Faults.{fault_text};
ghost use Rattle.console.specs.Memory.{Adds};
ghost use Rattle.console.specs.Answers.{answer_text, reply_text, replied};

use super::texts::{fill, push_text};
use bracket::LineFault;
use refusals::Refusal;
use std::alloc::AllocError;

/// What an accepted command answers.
#[derive(Clone, Copy, PartialEq, Eq, Debug)]
pub enum Reply {
    /// Nothing but that it was accepted.
    Done,
    /// The number of what was declared.
    Number(u64),
}

/// The answer to one line.
// No `Result`: an unreadable or a refused line is no error of a call, and each of the three is counted by itself.
#[derive(Clone, Copy, PartialEq, Eq, Debug)]
pub enum Answer {
    Accepted(Reply),
    Refused(Refusal),
    Unreadable { line: u64, fault: LineFault },
}

impl From<Result<Reply, Refusal>> for Answer {
    ghost from_gives = { λ reply answer. answer ≡ replied reply };

    fn from(reply: Result<Reply, Refusal>) -> Answer {
        match reply {
            Ok(reply) => Answer::Accepted(reply),
            Err(refusal) => Answer::Refused(refusal),
        }
    }
}

// Answers are written from fixed byte strings with numbers in them, here and below, and not by `Display`: what that needs of memory is
// promised nowhere.
impl Reply {
    fn write(self, out: &mut Vec<u8>) -> Result<(), AllocError>
        ensures memory { Adds 80 out.old out.new (is_ok result) }
        ensures text { OnOk result (out.new.items ≡ out.old.items ++ reply_text self) }
    {
        match self {
            Reply::Done => fill(b"(ok)", &[], out),
            Reply::Number(n) => fill(b"(ok #)", &[n], out),
        }
    }
}

// Adds a fault with the number of its line.
fn push_fault(line: u64, fault: LineFault, out: &mut Vec<u8>) -> Result<(), AllocError>
    ensures memory { Adds 80 out.old out.new (is_ok result) }
    ensures text { OnOk result (out.new.items ≡ out.old.items ++ fault_text line fault) }
{
    push_text(b"(", out)?;
    push_text(fault.layer(), out)?;
    // `as`, since `From` has nothing from usize to u64, and no bit is lost
    fill(
        b" # # #)",
        &[line, fault.column() as u64, u64::from(fault.cause())],
        out,
    )
}

impl Answer {
    /// Adds the answer's text, with no byte to end the line.
    pub fn write(self, out: &mut Vec<u8>) -> Result<(), AllocError>
        ensures memory { Adds 80 out.old out.new (is_ok result) }
        ensures text { OnOk result (out.new.items ≡ out.old.items ++ answer_text self) }
    {
        match self {
            Answer::Accepted(reply) => reply.write(out),
            Answer::Refused(refusal) => fill(b"(no #)", &[u64::from(refusal.number())], out),
            Answer::Unreadable { line, fault } => push_fault(line, fault, out),
        }
    }
}
