//! Reads plans as bracket text, from files or from standard input, and prints an answer for each line.
#![tactic(auto)]

ghost use Rattle.std.specs.Prelude.{◌≤◌, length, IfOk};

use console::Session;
use std::alloc::AllocError;
use std::fs::File;
use std::io::{ErrorKind, Read, Write};
use std::process::ExitCode;
use std::{env, fmt, io};

// As much of the input as is read at once.
const PIECE: usize = 65536;

// Room for the answers to a whole piece: each byte ends one line at most, whose answer has at most 81 bytes with the one that ends it.
const ANSWERS: usize = 81 * PIECE;

// What can go wrong outside the text.
#[derive(Drop, Debug)]
enum Failure {
    Memory,
    Read(io::Error),
    Write(io::Error),
}

impl From<AllocError> for Failure {
    fn from(_error: AllocError) -> Failure {
        Failure::Memory
    }
}

impl fmt::Display for Failure {
    fn fmt<W: fmt::Write>(&self, f: &mut fmt::Formatter<W>) -> fmt::Result {
        match self {
            Failure::Memory => write!(f, "out of memory"),
            Failure::Read(error) => write!(f, "cannot read: {error}"),
            Failure::Write(error) => write!(f, "cannot write: {error}"),
        }
    }
}

// Writes all that is to be printed, and makes it seen at once.
fn print(rt: &HostRuntime, text: &[u8]) -> Result<(), Failure> {
    let mut out = rt.stdout();
    out.write_all(text).map_err(Failure::Write)?;
    out.flush().map_err(Failure::Write)
}

// The next piece of the input: how many bytes it has, or 0 at the end, as the library's `read` answers it.
fn next_piece<R: Read>(input: &mut R, piece: &mut [u8]) -> Result<usize, Failure>
    ensures { IfOk result (λ len. len ≤ length piece.new) }
{
    // the count stands for a loop with no bound, which only a function that may run forever can have
    for _ in 0..u64::MAX {
        match input.read(piece) {
            Err(error) if error.kind() == ErrorKind::Interrupted => {}
            read => return read.map_err(Failure::Read),
        }
    }
    Ok(0)
}

// The runtime and an input's name go through four functions: the one is a handle that each passes on, the other what that input is called.

// Answers one input from its beginning to its end. Answers are written after each piece, so that a person at a prompt sees them at once.
fn answer<R: Read>(rt: &HostRuntime, input: &mut R, name: &str) -> Result<(), Failure> {
    let heap = rt.alloc();
    let mut piece = vec![in heap; 0u8; PIECE]?;
    let mut out = Vec::with_capacity(heap, ANSWERS)?;
    let mut session = Session::new();
    // a count here too
    for _ in 0..u64::MAX {
        let len = next_piece(input, &mut piece)?;
        if len == 0 {
            break;
        }
        session.feed(&piece[..len], &mut out)?;
        print(rt, &out)?;
        out.clear();
    }
    let report = session.finish(&mut out)?;
    print(rt, &out)?;
    out.clear();
    report.write(name.as_bytes(), &mut out)?;
    rt.stderr().write_all(&out).map_err(Failure::Write)
}

// One argument: a file, or standard input where it is `-`.
fn open_and_answer(rt: &HostRuntime, name: &str) -> Result<(), Failure> {
    if name == "-" {
        return answer(rt, &mut rt.stdin(), name);
    }
    let mut file = File::open(rt, name).map_err(Failure::Read)?;
    answer(rt, &mut file, name)
}

// Says on standard error what went wrong with an input. There is nowhere else to say that this failed too.
fn explain(rt: &HostRuntime, name: &str, failure: &Failure) {
    let _ = eprintln!(rt; "steps: {name}: {failure}");
}

// Answers one argument, and explains what went wrong with it.
fn answer_named(rt: &HostRuntime, name: &str) -> Result<(), Failure> {
    open_and_answer(rt, name).inspect_err(|failure| explain(rt, name, failure))
}

// Answers each argument, or standard input without one. The first failure ends the run.
fn run(rt: &HostRuntime) -> Result<(), Failure> {
    let args = env::args(rt)
        .map_err(Failure::Read)
        .inspect_err(|failure| explain(rt, "arguments", failure))?;
    let mut names = args.skip(1).peekable();
    if names.peek().is_none() {
        return answer_named(rt, "-");
    }
    for name in names {
        answer_named(rt, name.as_str())?;
    }
    Ok(())
}

// The status says whether all was read and written. What went wrong was explained by then, so nothing more is printed.
fn main(rt: HostRuntime) -> ExitCode {
    match run(&rt) {
        Ok(()) => ExitCode::SUCCESS,
        Err(_) => ExitCode::FAILURE,
    }
}
