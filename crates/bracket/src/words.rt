//! Characters, and the runs of letters and digits that words and numbers are made of.
ghost use Rattle.std.specs.Prelude.{◌≡◌, ◌≤◌, length, if◌then◌else◌, Some, None, MatchResult};
ghost use Rattle.std.specs.List.{list_all, prefix_len};
ghost use Rattle.std.specs.Result.{result_err};
ghost use Rattle.bracket.specs.Characters.{class_of, digit, letter, in_run, run_of, past_run, is_word, read_on, number_of};
ghost use Rattle.bracket.specs.Faults.{fit, wrong, Clean, FirstFault};

use super::faults::WordFault;

// The sorts of character that the reader tells apart: by literal cases and ranges in one place, as docs/text.md has them, and not by the
// library's tests for letters and digits.
#[derive(Clone, Copy, PartialEq, Eq, Debug)]
enum Class {
    Open,
    Close,
    Space,
    Digit,
    Letter,
    Other,
}

impl From<u8> for Class {
    ghost from_gives = { λ byte class. class ≡ class_of byte };

    fn from(byte: u8) -> Class {
        match byte {
            b'(' => Class::Open,
            b')' => Class::Close,
            b' ' => Class::Space,
            b'0'..=b'9' => Class::Digit,
            b'a'..=b'z' => Class::Letter,
            _ => Class::Other,
        }
    }
}

fn in_run(byte: u8) -> bool
    ensures { result ≡ in_run byte }
{
    matches!(Class::from(byte), Class::Digit | Class::Letter)
}

// How long the run at the front is.
fn run_len(bytes: &[u8]) -> usize
    ensures value { result ≡ prefix_len in_run bytes.now }
    ensures within { result ≤ length bytes.now }
{
    bytes.iter().take_while(|byte| in_run(**byte)).count()
}

fn all_letters(run: &[u8]) -> bool
    ensures { result ≡ list_all letter run.now }
{
    run.iter().all(|byte| Class::from(*byte) == Class::Letter)
}

fn is_word(run: &[u8]) -> bool
    ensures { result ≡ is_word run.now }
{
    (1..=9).contains(&run.len()) && all_letters(run)
}

// The value of up to 16 digits; none where another byte is among them.
#[tactic(auto, using(crate::proofs::Decimal::room))]
fn digits(run: &[u8]) -> Option<u64>
    requires { length run.now ≤ 16 }
    ensures { result ≡ (if list_all digit run.now then Some (read_on 0 run.now) else None) }
{
    // a loop: `try_fold` was tried, and its proof did not close, since how few digits went before bounds the sum; the library's `parse`
    // takes a sign too
    let mut value = 0;
    for byte in run {
        if Class::from(*byte) != Class::Digit {
            return None;
        }
        value = value * 10 + u64::from(*byte - b'0');
    }
    Some(value)
}

// The value of a run that is a number.
pub(crate) fn number(run: &[u8]) -> Option<u64>
    ensures { result ≡ number_of run.now }
{
    match run {
        [] | [b'0', _, ..] => None,
        _ if run.len() <= 16 => digits(run),
        _ => None,
    }
}

// The run at the front, and what follows it.
pub(crate) fn split_run(bytes: &[u8]) -> (&[u8], &[u8])
    ensures run { result.0.now ≡ run_of bytes.now }
    ensures rest { result.1.now ≡ past_run bytes.now }
{
    bytes.split_at(run_len(bytes))
}

fn is_fit(run: &[u8]) -> bool
    ensures { result ≡ fit run.now }
{
    is_word(run) || number(run).is_some()
}

// What is wrong where `byte` stands, before the rest of the line that it begins. The byte is given too, since taking it from the rest
// would ask for an arm for an empty rest, which cannot come.
fn check_at(byte: u8, rest: &[u8], inside: bool, column: usize) -> Result<(), WordFault>
    ensures { result_err result ≡ wrong (class_of byte) inside (run_of rest.now) column }
{
    match Class::from(byte) {
        Class::Open | Class::Close | Class::Space => Ok(()),
        Class::Digit | Class::Letter if inside || is_fit(split_run(rest).0) => Ok(()),
        Class::Digit | Class::Letter => Err(WordFault::Run { column }),
        Class::Other => Err(WordFault::Byte { column }),
    }
}

// Every character and run of the line, from the left, up to the first fault.
pub(crate) fn check_words(line: &[u8]) -> Result<(), WordFault>
    ensures { MatchResult result (λ _. Clean line.now) (λ fault. FirstFault line.now fault) }
{
    // whether the byte before belongs to a run
    let mut inside = false;
    // a loop: `try_for_each`, which needs no such flag, was tried, and its proof did not close
    for (i, byte) in line.iter().enumerate() {
        check_at(*byte, &line[i..], inside, i + 1)?;
        inside = in_run(*byte);
    }
    Ok(())
}
