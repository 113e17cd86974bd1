//! One line, read whole.
ghost use Rattle.bracket.specs.declared.faults.FormFault.TheVariants.{Word, Unknown};
ghost use Rattle.bracket.specs.Reads.{FormReads, ReadAs};

use super::commands::Command;
use super::faults::{FormFault, LineFault};
use super::forms::command;
use super::words::check_words;

const LONGEST: usize = 80;

// Faults of words come first, wherever in the line they stand.
#[tactic(auto, using(crate::proofs::Determined::by_form))]
fn form(line: &[u8]) -> Result<Command, FormFault>
    ensures { FormReads line.now result }
{
    check_words(line)?;
    command(line).ok_or(FormFault::Unknown)
}

/// Reads one line, without the byte that ends it.
pub fn read(line: &[u8]) -> Result<Command, LineFault>
    ensures { ReadAs line.now result }
{
    if line.len() > LONGEST {
        return Err(LineFault::TooLong);
    }
    Ok(form(line)?)
}
