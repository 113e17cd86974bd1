//! What is left of a line, read from the left. A step takes what it reads, or answers nothing where the bytes go on in another way.
ghost use Rattle.std.specs.Prelude.{◌≡◌};
ghost use Rattle.std.specs.Option.{option_map};
ghost use Rattle.std.specs.Str.{bytes_eq};
ghost use Rattle.bracket.specs.Characters.{run_of, past_run};
ghost use Rattle.bracket.specs.Items.{after, number_item, number_items};

use super::words::{number, split_run};

// Whether the bytes are this text.
pub(crate) fn spells(bytes: &[u8], text: &[u8]) -> bool
    ensures { result ≡ bytes_eq bytes.now text.now }
{
    bytes == text
}

// What is left of a line.
#[derive(Clone, Copy)]
pub(crate) struct Rest<'a> {
    pub(crate) bytes: &'a [u8],
}

impl<'a> Rest<'a> {
    // Steps over this text.
    pub(crate) fn skip(&mut self, text: &[u8]) -> Option<()>
        ensures { option_map (λ _. self.new.bytes.now) result ≡ after text.now self.old.bytes.now }
    {
        self.bytes = self.bytes.strip_prefix(text)?;
        Some(())
    }

    // The run at the front.
    pub(crate) fn run(&mut self) -> &'a [u8]
        ensures run { result.now ≡ run_of self.old.bytes.now }
        ensures rest { self.new.bytes.now ≡ past_run self.old.bytes.now }
    {
        let (run, rest) = split_run(self.bytes);
        self.bytes = rest;
        run
    }

    // A space and a number.
    pub(crate) fn number(&mut self) -> Option<u64>
        ensures { option_map (λ n. (n, self.new.bytes.now)) result ≡ number_item self.old.bytes.now }
    {
        self.skip(b" ")?;
        number(self.run())
    }
}

// Just so many number items, the last of which ends the line with this text.
#[tactic(auto, unfolding(crate::specs::Items::number_items))]
pub(crate) fn numbers<const N: usize>(bytes: &[u8], end: &[u8]) -> Option<[u64; N]>
    ensures { result ≡ number_items N end.now bytes.now }
{
    let mut rest = Rest { bytes };
    let mut numbers = [0; N];
    for number in &mut numbers {
        *number = rest.number()?;
    }
    spells(rest.bytes, end).then_some(numbers)
}
