//! What can be wrong with a line, in three layers. A fault of a lower layer is carried whole by the one above it.
ghost use Rattle.std.specs.Prelude.{◌≡◌, length};
ghost use Rattle.bracket.specs.declared.faults.FormFault.TheVariants.{Word};
ghost use Rattle.bracket.specs.declared.faults.LineFault.TheVariants.{Form};
ghost use Rattle.bracket.specs.Faults.{layer_of, column_of, cause_of};

/// A character or a run of characters that cannot stand in any form; columns count from 1.
#[derive(Clone, Copy, PartialEq, Eq, Debug)]
pub enum WordFault {
    /// A byte that is no bracket, space, digit or small letter.
    Byte { column: usize },
    /// A run of letters and digits, from this column on, that is neither a word nor a number.
    Run { column: usize },
}

/// Why a line is no known form.
#[derive(Clone, Copy, PartialEq, Eq, Debug)]
pub enum FormFault {
    Word(WordFault),
    /// Each word and number is well written, and the whole is no known form.
    Unknown,
}

/// Why a line cannot be read.
#[derive(Clone, Copy, PartialEq, Eq, Debug)]
pub enum LineFault {
    /// More than 80 bytes.
    TooLong,
    Form(FormFault),
}

// Layer, column and cause are what an answer is filled in with, which is written from fixed byte strings: so these and no `Display`.
impl LineFault {
    /// The layer that the fault belongs to, as it is printed.
    pub fn layer(self) -> &'static [u8]
        ensures value { result.now ≡ layer_of self }
        ensures len { length result.now ≡ 4 }
    {
        match self {
            LineFault::TooLong => b"line",
            LineFault::Form(FormFault::Word(_)) => b"word",
            LineFault::Form(FormFault::Unknown) => b"form",
        }
    }

    /// The column where the fault stands, from 1.
    pub fn column(self) -> usize
        ensures { result ≡ column_of self }
    {
        match self {
            LineFault::TooLong => 81,
            LineFault::Form(
                FormFault::Word(WordFault::Byte { column } | WordFault::Run { column }),
            ) => column,
            LineFault::Form(FormFault::Unknown) => 1,
        }
    }

    /// The number of the cause, which is all that an answer prints of it.
    // no `as`: variants with fields have no numbers of their own
    pub fn cause(self) -> u8
        ensures { result ≡ cause_of self }
    {
        match self {
            LineFault::TooLong => 33,
            LineFault::Form(FormFault::Word(WordFault::Byte { .. })) => 30,
            LineFault::Form(FormFault::Word(WordFault::Run { .. })) => 31,
            LineFault::Form(FormFault::Unknown) => 32,
        }
    }
}

impl From<WordFault> for FormFault {
    ghost from_gives = { λ fault f. f ≡ Word fault };

    fn from(fault: WordFault) -> FormFault {
        FormFault::Word(fault)
    }
}

impl From<FormFault> for LineFault {
    ghost from_gives = { λ fault f. f ≡ Form fault };

    fn from(fault: FormFault) -> LineFault {
        LineFault::Form(fault)
    }
}
