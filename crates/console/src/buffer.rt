//! The line that is being read, as far as it matters.
ghost use Rattle.std.specs.Prelude.{◌≡◌, [], ◌∷◌, ◌++◌, take};

use arrayvec::ArrayVec;

/// One byte more than a line may have: enough to see that it is too long, however long it is.
const PLACES: usize = 81;

/// The first 81 bytes of a line.
#[derive(Drop)]
pub struct LineBuffer {
    bytes: ArrayVec<u8, PLACES>,
}

impl LineBuffer {
    ghost use Rattle.console.specs.Buffers.{kept_in};

    pub(crate) fn new() -> LineBuffer
        ensures { kept_in result ≡ [] }
    {
        LineBuffer {
            bytes: ArrayVec::new(),
        }
    }

    // Keeps one byte more, unless there are 81 already.
    pub(crate) fn push(&mut self, byte: u8)
        ensures { kept_in self.new ≡ take 81 (kept_in self.old ++ byte ∷ []) }
    {
        if !self.bytes.is_full() {
            self.bytes.push(byte);
        }
    }

    pub(crate) fn text(&self) -> &[u8]
        ensures { result.now ≡ kept_in self.now }
    {
        self.bytes.as_slice()
    }

    pub(crate) fn clear(&mut self)
        ensures { kept_in self.new ≡ [] }
    {
        self.bytes.clear();
    }
}
