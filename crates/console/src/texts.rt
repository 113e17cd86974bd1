//! Text that is written from fixed byte strings, with numbers in them.
ghost use Rattle.std.specs.Prelude.{◌≡◌, ◌+◌, ◌*◌, ◌++◌, length, is_ok, decimal, OnOk};
ghost use Rattle.console.specs.Memory.{Adds};
ghost use Rattle.console.specs.Texts.{filled};

use itoa::Buffer;
use std::alloc::AllocError;

// Each call of this crate that adds text promises a bound of its own on the memory that it takes. That is said of a change and not of a
// vector, so it stands in each contract, as `Adds`, and in no type.

// Adds these bytes.
pub(crate) fn push_text(text: &[u8], out: &mut Vec<u8>) -> Result<(), AllocError>
    ensures memory { Adds (length text.now) out.old out.new (is_ok result) }
    ensures text { OnOk result (out.new.items ≡ out.old.items ++ text.now) }
{
    out.extend_from_slice(text)
}

// Adds a number in base ten.
fn push_number(n: u64, out: &mut Vec<u8>) -> Result<(), AllocError>
    ensures memory { Adds 20 out.old out.new (is_ok result) }
    ensures text { OnOk result (out.new.items ≡ out.old.items ++ decimal n) }
{
    push_text(Buffer::new().format(n).as_bytes(), out)
}

// Adds a text in which each `#` stands for the next of the numbers.
pub(crate) fn fill(form: &[u8], numbers: &[u64], out: &mut Vec<u8>) -> Result<(), AllocError>
    ensures memory { Adds (length form.now + 20 * length numbers.now) out.old out.new (is_ok result) }
    ensures text { OnOk result (out.new.items ≡ out.old.items ++ filled form.now numbers.now) }
{
    let mut left = numbers.iter();
    for byte in form {
        if *byte != b'#' {
            push_text(&[*byte], out)?;
        } else if let Some(number) = left.next() {
            push_number(*number, out)?;
        }
    }
    Ok(())
}
