//! Lines that are written, field by field.

ghost use Rattle.std.specs.Prelude.{◌≡◌, [], ◌∷◌, ◌++◌, decimal, OnOk};

use itoa::Buffer;
use std::alloc::AllocError;
use text_names::Bytes;

/// Puts a field after a space.
pub fn put_field(text: &mut Bytes, field: &[u8]) -> Result<(), AllocError>
    ensures { OnOk result (text.new ≡ text.old ++ 32 ∷ field.now) }
{
    text.append(b" ")?;
    text.append(field)
}

/// Puts a number after a space.
pub fn put_number(text: &mut Bytes, number: u64) -> Result<(), AllocError>
    ensures { OnOk result (text.new ≡ text.old ++ 32 ∷ decimal number) }
{
    let mut buffer = Buffer::new();
    put_field(text, buffer.format(number).as_bytes())
}

/// Ends a line.
pub fn end_line(text: &mut Bytes) -> Result<(), AllocError>
    ensures { OnOk result (text.new ≡ text.old ++ 10 ∷ []) }
{
    text.append(b"\n")
}
