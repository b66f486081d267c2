//! Texts put behind one another.
ghost use Rattle.std.specs.Prelude.{◌≡◌, ◌++◌, OnOk};
ghost use Rattle.case_maker.specs.Texts.{filled, filled_at};

use itoa::Buffer;
use std::alloc::AllocError;

/// Puts the text behind the others.
pub(crate) fn put(out: &mut Vec<u8>, text: &[u8]) -> Result<(), AllocError>
    ensures { OnOk result (out.new.items ≡ out.old.items ++ text.now) }
{
    out.extend_from_slice(text)
}

/// Puts the text, with the number for each `#`.
#[tactic(auto, unfolding(crate::specs::Texts::filled))]
pub(crate) fn put_filled(out: &mut Vec<u8>, text: &[u8], number: u32) -> Result<(), AllocError>
    ensures { OnOk result (out.new.items ≡ out.old.items ++ filled text.now number) }
{
    for place in 0..text.len() {
        put_at(out, text[place], number)?;
    }
    Ok(())
}

/// Puts the byte, or the number for a `#`.
#[tactic(auto, unfolding(crate::specs::Texts::filled_at))]
fn put_at(out: &mut Vec<u8>, byte: u8, number: u32) -> Result<(), AllocError>
    ensures { OnOk result (out.new.items ≡ out.old.items ++ filled_at number byte) }
{
    if byte == b'#' {
        put(out, Buffer::new().format(number).as_bytes())
    } else {
        out.push(byte)?;
        Ok(())
    }
}
