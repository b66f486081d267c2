//! Numbers of a log: 1 to 999,999,999, without a leading zero, and the blank behind each.
ghost use Rattle.std.specs.Prelude.{◌≡◌, ◌∷◌, ◌++◌, [], decimal, IfOk, IfErr};
ghost use Rattle.vss_io.specs.Written.{PrintsAllBut};
ghost use Rattle.vss_text.specs.Reading.{Misses};
ghost use Rattle.vss_text.specs.Numbers.{ended};
ghost use Rattle.derivation_log.specs.Text.{IsLogNumber};

use itoa::Buffer;
use vss_io::{LineBuf, Sink, SinkFault};
use vss_text::{Miss, begins_with};

/// The number at the front of the text, and what follows the blank behind it.
#[inline(always)]
pub(crate) fn number(text: &[u8]) -> Result<(u32, &[u8]), Miss>
    ensures in_range { IfOk result (λ found. IsLogNumber found.0) }
    ensures found { IfOk result (λ found. text.now ≡ decimal found.0 ++ 32 ∷ found.1.now) }
    ensures missed { IfErr result (Misses IsLogNumber (ended 32) text.now) }
{
    if begins_with(text, b'0') {
        return Err(Miss::Wrong);
    }
    match vss_text::number(text, b' ') {
        Ok((value, rest)) => Ok((value, rest)),
        Err(miss) => Err(miss),
    }
}

/// Adds the number and the blank behind it to a line.
pub(crate) fn add_number<K: Sink>(
    number: u32,
    text: &mut LineBuf,
    out: &mut K,
) -> Result<(), SinkFault>
    ensures { PrintsAllBut (K.shown out.old) (K.shown out.new) text.new (text.old ++ (decimal number ++ 32 ∷ [])) result }
{
    text.add(Buffer::new().format(number).as_bytes(), out)?;
    text.add(b" ", out)
}
