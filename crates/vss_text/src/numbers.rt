//! Numbers at the front of a text, each with the byte behind it.
ghost use Rattle.std.specs.Prelude.{◌≡◌, ◌≢◌, ◌↔◌, ◌+◌, ◌<◌, ◌≤◌, ◌++◌, ◌∷◌, IfOk, IfErr, IsTrue, decimal, drop, length};
ghost use Rattle.vss_text.specs.Reading.{Misses};
ghost use Rattle.vss_text.specs.Numbers.{IsShort, ended};

use crate::miss::Miss;

/// The number at the front of the text, and what follows the byte behind it, which is `end`. A number has one to nine
/// decimal digits and no leading zero. Linear in the digits.
#[inline(always)]
pub fn number(text: &[u8], end: u8) -> Result<(u32, &[u8]), Miss>
    requires { end < 48 }
    ensures short { IfOk result (λ found. IsShort found.0) }
    ensures found { IfOk result (λ found. text.now ≡ decimal found.0 ++ end ∷ found.1.now) }
    ensures missed { IfErr result (Misses IsShort (ended end) text.now) }
{
    match text.split_first_chunk::<10>() {
        // ten bytes hold a number and the byte behind it, and a loop over so many is unrolled
        Some((head, _)) => match leading(head, end) {
            Ok((value, digits)) => Ok((value, &text[digits + 1..])),
            Err(miss) => Err(miss),
        },
        None => match leading(text, end) {
            Ok((value, digits)) => Ok((value, &text[digits + 1..])),
            Err(miss) => Err(miss),
        },
    }
}

/// The number at the front of the text, with `end` behind it, and how many digits it has.
#[inline(always)]
fn leading(text: &[u8], end: u8) -> Result<(u32, usize), Miss>
    requires { end < 48 }
    ensures short { IfOk result (λ found. IsShort found.0) }
    ensures within { IfOk result (λ found. found.1 < length text.now) }
    ensures found { IfOk result (λ found. text.now ≡ decimal found.0 ++ end ∷ drop (found.1 + 1) text.now) }
    ensures missed { IfErr result (Misses IsShort (ended end) text.now) }
{
    let mut value = 0;
    for (count, byte) in text.iter().enumerate() {
        if !goes_on(text[0], count, *byte) {
            if *byte != end {
                return Err(Miss::Wrong);
            }
            return if count == 0 {
                Err(Miss::Wrong)
            } else {
                Ok((value, count))
            };
        }
        value = value * 10 + u32::from(*byte - b'0');
    }
    Err(Miss::Short)
}

/// Whether the byte may stand at that place of a number that begins with `first`.
#[inline(always)]
fn goes_on(first: u8, count: usize, byte: u8) -> bool
    ensures { IsTrue result ↔ ((48 ≤ byte) × (byte ≤ 57) × (count < 9) × (0 < count → first ≢ 48)) }
{
    byte.is_ascii_digit() && count < 9 && (count == 0 || first != b'0')
}
