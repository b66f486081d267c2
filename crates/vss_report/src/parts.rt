//! The parts of lines: a name, or words with a name or a number behind them.
ghost use Rattle.std.specs.Prelude.{◌≡◌, ◌++◌, ◌∷◌, false, decimal, IfOk, IfErr};
ghost use Rattle.vss_names.specs.Names.{IsName, is_name_byte as is_plain_byte};
ghost use Rattle.vss_report.specs.Readings.{named, with_word};
ghost use Rattle.vss_text.specs.Numbers.{IsShort, ended};
ghost use Rattle.vss_text.specs.Reading.{Misses, Both, both_spelled};

use vss_names::is_name_byte;
use vss_text::{Miss, after, number};

/// The name at the front of the text, and what follows the byte behind it, which is `end`. Linear in the name.
pub(crate) fn name(text: &[u8], end: u8) -> Result<(&[u8], &[u8]), Miss>
    requires { is_plain_byte end ≡ false }
    ensures fits { IfOk result (λ found. IsName found.0.now) }
    ensures found { IfOk result (λ found. text.now ≡ found.0.now ++ end ∷ found.1.now) }
    ensures missed { IfErr result (Misses IsName (named end) text.now) }
{
    for (count, byte) in text.iter().enumerate() {
        if *byte == end {
            return if count == 0 {
                Err(Miss::Wrong)
            } else {
                Ok((&text[..count], &text[count + 1..]))
            };
        }
        if count == 32 || !is_name_byte(*byte) {
            return Err(Miss::Wrong);
        }
    }
    Err(Miss::Short)
}

/// The number that ends the line behind the words, and what follows the line.
pub(crate) fn numbered<'a>(text: &'a [u8], words: &[u8]) -> Result<(u32, &'a [u8]), Miss>
    ensures short { IfOk result (λ found. IsShort found.0) }
    ensures found { IfOk result (λ found. text.now ≡ words.now ++ (decimal found.0 ++ 10 ∷ found.1.now)) }
    ensures missed { IfErr result (Misses IsShort (with_word words.now (ended 10)) text.now) }
{
    let rest = match after(text, words) {
        Ok(rest) => rest,
        Err(miss) => return Err(miss),
    };
    match number(rest, b'\n') {
        Ok((value, rest)) => Ok((value, rest)),
        Err(miss) => Err(miss),
    }
}

/// The name that ends the line behind the words, and what follows the line.
pub(crate) fn worded<'a>(text: &'a [u8], words: &[u8]) -> Result<(&'a [u8], &'a [u8]), Miss>
    ensures fits { IfOk result (λ found. IsName found.0.now) }
    ensures found { IfOk result (λ found. text.now ≡ words.now ++ (found.0.now ++ 10 ∷ found.1.now)) }
    ensures missed { IfErr result (Misses IsName (with_word words.now (named 10)) text.now) }
{
    let rest = match after(text, words) {
        Ok(rest) => rest,
        Err(miss) => return Err(miss),
    };
    match name(rest, b'\n') {
        Ok((name, rest)) => Ok((name, rest)),
        Err(miss) => Err(miss),
    }
}

/// A name, a blank and a number that end the line behind the words.
#[derive(Clone, Copy, Debug)]
pub(crate) struct NamedNumber<'a> {
    pub name: &'a [u8],
    pub number: u32,
}

/// The name and the number that end the line behind the words, and what follows the line.
pub(crate) fn named_number<'a>(
    text: &'a [u8],
    words: &[u8],
) -> Result<(NamedNumber<'a>, &'a [u8]), Miss>
    ensures name { IfOk result (λ found. IsName found.0.name.now) }
    ensures short { IfOk result (λ found. IsShort found.0.number) }
    ensures found { IfOk result (λ found. text.now ≡ words.now ++ (found.0.name.now ++ 32 ∷ (decimal found.0.number ++ 10 ∷ found.1.now))) }
    ensures missed { IfErr result (Misses (Both IsName IsShort) (with_word words.now (both_spelled (named 32) (ended 10))) text.now) }
{
    let rest = match after(text, words) {
        Ok(rest) => rest,
        Err(miss) => return Err(miss),
    };
    let (name, rest) = match name(rest, b' ') {
        Ok(found) => found,
        Err(miss) => return Err(miss),
    };
    match number(rest, b'\n') {
        Ok((number, rest)) => Ok((NamedNumber { name, number }, rest)),
        Err(miss) => Err(miss),
    }
}
