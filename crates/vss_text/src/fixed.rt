//! Fixed words and bytes at the front of a text.
ghost use Rattle.std.specs.Prelude.{◌≡◌, ◌≢◌, ◌<◌, ◌↔◌, ◌++◌, ℕ, List, slice_index, IfOk, IfErr, IsTrue};
ghost use Rattle.vss_text.specs.Reading.{MissesText};

use crate::miss::Miss;

/// What follows the word at the front of the text. Linear in the word.
#[inline(always)]
pub fn after<'a>(text: &'a [u8], word: &[u8]) -> Result<&'a [u8], Miss>
    ensures found { IfOk result (λ rest. text.now ≡ word.now ++ rest.now) }
    ensures missed { IfErr result (MissesText word.now text.now) }
{
    match text.strip_prefix(word) {
        Some(rest) => Ok(rest),
        None => Err(miss_of(text, word)),
    }
}

/// Whether the byte, which isn't 0, is the first of the text.
#[inline(always)]
pub fn begins_with(text: &[u8], byte: u8) -> bool
    requires { 0 < byte }
    ensures { IsTrue result ↔ (slice_index text.now 0 ≡ byte) }
{
    match text.first() {
        Some(first) => *first == byte,
        None => false,
    }
}

/// Why the text, which doesn't begin with the word, doesn't.
#[cold]
#[inline(never)]
fn miss_of(text: &[u8], word: &[u8]) -> Miss
    requires { (rest : List ℕ) → text.now ≢ word.now ++ rest }
    ensures { MissesText word.now text.now result }
{
    match word.strip_prefix(text) {
        Some(_) => Miss::Short,
        None => Miss::Wrong,
    }
}
