//! The lists of a step: tested without memory, then read with room for their words.
ghost use Rattle.std.specs.Prelude.{◌≡◌, ◌++◌, All, IfOk, IfErr};
ghost use Rattle.vss_text.specs.Reading.{Misses};
ghost use Rattle.derivation_log.specs.Text.{list_text};
ghost use Rattle.derivation_log.specs.Tested.{IsList, IsListOf};

use crate::word::Word;
use std::alloc::{AllocError, Global};
use vss_lists::Items;
use vss_text::Miss;

/// The text of a list that is well formed, up to the 0 behind its words, and how many words it has.
#[derive(Clone, Copy, Debug)]
pub struct ListText<'a> {
    pub(crate) text: &'a [u8],
    pub(crate) count: usize,
}

/// The list at the front of the text, and what follows the 0 behind its words. One pass.
#[inline(always)]
pub(crate) fn test_list<W: Word>(text: &[u8]) -> Result<(ListText<'_>, &[u8]), Miss>
    ensures list { IfOk result (λ found. IsList W.spelled W.in_range found.0) }
    ensures found { IfOk result (λ found. text.now ≡ found.0.text.now ++ found.1.now) }
    ensures missed { IfErr result (Misses (All W.in_range) (list_text W.spelled) text.now) }
{
    let mut count = 0;
    let mut rest = text;
    while !rest.is_empty() {
        if rest[0] == b'0' {
            let (text, rest) = text.split_at(text.len() - rest.len() + 1);
            return Ok((ListText { text, count }, rest));
        }
        match W::read(rest) {
            Ok((_, after)) => {
                rest = after;
                count += 1;
            }
            Err(miss) => return Err(miss),
        }
    }
    Err(Miss::Short)
}

/// The words of the list. Takes room for just them.
pub(crate) fn read_list<W: Word>(alloc: Global, list: &ListText<'_>) -> Result<Items<W>, AllocError>
    requires { IsList W.spelled W.in_range list.now }
    ensures { IfOk result (λ words. All W.in_range words × IsListOf W.spelled list.now words) }
{
    let mut words = Vec::with_capacity(alloc, list.count)?;
    let mut rest = list.text;
    for _ in 0..list.count {
        match W::read(rest) {
            Ok((word, after)) => {
                words.push(word)?;
                rest = after;
            }
            Err(_) => unreachable!(),
        }
    }
    Ok(Items::from_vec(words))
}
