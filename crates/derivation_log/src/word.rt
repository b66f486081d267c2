//! The words of a step's lists.
ghost use Rattle.std.specs.Prelude.{◌≡◌, ◌≢◌, ℕ, List, ◌∷◌, ◌++◌, [], IfOk, IfErr, slice_index};
ghost use Rattle.vss_io.specs.Written.{PrintsAllBut};
ghost use Rattle.vss_text.specs.Reading.{Misses};
ghost use Rattle.derivation_log.specs.Text.{blanked};

use crate::number::{add_number, number};
use sat_core::{ClauseId, Lit, Var};
use vss_io::{LineBuf, Sink, SinkFault};
use vss_text::{Miss, begins_with};

/// A word of a list, which is read with the blank behind it.
pub(crate) trait Word: Sized + Drop {
    ghost use Rattle.std.specs.Prelude.{ℕ, List};

    ghost spelled: { Self → List ℕ };

    ghost in_range: { Self → Type 0 };

    /// The word at the front of the text, and what follows the blank behind it.
    fn read(text: &[u8]) -> Result<(Self, &[u8]), Miss>
        ensures in_range { IfOk result (λ found. in_range found.0) }
        ensures found { IfOk result (λ found. text.now ≡ spelled found.0 ++ 32 ∷ found.1.now) }
        ensures missed { IfErr result (Misses in_range (blanked spelled) text.now) };

    /// Adds the word and the blank behind it to a line.
    fn add<K: Sink>(&self, text: &mut LineBuf, out: &mut K) -> Result<(), SinkFault>
        ensures { PrintsAllBut (K.shown out.old) (K.shown out.new) text.new (text.old ++ (spelled self.now ++ 32 ∷ [])) result };

    // no word begins as the end of a list does, and no text begins with two words.
    ghost no_zero: { (word : Self) (rest : List ℕ) → in_range word → slice_index (spelled word ++ 32 ∷ rest) 0 ≢ 48 };

    ghost one_reading: { (one other : Self) (rest rest' : List ℕ) → in_range one → in_range other → spelled one ++ 32 ∷ rest ≡ spelled other ++ 32 ∷ rest' → (one ≡ other) × (rest ≡ rest') };
}

impl Word for ClauseId {
    ghost use Rattle.derivation_log.specs.Text.{number_text, IsLogNumber};
    ghost use Rattle.derivation_log.specs.WordLaws.{id_no_zero, id_one_reading};

    ghost spelled = { number_text };

    ghost in_range = { λ id. IsLogNumber id.0 };

    #[inline(always)]
    fn read(text: &[u8]) -> Result<(ClauseId, &[u8]), Miss> {
        match number(text) {
            Ok((value, rest)) => Ok((ClauseId(value), rest)),
            Err(miss) => Err(miss),
        }
    }

    fn add<K: Sink>(&self, text: &mut LineBuf, out: &mut K) -> Result<(), SinkFault> {
        add_number(self.0, text, out)
    }

    ghost no_zero = { id_no_zero };

    ghost one_reading = { id_one_reading };
}

impl Word for Lit {
    ghost use Rattle.derivation_log.specs.Text.{literal_text, IsLogNumber};
    ghost use Rattle.derivation_log.specs.WordLaws.{literal_no_zero, literal_one_reading};

    ghost spelled = { literal_text };

    ghost in_range = { λ lit. IsLogNumber lit.var.0 };

    #[inline(always)]
    fn read(text: &[u8]) -> Result<(Lit, &[u8]), Miss> {
        if begins_with(text, b'-') {
            return match number(&text[1..]) {
                Ok((value, rest)) => Ok((literal(value, false), rest)),
                Err(miss) => Err(miss),
            };
        }
        match number(text) {
            Ok((value, rest)) => Ok((literal(value, true), rest)),
            Err(miss) => Err(miss),
        }
    }

    fn add<K: Sink>(&self, text: &mut LineBuf, out: &mut K) -> Result<(), SinkFault> {
        if self.positive {
            return add_number(self.var.0, text, out);
        }
        text.add(b"-", out)?;
        add_number(self.var.0, text, out)
    }

    ghost no_zero = { literal_no_zero };

    ghost one_reading = { literal_one_reading };
}

fn literal(variable: u32, positive: bool) -> Lit
    ensures var { result.var.0 ≡ variable }
    ensures sign { result.positive ≡ positive }
{
    Lit {
        var: Var(variable),
        positive,
    }
}
