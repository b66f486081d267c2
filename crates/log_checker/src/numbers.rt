//! The places of clauses by their numbers.

ghost use Rattle.std.specs.Prelude.{◌≡◌, ◌≢◌, ℕ, ◌+◌, ◌<◌, length, IfSome, IfNone, AllPairs, slice_index_or};
ghost use Rattle.sat_core.specs.declared.literal.ClauseId.{ClauseId};
ghost use Rattle.log_checker.specs.Stored.{number_at, AscendsTo};

use sat_core::ClauseId;

/// The place of the clause with that number. The formula's own clauses have the numbers 1 to `own`; those of the log
/// have `numbers`, which end with `last`. Takes constant time where the log's numbers run without gaps, and else a search.
#[tactic(auto, using(crate::proofs::NumberLemmas::number_laws))]
pub(crate) fn place_of(own: usize, numbers: &[ClauseId], last: u32, id: ClauseId) -> Option<usize>
    requires { AscendsTo own numbers.now last }
    ensures found { IfSome result (λ place. (place < own + length numbers.now) × (number_at own numbers.now place ≡ id.0)) }
    ensures missing { IfNone result ((place : ℕ) → place < own + length numbers.now → number_at own numbers.now place ≢ id.0) }
{
    let number = id.0 as usize;
    if number <= own {
        return if number == 0 { None } else { Some(number - 1) };
    }
    let guess = number - own - 1;
    if guess < numbers.len() && numbers[guess].0 == id.0 {
        return Some(own + guess);
    }
    search(numbers, id).map(|behind| own + behind)
}

/// Where the number stands among numbers that ascend.
fn search(numbers: &[ClauseId], id: ClauseId) -> Option<usize>
    requires { AllPairs (λ one later. one.0 < later.0) numbers.now }
    ensures found { IfSome result (λ place. (place < length numbers.now) × ((d : ClauseId) → (slice_index_or numbers.now place d).0 ≡ id.0)) }
    ensures missing { IfNone result ((place : ℕ) (d : ClauseId) → place < length numbers.now → (slice_index_or numbers.now place d).0 ≢ id.0) }
{
    let mut low = 0;
    let mut high = numbers.len();
    while low < high {
        let middle = low + (high - low) / 2;
        if numbers[middle].0 < id.0 {
            low = middle + 1;
        } else {
            high = middle;
        }
    }
    if low < numbers.len() && numbers[low].0 == id.0 {
        Some(low)
    } else {
        None
    }
}
