//! Dropping all of several clauses, or none.

ghost use Rattle.std.specs.Prelude.{◌≡◌, ◌+◌, [], ◌∷◌, OnOk, OnErr, IfErr, length};
ghost use Rattle.log_checker.specs.Stored.{AscendsTo};
ghost use Rattle.log_checker.specs.Drops.{IsLiveNumber, CanDrop, DropsAlso, Revives, SameDrops};

use crate::dropped::Dropped;
use crate::numbers::place_of;
use sat_core::{ClauseId, StepFault};

/// Drops the clauses with these numbers, where the log's clauses have `numbers`, which end with `last`. After a fault
/// none of them is dropped.
pub(crate) fn drop_all(
    numbers: &[ClauseId],
    last: u32,
    dropped: &mut Dropped,
    ids: &[ClauseId],
) -> Result<(), StepFault>
    requires ascending { AscendsTo dropped.old.own numbers.now last }
    requires all_flags { dropped.old.own + length numbers.now ≡ length dropped.old.flags.items }
    ensures can { OnOk result (CanDrop numbers.now dropped.old ids.now) }
    ensures drops { OnOk result (DropsAlso numbers.now dropped.old dropped.new ids.now) }
    ensures cannot { OnErr result (¬ CanDrop numbers.now dropped.old ids.now) }
    ensures fault { IfErr result (λ fault. fault ≡ StepFault.UnknownClause) }
    ensures same { OnErr result (SameDrops dropped.old dropped.new) }
{
    for (count, id) in ids.iter().enumerate() {
        match drop_one(numbers, last, dropped, *id) {
            Ok(()) => {}
            Err(fault) => {
                revive_all(numbers, last, dropped, &ids[..count]);
                return Err(fault);
            }
        }
    }
    Ok(())
}

/// Drops the clause with that number, if it is live.
fn drop_one(
    numbers: &[ClauseId],
    last: u32,
    dropped: &mut Dropped,
    id: ClauseId,
) -> Result<(), StepFault>
    requires ascending { AscendsTo dropped.old.own numbers.now last }
    requires all_flags { dropped.old.own + length numbers.now ≡ length dropped.old.flags.items }
    ensures was_live { OnOk result (IsLiveNumber numbers.now dropped.old id) }
    ensures drops { OnOk result (DropsAlso numbers.now dropped.old dropped.new (id ∷ [])) }
    ensures not_live { OnErr result (¬ IsLiveNumber numbers.now dropped.old id) }
    ensures fault { IfErr result (λ fault. fault ≡ StepFault.UnknownClause) }
    ensures same { OnErr result (SameDrops dropped.old dropped.new) }
{
    match place_of(dropped.own, numbers, last, id) {
        None => Err(StepFault::UnknownClause),
        Some(place) => {
            if dropped.contains(place) {
                return Err(StepFault::UnknownClause);
            }
            dropped.insert(place);
            Ok(())
        }
    }
}

/// Makes the clauses with these numbers live again.
fn revive_all(numbers: &[ClauseId], last: u32, dropped: &mut Dropped, ids: &[ClauseId])
    requires ascending { AscendsTo dropped.old.own numbers.now last }
    requires all_flags { dropped.old.own + length numbers.now ≡ length dropped.old.flags.items }
    ensures { Revives numbers.now dropped.old dropped.new ids.now }
{
    for id in ids {
        revive_one(numbers, last, dropped, *id);
    }
}

/// Makes the clause with that number live again, if there is one.
fn revive_one(numbers: &[ClauseId], last: u32, dropped: &mut Dropped, id: ClauseId)
    requires ascending { AscendsTo dropped.old.own numbers.now last }
    requires all_flags { dropped.old.own + length numbers.now ≡ length dropped.old.flags.items }
    ensures { Revives numbers.now dropped.old dropped.new (id ∷ []) }
{
    match place_of(dropped.own, numbers, last, id) {
        None => {}
        Some(place) => dropped.remove(place),
    }
}
