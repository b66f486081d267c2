//! Clauses that are written for each of some numbers, and the loops over these.
ghost use Rattle.std.specs.Prelude.{ℕ, ◌<◌, ◌≤◌, List, OnOk, IfErr, length, slice_index};
ghost use Rattle.std.specs.List.{flat_map};
ghost use Rattle.sat_core.specs.declared.literal.Lit.{Lit};
ghost use Rattle.clause_list.specs.Ranges.{from_below};
ghost use Rattle.clause_encoder.specs.Writing.{AreClauses, Takes, IsCause};

use crate::writer::{ClauseWriter, WriteFault};

/// Clauses that are written for each of some numbers.
pub trait Part {
    ghost clauses: { Self → ℕ → List (List Lit) };
    // it can write those of the item at a place
    ghost fits: { Self → ℕ → ℕ → Type 0 };

    /// Writes the clauses of the item, which stands at that place in a list.
    fn write(&self, place: usize, item: u32, writer: &mut ClauseWriter) -> Result<(), WriteFault>
        requires fits { fits self.now place item }
        requires clauses { AreClauses writer.old.vars (clauses self.now item) }
        ensures ok { OnOk result (Takes writer.old (clauses self.now item) writer.new) }
        ensures err { IfErr result (IsCause writer.old (clauses self.now item)) };
}

/// Writes the clauses of each item in turn.
pub fn write_each<P: Part>(
    part: &P,
    items: &[u32],
    writer: &mut ClauseWriter,
) -> Result<(), WriteFault>
    requires fits { (k : ℕ) → k < length items.now → P.fits part.now k (slice_index items.now k) }
    requires clauses { AreClauses writer.old.vars (flat_map (P.clauses part.now) items.now) }
    ensures ok { OnOk result (Takes writer.old (flat_map (P.clauses part.now) items.now) writer.new) }
    ensures err { IfErr result (IsCause writer.old (flat_map (P.clauses part.now) items.now)) }
{
    for place in 0..items.len() {
        match part.write(place, items[place], writer) {
            Ok(()) => {}
            Err(fault) => return Err(fault),
        }
    }
    Ok(())
}

/// Writes the clauses of each number of a range in turn.
pub fn write_range<P: Part>(
    part: &P,
    from: u32,
    end: u32,
    writer: &mut ClauseWriter,
) -> Result<(), WriteFault>
    requires fits { (k : ℕ) → from ≤ k → k < end → P.fits part.now k k }
    requires clauses { AreClauses writer.old.vars (flat_map (P.clauses part.now) (from_below from end)) }
    ensures ok { OnOk result (Takes writer.old (flat_map (P.clauses part.now) (from_below from end)) writer.new) }
    ensures err { IfErr result (IsCause writer.old (flat_map (P.clauses part.now) (from_below from end))) }
{
    for number in from..end {
        match part.write(number as usize, number, writer) {
            Ok(()) => {}
            Err(fault) => return Err(fault),
        }
    }
    Ok(())
}
