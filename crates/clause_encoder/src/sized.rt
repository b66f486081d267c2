//! A list of clauses is counted before one of them is kept.
ghost use Rattle.std.specs.Prelude.{◌≡◌, ◌≤◌, ◌+◌, ℕ, List, cond, length, OnOk, IfOk, IfErr};
ghost use Rattle.sat_core.specs.declared.literal.Lit.{Lit};
ghost use Rattle.clause_encoder.specs.declared.limits.TheConstants.{CLAUSES, LITERALS};
ghost use Rattle.clause_encoder.specs.Writing.{Takes, IsCause, literal_count};
ghost use Rattle.clause_encoder.specs.Sizes.{HasFewClauses, IsSizeRefusal};

use crate::limits::{CLAUSES, LITERALS};
use crate::task::EncodeRefusal;
use crate::writer::{ClauseWriter, WriteFault};
use sat_core::Formula;
use std::alloc::Global;

/// A list of clauses that is written whole: once to be counted, once to be kept. The clauses that are counted may be fewer.
pub(crate) trait Listing {
    ghost counted: { Self → List (List Lit) };

    ghost kept: { Self → List (List Lit) };
    // it can be written over so many variables
    ghost fits: { Self → ℕ → Type 0 };

    /// Writes the clauses that are kept, or those that are counted.
    fn write(&self, keeps: bool, writer: &mut ClauseWriter) -> Result<(), WriteFault>
        requires { fits self.now writer.old.vars }
        ensures ok { OnOk result (Takes writer.old (cond keeps (kept self.now) (counted self.now)) writer.new) }
        ensures err { IfErr result (IsCause writer.old (cond keeps (kept self.now) (counted self.now))) };
}

/// The formula of the clauses that are kept, if there are few enough of those that are counted and so many units: these are
/// counted first, up to the first one too many. Then room is reserved, and each clause is put into it.
pub(crate) fn sized<L: Listing>(
    alloc: Global,
    list: &L,
    vars: u32,
    units: u32,
) -> Result<Formula, EncodeRefusal>
    requires fits { L.fits list.now vars }
    requires units { units ≤ 1 }
    ensures vars { IfOk result (λ f. f.vars ≡ vars) }
    ensures clauses { IfOk result (λ f. f.clauses ≡ L.kept list.now) }
    ensures few { IfOk result (λ f. HasFewClauses (L.counted list.now) units) }
    ensures refusal { IfErr result (IsSizeRefusal (L.counted list.now) units) }
{
    let (clauses, lits) = match count_all(alloc, list, vars, units) {
        Ok(sizes) => sizes,
        Err(refusal) => return Err(refusal),
    };
    let mut writer = match ClauseWriter::new(alloc, vars, clauses, lits, true) {
        Ok(writer) => writer,
        Err(_) => return Err(EncodeRefusal::Memory),
    };
    match list.write(true, &mut writer) {
        Ok(()) => Ok(writer.into_formula()),
        Err(_) => Err(EncodeRefusal::Memory),
    }
}

// The numbers of clauses and literals with the units, if both are within the limits.
#[tactic(auto, unfolding(crate::specs::Writing::IsCause))]
fn count_all<L: Listing>(
    alloc: Global,
    list: &L,
    vars: u32,
    units: u32,
) -> Result<(u32, u64), EncodeRefusal>
    requires fits { L.fits list.now vars }
    requires units { units ≤ 1 }
    ensures sizes { IfOk result (λ sizes. (sizes.0 ≡ length (L.counted list.now) + units) × (sizes.1 ≡ literal_count (L.counted list.now) + units)) }
    ensures few { IfOk result (λ sizes. HasFewClauses (L.counted list.now) units) }
    ensures refusal { IfErr result (IsSizeRefusal (L.counted list.now) units) }
{
    let mut counter = match ClauseWriter::new(alloc, vars, CLAUSES - units, 0, false) {
        Ok(counter) => counter,
        Err(_) => return Err(EncodeRefusal::Memory),
    };
    match list.write(false, &mut counter) {
        Ok(()) => {}
        Err(WriteFault::Full) => return Err(EncodeRefusal::TooManyClauses),
        Err(WriteFault::Memory) => return Err(EncodeRefusal::Memory),
    }
    let most = LITERALS - u64::from(units);
    if counter.literal_count() > most {
        return Err(EncodeRefusal::TooManyLiterals);
    }
    Ok((
        counter.clause_count() + units,
        counter.literal_count() + u64::from(units),
    ))
}
