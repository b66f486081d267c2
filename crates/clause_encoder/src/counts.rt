//! The counter of borders, and how many of them stand at most.
ghost use Rattle.std.specs.Prelude.{◌≡◌, ◌<◌, ◌≤◌, ◌+◌, OnOk, IfOk, IfErr};
ghost use Rattle.border_counter.specs.Counter.{sum_to, at_least_var, counter_clauses};
ghost use Rattle.clause_list.specs.BorderClauses.{border_lits, most_clauses};
ghost use Rattle.clause_encoder.specs.Writing.{AreClauses, Takes, IsCause};

use crate::literals::{is, is_not};
use crate::writer::{ClauseWriter, WriteFault};
use sat_core::Lit;
use std::alloc::{AllocError, Global};

/// Writes the counter of so many borders, whose variables are the numbers from `first` on.
pub(crate) fn write_count(
    alloc: Global,
    candidates: u32,
    first: u32,
    writer: &mut ClauseWriter,
) -> Result<(), WriteFault>
    requires few { candidates ≤ 512 }
    requires behind { candidates < first }
    requires variables { first + sum_to candidates ≤ writer.old.vars + 1 }
    ensures ok { OnOk result (Takes writer.old (counter_clauses (border_lits candidates) first candidates) writer.new) }
    ensures err { IfErr result (IsCause writer.old (counter_clauses (border_lits candidates) first candidates)) }
{
    match borders_of(alloc, candidates) {
        Ok(borders) => writer.take_counter(&borders, first),
        Err(_) => Err(WriteFault::Memory),
    }
}

// The borders of so many candidates.
fn borders_of(alloc: Global, candidates: u32) -> Result<Vec<Lit>, AllocError>
    requires { candidates ≤ 512 }
    ensures { IfOk result (λ borders. borders.items ≡ border_lits candidates) }
{
    let mut borders = Vec::new(alloc);
    for candidate in 0..candidates {
        borders.push(is(candidate + 1))?;
    }
    Ok(borders)
}

/// Writes that no more borders stand than the bound, where `above` is the variable that tells that more do.
pub(crate) fn write_most(
    first: u32,
    candidates: u32,
    bound: u32,
    above: u32,
    writer: &mut ClauseWriter,
) -> Result<(), WriteFault>
    requires number { bound < candidates → above ≡ at_least_var first candidates (bound + 1) }
    requires clauses { AreClauses writer.old.vars (most_clauses first candidates bound) }
    ensures ok { OnOk result (Takes writer.old (most_clauses first candidates bound) writer.new) }
    ensures err { IfErr result (IsCause writer.old (most_clauses first candidates bound)) }
{
    if bound < candidates {
        writer.take(&[is_not(above)])
    } else {
        Ok(())
    }
}
