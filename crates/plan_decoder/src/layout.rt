//! The borders that stand.
ghost use Rattle.std.specs.Prelude.{◌≡◌, ◌+◌, ◌<◌, length, IfOk, OnOk};
ghost use Rattle.plan_laws.specs.Telling.{told_layout};

use crate::values::value_of;
use cell_net::{CandidateId, Instance, Layout, layout_refusals_are_exclusive};
use clause_encoder::VarMap;
use std::alloc::{AllocError, Global};

/// The layout of the candidates whose variable is true.
pub(crate) fn layout_of(
    alloc: Global,
    inst: &Instance,
    values: &[bool],
    map: &VarMap,
) -> Result<Layout, AllocError>
    requires { map.now.candidates ≡ length inst.now.candidates }
    ensures { IfOk result (λ layout. layout ≡ told_layout values.now (length inst.now.candidates)) }
{
    // the candidates are few enough for numbers of 32 bits
    let _count = inst.candidate_count();
    let borders = borders_of(alloc, values, map)?;
    layout_refusals_are_exclusive();
    match Layout::new(inst, borders) {
        Ok(layout) => Ok(layout),
        Err(_) => unreachable!(),
    }
}

/// The candidates whose variable is true, rising.
fn borders_of(alloc: Global, values: &[bool], map: &VarMap) -> Result<Vec<CandidateId>, AllocError>
    ensures { IfOk result (λ borders. borders.items ≡ told_layout values.now map.now.candidates) }
{
    let mut borders = Vec::new(alloc);
    for number in 0..map.candidate_count() {
        push_if_standing(values, map, CandidateId(number), &mut borders)?;
    }
    Ok(borders)
}

/// Appends the candidate, if its variable is true.
fn push_if_standing(
    values: &[bool],
    map: &VarMap,
    candidate: CandidateId,
    borders: &mut Vec<CandidateId>,
) -> Result<(), AllocError>
    requires candidate { candidate.0 < map.now.candidates }
    requires so_far { borders.old.items ≡ told_layout values.now candidate.0 }
    ensures { OnOk result (borders.new.items ≡ told_layout values.now (candidate.0 + 1)) }
{
    if value_of(values, map.border(candidate).0) {
        borders.push(candidate)?;
    }
    Ok(())
}
