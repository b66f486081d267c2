//! The units of falling bounds: what a solver is given, and how each earlier one follows from the last.
ghost use Rattle.std.specs.Prelude.{◌≡◌, ◌<◌, ◌≤◌, ◌+◌, ◌-◌, ◌^◌, ◌++◌, ◌∷◌, [], true, All, IfOk, OnOk, length, map};
ghost use Rattle.border_counter.specs.Counter.{not_at_least_lit};
ghost use Rattle.sat_core.specs.Clauses.{IsOver};
ghost use Rattle.sat_core.specs.Search.{gives, units_of};
ghost use Rattle.solver_face.specs.Solving.{IsSound, numbers_used};
ghost use Rattle.task_driver.specs.BoundUnits.{mark_in};

use clause_encoder::VarMap;
use log_rebase::UnitMark;
use sat_core::{ClauseId, Lit};
use solver_face::Solver;
use std::alloc::{AllocError, Global};
use vss_lists::Items;

/// A bound whose unit a solver was given, and the number that the unit took.
#[derive(Clone, Copy, Debug, PartialEq, Eq)]
pub(crate) struct BoundUnit {
    pub(crate) most: u32,
    pub(crate) id: ClauseId,
}

/// The literal that no more borders than these stand.
pub(crate) fn unit_of(var_map: &VarMap, most: u32) -> Lit
    requires counts { var_map.now.counts ≡ true }
    requires below { most < var_map.now.candidates }
    ensures { result ≡ not_at_least_lit var_map.now.first_of_count var_map.now.candidates (most + 1) }
{
    // for the proof alone: there are few candidates
    let _count = var_map.candidate_count();
    let lit = var_map.at_least(most + 1);
    Lit {
        var: lit.var,
        positive: false,
    }
}

/// Gives the solver the unit of a bound, and tells the number that it took: the next behind the formula of so many clauses,
/// the units so far and the clauses that were learned.
pub(crate) fn give<S: Solver>(
    var_map: &VarMap,
    clauses: u32,
    units: usize,
    most: u32,
    solver: &mut S,
) -> Result<BoundUnit, AllocError>
    requires counts { var_map.now.counts ≡ true }
    requires below { most < var_map.now.candidates }
    requires over { IsOver (S.solving solver.old).vars (not_at_least_lit var_map.now.first_of_count var_map.now.candidates (most + 1)) }
    requires clauses { clauses ≡ length (S.solving solver.old).formula }
    requires units { units ≡ length (units_of (S.solving solver.old).events) }
    requires numbered { numbers_used (S.solving solver.old) < 2 ^ 32 - 1 }
    ensures most { IfOk result (λ unit. unit.most ≡ most) }
    ensures id { IfOk result (λ unit. unit.id.0 ≡ numbers_used (S.solving solver.old) + 1) }
    ensures vars { (S.solving solver.new).vars ≡ (S.solving solver.old).vars }
    ensures formula { (S.solving solver.new).formula ≡ (S.solving solver.old).formula }
    ensures events { OnOk result ((S.solving solver.new).events ≡ (S.solving solver.old).events ++ gives (not_at_least_lit var_map.now.first_of_count var_map.now.candidates (most + 1)) ∷ []) }
    ensures numbers { OnOk result (numbers_used (S.solving solver.new) ≡ numbers_used (S.solving solver.old) + 1) }
    ensures sound { IsSound (S.solving solver.new) }
{
    let id = ClauseId(clauses + units as u32 + solver.conflicts() + 1);
    solver.add_unit(unit_of(var_map, most))?;
    Ok(BoundUnit { most, id })
}

/// The units as the rebasing of logs takes them, in their order: each with hints that derive it from the last one, by the
/// clauses of the counter's order between them.
pub(crate) fn marks_of(
    alloc: Global,
    var_map: &VarMap,
    clauses: u32,
    last: u32,
    units: &[BoundUnit],
) -> Result<Vec<UnitMark>, AllocError>
    requires counts { var_map.now.counts ≡ true }
    requires clauses { clauses < 2 ^ 32 - 1 }
    requires between { All (λ unit. (last ≤ unit.most) × (unit.most < var_map.now.candidates)) units.now }
    ensures { IfOk result (λ marks. marks.items ≡ map (mark_in var_map.now clauses last) units.now) }
{
    let mut marks = Vec::with_capacity(alloc, units.len())?;
    for unit in units {
        marks.push(mark_of(alloc, var_map, clauses, last, *unit)?)?;
    }
    Ok(marks)
}

fn mark_of(
    alloc: Global,
    var_map: &VarMap,
    clauses: u32,
    last: u32,
    unit: BoundUnit,
) -> Result<UnitMark, AllocError>
    requires counts { var_map.now.counts ≡ true }
    requires clauses { clauses < 2 ^ 32 - 1 }
    requires after { last ≤ unit.most }
    requires below { unit.most < var_map.now.candidates }
    ensures { IfOk result (λ mark. mark ≡ mark_in var_map.now clauses last unit) }
{
    let mut hints = Vec::new(alloc);
    for step in 0..unit.most - last {
        hints.push(var_map.order_clause(unit.most - step))?;
    }
    hints.push(ClauseId(clauses + 1))?;
    Ok(UnitMark {
        id: unit.id,
        lit: unit_of(var_map, unit.most),
        hints: Items::from_vec(hints),
    })
}
