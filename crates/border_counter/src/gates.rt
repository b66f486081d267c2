//! One gate of the counter.
ghost use Rattle.std.specs.Prelude.{◌≡◌, ◌+◌, ◌^◌, ◌<◌, ◌≤◌, length, IsOk, OnOk, OnErr};
ghost use Rattle.border_counter.specs.Adding.{AddsAll, AddsFront, HasRoom};
ghost use Rattle.border_counter.specs.Counter.{at_least_var, at_least_lit, gate_at};
ghost use Rattle.border_counter.specs.Fitting.{FitsCounter};

use gate_tables::{and2, cell, emit, eq, or2};
use sat_core::{Formula, Lit, Var};
use std::alloc::AllocError;

/// Adds the gate of that row and place, both counted from 1.
pub(crate) fn add_gate(
    formula: &mut Formula,
    inputs: &[Lit],
    first_var: u32,
    row: u32,
    place: u32,
) -> Result<(), AllocError>
    requires fits { FitsCounter formula.old.vars inputs.now first_var }
    requires row { (1 ≤ place) × (place ≤ row) × (row ≤ length inputs.now) }
    requires numbered { length formula.old.clauses + length (gate_at inputs.now first_var row place) < 2 ^ 32 }
    ensures ok { OnOk result (AddsAll formula.old (gate_at inputs.now first_var row place) formula.new) }
    ensures err { OnErr result (AddsFront formula.old (gate_at inputs.now first_var row place) formula.new) }
    ensures within_room { HasRoom formula.old (gate_at inputs.now first_var row place) → IsOk result }
{
    let x = inputs[row as usize - 1];
    let s = at_least(first_var, row, place);
    if row == 1 {
        return emit(&eq(), &[x], s, formula);
    }
    if place == 1 {
        let p = at_least(first_var, row - 1, place);
        return emit(&or2(), &[p, x], s, formula);
    }
    let q = at_least(first_var, row - 1, place - 1);
    if place == row {
        return emit(&and2(), &[x, q], s, formula);
    }
    let p = at_least(first_var, row - 1, place);
    emit(&cell(), &[p, x, q], s, formula)
}

/// The literal that at least `place` of the first `row` inputs are true, where the counter's variables begin at
/// `first_var`.
pub(crate) fn at_least(first_var: u32, row: u32, place: u32) -> Lit
    requires row { (1 ≤ place) × (place ≤ row) }
    requires within { at_least_var first_var row place < 2 ^ 32 }
    ensures { result ≡ at_least_lit first_var row place }
{
    let before = u64::from(row - 1) * u64::from(row) / 2;
    Lit {
        var: Var((u64::from(first_var) + before + u64::from(place - 1)) as u32),
        positive: true,
    }
}
