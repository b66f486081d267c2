//! The rows of the counter's gates, and the clauses of their order.
ghost use Rattle.std.specs.Prelude.{◌+◌, ◌^◌, ◌<◌, ◌≤◌, length, IsOk, OnOk, OnErr};
ghost use Rattle.border_counter.specs.Adding.{AddsAll, AddsFront, HasRoom};
ghost use Rattle.border_counter.specs.Counter.{row_clauses, gates_of, order_at, order_clauses};
ghost use Rattle.border_counter.specs.Fitting.{FitsCounter};

use crate::gates::{add_gate, at_least};
use sat_core::{Formula, Lit};
use std::alloc::AllocError;

/// Adds the gates of all rows.
pub(crate) fn add_gates(
    formula: &mut Formula,
    inputs: &[Lit],
    first_var: u32,
) -> Result<(), AllocError>
    requires fits { FitsCounter formula.old.vars inputs.now first_var }
    requires few { length inputs.now < 2 ^ 32 }
    requires numbered { length formula.old.clauses + length (gates_of inputs.now first_var (length inputs.now)) < 2 ^ 32 }
    ensures ok { OnOk result (AddsAll formula.old (gates_of inputs.now first_var (length inputs.now)) formula.new) }
    ensures err { OnErr result (AddsFront formula.old (gates_of inputs.now first_var (length inputs.now)) formula.new) }
    ensures within_room { HasRoom formula.old (gates_of inputs.now first_var (length inputs.now)) → IsOk result }
{
    for before in 0..inputs.len() as u32 {
        add_row(formula, inputs, first_var, before + 1)?;
    }
    Ok(())
}

// Adds the gates of one row.
fn add_row(
    formula: &mut Formula,
    inputs: &[Lit],
    first_var: u32,
    row: u32,
) -> Result<(), AllocError>
    requires fits { FitsCounter formula.old.vars inputs.now first_var }
    requires row { row ≤ length inputs.now }
    requires numbered { length formula.old.clauses + length (row_clauses inputs.now first_var row) < 2 ^ 32 }
    ensures ok { OnOk result (AddsAll formula.old (row_clauses inputs.now first_var row) formula.new) }
    ensures err { OnErr result (AddsFront formula.old (row_clauses inputs.now first_var row) formula.new) }
    ensures within_room { HasRoom formula.old (row_clauses inputs.now first_var row) → IsOk result }
{
    for before in 0..row {
        add_gate(formula, inputs, first_var, row, before + 1)?;
    }
    Ok(())
}

/// Adds the clauses of the order of the last row's variables.
pub(crate) fn add_order(
    formula: &mut Formula,
    inputs: &[Lit],
    first_var: u32,
) -> Result<(), AllocError>
    requires fits { FitsCounter formula.old.vars inputs.now first_var }
    requires few { length inputs.now < 2 ^ 32 }
    requires numbered { length formula.old.clauses + length (order_clauses first_var (length inputs.now)) < 2 ^ 32 }
    ensures ok { OnOk result (AddsAll formula.old (order_clauses first_var (length inputs.now)) formula.new) }
    ensures err { OnErr result (AddsFront formula.old (order_clauses first_var (length inputs.now)) formula.new) }
    ensures within_room { HasRoom formula.old (order_clauses first_var (length inputs.now)) → IsOk result }
{
    let count = inputs.len() as u32;
    for before in 0..count.saturating_sub(1) {
        add_order_at(formula, inputs, first_var, before + 1)?;
    }
    Ok(())
}

// Adds the clause that at least `place + 1` of all inputs are at least `place`.
fn add_order_at(
    formula: &mut Formula,
    inputs: &[Lit],
    first_var: u32,
    place: u32,
) -> Result<(), AllocError>
    requires fits { FitsCounter formula.old.vars inputs.now first_var }
    requires place { (1 ≤ place) × (place < length inputs.now) × (length inputs.now < 2 ^ 32) }
    requires numbered { length formula.old.clauses + length (order_at first_var (length inputs.now) place) < 2 ^ 32 }
    ensures ok { OnOk result (AddsAll formula.old (order_at first_var (length inputs.now) place) formula.new) }
    ensures err { OnErr result (AddsFront formula.old (order_at first_var (length inputs.now) place) formula.new) }
    ensures within_room { HasRoom formula.old (order_at first_var (length inputs.now) place) → IsOk result }
{
    let count = inputs.len() as u32;
    let more = at_least(first_var, count, place + 1);
    let fewer = at_least(first_var, count, place);
    formula.push_fixed([more.negated(), fewer])
}
