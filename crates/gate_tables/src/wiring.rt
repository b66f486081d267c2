//! A gate's clauses in a formula, over the literals at its pins.
ghost use Rattle.std.specs.Prelude.{◌≡◌, ◌+◌, ◌^◌, ◌<◌, ◌≤◌, ◌↔◌, ◌++◌, ◌∷◌, [], Bool, false, List, length, map, sum_by, slice_index_or, IsOk, IsTrue, OnOk, OnErr, take, ◌-◌};
ghost use Rattle.sat_core.specs.Clauses.{IsClause, SatisfiesAll};
ghost use Rattle.gate_tables.specs.Rows.{row_of};
ghost use Rattle.gate_tables.specs.Gates.{clauses_of, lits_of, is_sound, is_gate_clause};
ghost use Rattle.gate_tables.specs.Wiring.{is_true_in, at_pin, wired, GainsFront};

use crate::gate::{Gate, GateClause, GateLit};
use sat_core::{Formula, Lit, Var};
use std::alloc::AllocError;

/// Adds the gate's clauses over these inputs and this output, in order. In each valuation they are satisfied exactly
/// where the output is the value of the row that the inputs are. Linear in the clauses; can't fail within the formula's
/// room. After want of memory the formula keeps some of the first of these clauses.
pub fn emit<const IN: usize, const ROWS: usize, const CLAUSES: usize>(
    gate: &Gate<IN, ROWS, CLAUSES>,
    inputs: &[Lit; IN],
    out: Lit,
    formula: &mut Formula,
) -> Result<(), AllocError>
    requires sound { IsTrue (is_sound IN gate.now.rows gate.now.clauses) }
    requires pins { IsClause formula.old.vars (inputs.now ++ out ∷ []) }
    requires numbered { length formula.old.clauses + CLAUSES < 2 ^ 32 }
    ensures vars { formula.new.vars ≡ formula.old.vars }
    ensures ok { OnOk result (formula.new.clauses ≡ formula.old.clauses ++ wired (inputs.now ++ out ∷ []) (clauses_of gate.now.clauses)) }
    ensures err { OnErr result (GainsFront formula.old.clauses (wired (inputs.now ++ out ∷ []) (clauses_of gate.now.clauses)) formula.new.clauses) }
    ensures within_room { CLAUSES ≤ formula.old.spare_clauses → sum_by length (clauses_of gate.now.clauses) ≤ formula.old.spare_lits → IsOk result }
    ensures room_for_clauses { formula.old.spare_clauses ≤ formula.new.spare_clauses + CLAUSES }
    ensures room_for_lits { formula.old.spare_lits ≤ formula.new.spare_lits + sum_by length (clauses_of gate.now.clauses) }
    ensures meaning { (values : List Bool) → length values ≡ formula.old.vars → SatisfiesAll values (wired (inputs.now ++ out ∷ []) (clauses_of gate.now.clauses)) ↔ (is_true_in values out ≡ slice_index_or gate.now.rows (row_of (map (is_true_in values) inputs.now)) false) }
{
    for clause in &gate.clauses {
        push_clause(clause, inputs, out, formula)?;
    }
    Ok(())
}

// Appends one clause, as `push` does.
fn push_clause(
    clause: &GateClause,
    inputs: &[Lit],
    out: Lit,
    formula: &mut Formula,
) -> Result<(), AllocError>
    requires clause { IsTrue (is_gate_clause (length inputs.now) clause.now) }
    requires pins { IsClause formula.old.vars (inputs.now ++ out ∷ []) }
    requires numbered { length formula.old.clauses < 2 ^ 32 - 1 }
    ensures vars { formula.new.vars ≡ formula.old.vars }
    ensures ok { OnOk result (formula.new.clauses ≡ formula.old.clauses ++ map (at_pin (inputs.now ++ out ∷ [])) (lits_of clause.now) ∷ []) }
    ensures err { OnErr result (formula.new.clauses ≡ formula.old.clauses) }
    ensures within_room { 1 ≤ formula.old.spare_clauses → length (lits_of clause.now) ≤ formula.old.spare_lits → IsOk result }
    ensures room_for_clauses { formula.old.spare_clauses ≤ formula.new.spare_clauses + 1 }
    ensures room_for_lits { formula.old.spare_lits ≤ formula.new.spare_lits + length (lits_of clause.now) }
{
    let len = clause.len as usize;
    let lits = wired_lits(clause, inputs, out);
    formula.push(&lits[..len])
}

// The literals at the clause's pins, and `out` in the places that it doesn't use.
fn wired_lits(clause: &GateClause, inputs: &[Lit], out: Lit) -> [Lit; 4]
    requires { IsTrue (is_gate_clause (length inputs.now) clause.now) }
    ensures { take clause.now.len result ≡ map (at_pin (inputs.now ++ out ∷ [])) (lits_of clause.now) }
{
    let mut lits = [out; 4];
    for place in 0..clause.len as usize {
        lits[place] = lit_at(clause.lits[place], inputs, out);
    }
    lits
}

// The literal at the pin, or its negation.
fn lit_at(lit: GateLit, inputs: &[Lit], out: Lit) -> Lit
    requires { lit.pin ≤ length inputs.now }
    ensures { result ≡ at_pin (inputs.now ++ out ∷ []) lit }
{
    let pin = lit.pin as usize;
    let at = if pin < inputs.len() { inputs[pin] } else { out };
    if lit.positive { at } else { at.negated() }
}
