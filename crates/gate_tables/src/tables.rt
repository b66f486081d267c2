//! The gates of the border counter. Their inputs are called p, x, q, as far as they occur and in this order, and their
//! output s.
ghost use Rattle.std.specs.Prelude.{◌≡◌, IsTrue};
ghost use Rattle.gate_tables.specs.Gates.{clauses_of, is_sound, eq_rows, eq_clauses, or2_rows, or2_clauses, and2_rows, and2_clauses, cell_rows, cell_clauses};

use crate::gate::{Gate, GateClause, GateLit};

// Fills a clause's unused places.
const UNUSED: GateLit = GateLit {
    pin: 0,
    positive: false,
};

// A gate of its rows and its clauses, each a list of pins with their signs.
macro_rules! gate_rows {
    (rows $($row:literal)*; clauses $([$($lits:tt)*])*) => {
        Gate {
            rows: [$($row),*],
            clauses: [$(gate_rows!(@clause $($lits)*)),*],
        }
    };
    (@clause $s0:tt $p0:tt $s1:tt $p1:tt) => {
        GateClause {
            lits: [gate_rows!(@lit $s0 $p0), gate_rows!(@lit $s1 $p1), UNUSED, UNUSED],
            len: 2,
        }
    };
    (@clause $s0:tt $p0:tt $s1:tt $p1:tt $s2:tt $p2:tt) => {
        GateClause {
            lits: [gate_rows!(@lit $s0 $p0), gate_rows!(@lit $s1 $p1), gate_rows!(@lit $s2 $p2), UNUSED],
            len: 3,
        }
    };
    (@lit + $pin:tt) => { GateLit { pin: $pin, positive: true } };
    (@lit - $pin:tt) => { GateLit { pin: $pin, positive: false } };
}

/// s is x.
pub fn eq() -> Gate<1, 2, 2>
    ensures rows { result.rows ≡ eq_rows }
    ensures clauses { clauses_of result.clauses ≡ eq_clauses }
    ensures sound { IsTrue (is_sound 1 result.rows result.clauses) }
{
    gate_rows!(rows false true; clauses [-0 +1] [-1 +0])
}

/// s is p or x.
pub fn or2() -> Gate<2, 4, 3>
    ensures rows { result.rows ≡ or2_rows }
    ensures clauses { clauses_of result.clauses ≡ or2_clauses }
    ensures sound { IsTrue (is_sound 2 result.rows result.clauses) }
{
    gate_rows!(rows false true true true; clauses [-0 +2] [-1 +2] [-2 +0 +1])
}

/// s is x and q.
pub fn and2() -> Gate<2, 4, 3>
    ensures rows { result.rows ≡ and2_rows }
    ensures clauses { clauses_of result.clauses ≡ and2_clauses }
    ensures sound { IsTrue (is_sound 2 result.rows result.clauses) }
{
    gate_rows!(rows false false false true; clauses [-0 -1 +2] [-2 +0] [-2 +1])
}

/// s is p, or x and q.
pub fn cell() -> Gate<3, 8, 4>
    ensures rows { result.rows ≡ cell_rows }
    ensures clauses { clauses_of result.clauses ≡ cell_clauses }
    ensures sound { IsTrue (is_sound 3 result.rows result.clauses) }
{
    gate_rows!(rows false true false true false true true true;
        clauses [-0 +3] [-1 -2 +3] [-3 +0 +1] [-3 +0 +2])
}
