//! How many variables and clauses the tasks of the row have.

use super::nets::{Asked, Net, ROW, SHORT_ROW, encoded, instance_of};
use clause_encoder::encode_base;
use std::alloc::Global;
use std::process::Abort;
use std::test::Fail;

/// A net, what is asked, and how many variables and clauses there are.
type Row = (Net, Asked, u32, u32);

static ROWS: [Row; 7] = [
    (SHORT_ROW, Asked::AtMost(3), 24, 27),
    (SHORT_ROW, Asked::AtMost(2), 24, 28),
    (SHORT_ROW, Asked::AtMost(4_000_000_000), 24, 27),
    (SHORT_ROW, Asked::Given(&[]), 18, 10),
    (ROW, Asked::AtMost(3), 32, 38),
    (ROW, Asked::AtMost(0), 32, 39),
    (ROW, Asked::Given(&[]), 26, 21),
];

#[test]
fn sizes_are_those_of_the_list(rt: HostRuntime) -> Result<(), Fail> {
    for &(net, asked, vars, clauses) in ROWS.iter() {
        assert!(rt; sizes_of(&rt, rt.alloc(), net, asked)? == (vars, clauses));
    }
    Ok(())
}

fn sizes_of(rt: &impl Abort, alloc: Global, net: Net, asked: Asked) -> Result<(u32, u32), Fail> {
    let found = encoded(rt, alloc, net, asked)?;
    Ok((found.formula.vars(), found.formula.len()))
}

/// A net, how many variables more there are, and how many variables and clauses. The units of a given layout are three; the
/// counter of three borders has 20 clauses.
static BASES: [(Net, u32, u32, u32); 3] = [
    (SHORT_ROW, 0, 18, 7),
    (SHORT_ROW, 5, 23, 7),
    (ROW, 1, 27, 18),
];

#[test]
fn a_base_has_neither_units_nor_a_counter(rt: HostRuntime) -> Result<(), Fail> {
    for &(net, more, vars, clauses) in BASES.iter() {
        assert!(rt; base_sizes(&rt, rt.alloc(), net, more)? == (vars, clauses));
    }
    Ok(())
}

fn base_sizes(rt: &impl Abort, alloc: Global, net: Net, more: u32) -> Result<(u32, u32), Fail> {
    let inst = instance_of(rt, alloc, net)?;
    let found = encode_base(alloc, &inst, more)?;
    Ok((found.formula.vars(), found.formula.len()))
}
