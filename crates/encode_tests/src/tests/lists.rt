//! The formulas of small instances, clause by clause: a number is a variable's, negated where it is negative.

use super::nets::{Asked, Net, ROW, SHORT_ROW, encoded, lit};
use super::small::{PAIR, POINT, RING, STOP, WINDOW};
use sat_core::{ClauseId, Formula, Lit};
use std::alloc::Global;
use std::process::Abort;
use std::test::Fail;

static OF_SHORT_ROW: [&[i32]; 28] = [
    &[-4, 1],
    &[-5, 1, 2],
    &[-6, 1, 2, 3],
    &[-7, 2],
    &[-8, 2, 3],
    &[-9, 3],
    &[],
    &[-1, 19],
    &[-19, 1],
    &[-19, 20],
    &[-2, 20],
    &[-20, 19, 2],
    &[-2, -19, 21],
    &[-21, 2],
    &[-21, 19],
    &[-20, 22],
    &[-3, 22],
    &[-22, 20, 3],
    &[-21, 23],
    &[-3, -20, 23],
    &[-23, 21, 3],
    &[-23, 21, 20],
    &[-3, -21, 24],
    &[-24, 3],
    &[-24, 21],
    &[-23, 22],
    &[-24, 23],
    &[-24],
];

#[test]
fn a_row_without_a_run_has_its_clauses(rt: HostRuntime) -> Result<(), Fail> {
    check_list(
        &rt,
        rt.alloc(),
        SHORT_ROW,
        Asked::AtMost(2),
        24,
        &OF_SHORT_ROW,
    )
}

static OF_ROW: [&[i32]; 21] = [
    &[-1],
    &[2],
    &[-3],
    &[-4, 1],
    &[-5, 1, 2],
    &[-6, 1, 2, 3],
    &[-7, 2],
    &[-8, 2, 3],
    &[-9, 3],
    &[10],
    &[-10, 11],
    &[-11, 12],
    &[-25, 26],
    &[-25, -11],
    &[-26, -12],
    &[-10, 13],
    &[-10, 14],
    &[-11, 18],
    &[-11, 19],
    &[-12, 23],
    &[-12, 24],
];

#[test]
fn a_given_layout_has_its_clauses(rt: HostRuntime) -> Result<(), Fail> {
    check_list(&rt, rt.alloc(), ROW, Asked::Given(&[1]), 26, &OF_ROW)
}

static OF_STOP: [&[i32]; 51] = [
    &[-2, 1],
    &[3, 4],
    &[-3, 5, 7],
    &[-4, 6, 21],
    &[-5, 8, 10],
    &[-6, 9, 22],
    &[-7, 9, 22],
    &[-8, 12],
    &[-9, 11, 23],
    &[-10, 11, 23],
    &[-21, 22],
    &[-22, 23],
    &[-21, -5],
    &[-21, -6],
    &[-21, -7],
    &[-22, -8],
    &[-22, -9],
    &[-22, -10],
    &[-23, -11],
    &[-23, -12],
    &[-3, 13],
    &[-4, 13],
    &[-4, 14],
    &[-5, 15],
    &[-6, 16],
    &[-7, 15],
    &[-7, 16],
    &[-8, 17],
    &[-9, 18],
    &[-10, 17],
    &[-10, 18],
    &[-11, 20],
    &[-12, 19],
    &[-12, 20],
    &[24, 25, 26],
    &[-24, -21],
    &[-25, -22],
    &[-26, -23],
    &[-24, -3],
    &[-24, -4],
    &[-24, -5],
    &[-24, -7],
    &[-25, -5],
    &[-25, -7],
    &[-25, -8],
    &[-25, -10],
    &[-26, -8],
    &[-26, -10],
    &[-26, -12],
    &[-1, 27],
    &[-27, 1],
];

#[test]
fn a_stop_has_its_clauses(rt: HostRuntime) -> Result<(), Fail> {
    check_list(&rt, rt.alloc(), STOP, Asked::AtMost(1), 27, &OF_STOP)
}

static OF_WINDOW: [&[i32]; 14] = [
    &[1, 12],
    &[-12, 2],
    &[-1, 2, 7],
    &[-2, 3, 8],
    &[-7, 8],
    &[-7, -2],
    &[-8, -3],
    &[-1, 4],
    &[-2, 5],
    &[-3, 6],
    &[9, 10, 11],
    &[-10, -7],
    &[-11, -8],
    &[-9, -12],
];

#[test]
fn an_entry_window_has_its_clauses(rt: HostRuntime) -> Result<(), Fail> {
    check_list(&rt, rt.alloc(), WINDOW, Asked::AtMost(0), 12, &OF_WINDOW)
}

static OF_POINT: [&[i32]; 23] = [
    &[-2],
    &[-3],
    &[-4, 1],
    &[-5],
    &[-6, 1],
    &[-7, 1],
    &[8, 9],
    &[-8, 11],
    &[-9, 10, 20],
    &[-20, -10],
    &[-20, -11],
    &[-8, 12],
    &[-8, 13],
    &[-9, 12],
    &[-9, 13],
    &[-9, 15],
    &[-10, 17],
    &[-10, 19],
    &[-11, 16],
    &[-11, 17],
    &[-11, 19],
    &[-1, 21],
    &[-21, 1],
];

#[test]
fn a_point_has_its_clauses(rt: HostRuntime) -> Result<(), Fail> {
    check_list(&rt, rt.alloc(), POINT, Asked::AtMost(1), 21, &OF_POINT)
}

static OF_RING: [&[i32]; 24] = [
    &[1],
    &[-3, 1],
    &[-3, 2],
    &[4, 5],
    &[-4, 7],
    &[-5, 6, 12],
    &[-12, -6],
    &[-12, -7],
    &[-4, 8],
    &[-5, 8],
    &[-5, 9],
    &[-6, 11],
    &[-7, 10],
    &[-7, 11],
    &[-1, 13],
    &[-13, 1],
    &[-13, 14],
    &[-2, 14],
    &[-14, 13, 2],
    &[-2, -13, 15],
    &[-15, 2],
    &[-15, 13],
    &[-15, 14],
    &[-15],
];

#[test]
fn a_ring_has_its_clauses(rt: HostRuntime) -> Result<(), Fail> {
    check_list(&rt, rt.alloc(), RING, Asked::AtMost(1), 15, &OF_RING)
}

static OF_PAIR: [&[i32]; 58] = [
    &[1],
    &[-2, 1],
    &[3, 4],
    &[21, 22],
    &[-3, 6],
    &[-4, 5, 7],
    &[-5, 9],
    &[-6, 9],
    &[-7, 8, 20],
    &[-21, 25],
    &[-22, 23, 24],
    &[-23, 27],
    &[-24, 26, 38],
    &[-25, 27],
    &[-19, 20],
    &[-37, 38],
    &[-19, -5],
    &[-19, -6],
    &[-19, -7],
    &[-20, -8],
    &[-20, -9],
    &[-37, -23],
    &[-37, -24],
    &[-37, -25],
    &[-38, -26],
    &[-38, -27],
    &[-3, 10],
    &[-4, 10],
    &[-4, 11],
    &[-5, 14],
    &[-6, 13],
    &[-6, 14],
    &[-7, 14],
    &[-7, 15],
    &[-8, 18],
    &[-9, 17],
    &[-9, 18],
    &[-21, 30],
    &[-22, 30],
    &[-22, 29],
    &[-23, 32],
    &[-24, 32],
    &[-24, 31],
    &[-25, 33],
    &[-25, 32],
    &[-26, 34],
    &[-27, 35],
    &[-27, 34],
    &[-13, -28],
    &[-13, -29, 2],
    &[-14, -28, 2],
    &[-14, -29],
    &[-15, -30],
    &[-16, -31],
    &[-16, -32, 2],
    &[-17, -31, 2],
    &[-17, -32],
    &[-18, -33],
];

#[test]
fn two_trains_have_their_clauses(rt: HostRuntime) -> Result<(), Fail> {
    check_list(&rt, rt.alloc(), PAIR, Asked::Given(&[0]), 38, &OF_PAIR)
}

fn check_list(
    rt: &impl Abort,
    alloc: Global,
    net: Net,
    asked: Asked,
    vars: u32,
    clauses: &[&[i32]],
) -> Result<(), Fail> {
    let found = encoded(rt, alloc, net, asked)?;
    assert_eq!(rt; found.formula.vars(), vars);
    check_clauses(rt, &found.formula, clauses);
    Ok(())
}

fn check_clauses(rt: &impl Abort, formula: &Formula, clauses: &[&[i32]]) {
    assert_eq!(rt; formula.len() as usize, clauses.len());
    for (place, numbers) in clauses.iter().enumerate() {
        let id = (place as u32).wrapping_add(1);
        assert!(rt; 0 < id && id <= formula.len());
        check_clause(rt, formula.clause(ClauseId(id)), numbers);
    }
}

fn check_clause(rt: &impl Abort, lits: &[Lit], numbers: &[i32]) {
    assert_eq!(rt; lits.len(), numbers.len());
    for place in 0..lits.len() {
        assert_eq!(rt; lits[place], lit(numbers[place]));
    }
}
