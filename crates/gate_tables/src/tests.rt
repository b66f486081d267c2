//! The gates over all valuations, and the order of their clauses.
use crate::{and2, cell, emit, eq, or2};
use sat_core::{ClauseId, Formula, Lit, Valuation, Var, is_clause};
use std::alloc::{AllocError, Global};
use std::process::Abort;
use std::test::Fail;
use vss_lists::Items;

fn lit(number: i32) -> Lit {
    Lit {
        var: Var(number.unsigned_abs()),
        positive: number > 0,
    }
}

// Whether the clauses over the inputs 1, 2, .. and the output behind them hold exactly where the output is the row's value.
fn says(
    rt: &impl Abort,
    alloc: Global,
    formula: &Formula,
    rows: &[bool],
) -> Result<bool, AllocError> {
    for (row, value) in rows.iter().enumerate() {
        for output in [false, true] {
            let mut values: Vec<bool> = Vec::new(alloc);
            let mut digits = row;
            for _ in 1..formula.vars() {
                values.push(digits % 2 == 1)?;
                digits /= 2;
            }
            values.push(output)?;
            let valuation = Valuation {
                values: Items::from_vec(values),
            };
            assert!(rt; valuation.values.len() == formula.vars() as usize);
            if formula.satisfied_by(&valuation) != (output == *value) {
                return Ok(false);
            }
        }
    }
    Ok(true)
}

#[test]
fn each_gate_is_its_function(rt: HostRuntime) -> Result<(), Fail> {
    let (a, b, c, d) = (lit(1), lit(2), lit(3), lit(4));

    let mut formula = Formula::new(rt.alloc(), 2);
    assert!(rt; is_clause(formula.vars(), &[a, b]));
    emit(&eq(), &[a], b, &mut formula)?;
    assert!(rt; says(&rt, rt.alloc(), &formula, &[false, true])?);

    let mut formula = Formula::new(rt.alloc(), 3);
    assert!(rt; is_clause(formula.vars(), &[a, b, c]));
    emit(&or2(), &[a, b], c, &mut formula)?;
    assert!(rt; says(&rt, rt.alloc(), &formula, &[false, true, true, true])?);

    let mut formula = Formula::new(rt.alloc(), 3);
    assert!(rt; is_clause(formula.vars(), &[a, b, c]));
    emit(&and2(), &[a, b], c, &mut formula)?;
    assert!(rt; says(&rt, rt.alloc(), &formula, &[false, false, false, true])?);

    let mut formula = Formula::new(rt.alloc(), 4);
    assert!(rt; is_clause(formula.vars(), &[a, b, c, d]));
    emit(&cell(), &[a, b, c], d, &mut formula)?;
    assert!(rt;
        says(
            &rt,
            rt.alloc(),
            &formula,
            &[false, true, false, true, false, true, true, true]
        )?
    );
    Ok(())
}

#[test]
fn clauses_stand_in_order(rt: HostRuntime) -> Result<(), Fail> {
    let table: [&[i32]; 4] = [&[5, 9], &[-7, 6, 9], &[-9, -5, 7], &[-9, -5, -6]];
    let (p, x, q, s) = (lit(-5), lit(7), lit(-6), lit(9));
    let mut formula = Formula::new(rt.alloc(), 9);
    assert!(rt; is_clause(formula.vars(), &[p, x, q, s]));
    emit(&cell(), &[p, x, q], s, &mut formula)?;
    assert_eq!(rt; formula.len(), 4);
    for (place, numbers) in table.iter().enumerate() {
        let id = place as u32 + 1;
        assert!(rt; id <= formula.len());
        let lits: Vec<Lit> = numbers
            .iter()
            .map(|number| lit(*number))
            .collect(rt.alloc())?;
        assert_eq!(rt;
            formula.clause(ClauseId(id)),
            lits.as_slice(),
            "clause {id}"
        );
    }
    Ok(())
}
