//! What no clause says of formulas: that memory suffices, with answers compared.

use crate::{ClauseId, Formula, Lit, Valuation, Var, is_clause};
use std::alloc::{AllocError, Global};
use std::process::Abort;
use std::test::Fail;
use vss_lists::Items;

// A section of four cells with three candidates for borders: separation of cells, an entry that can't be met, and a
// counter of borders.
fn example() -> [&'static [i32]; 27] {
    [
        &[-4, 1],
        &[-5, 1, 2],
        &[-6, 1, 2, 3],
        &[-7, 2],
        &[-8, 2, 3],
        &[-9, 3],
        &[],
        &[-1, 19],
        &[-19, 1],
        &[-19, 20],
        &[-2, 20],
        &[-20, 19, 2],
        &[-2, -19, 21],
        &[-21, 2],
        &[-21, 19],
        &[-20, 22],
        &[-3, 22],
        &[-22, 20, 3],
        &[-21, 23],
        &[-3, -20, 23],
        &[-23, 21, 3],
        &[-23, 21, 20],
        &[-3, -21, 24],
        &[-24, 3],
        &[-24, 21],
        &[-23, 22],
        &[-24, 23],
    ]
}

fn lits_of(alloc: Global, numbers: &[i32]) -> Result<Vec<Lit>, AllocError> {
    numbers
        .iter()
        .map(|number| Lit {
            var: Var(number.unsigned_abs()),
            positive: *number > 0,
        })
        .collect(alloc)
}

fn push_all(
    rt: &impl Abort,
    alloc: Global,
    formula: &mut Formula,
    clauses: &[&[i32]],
) -> Result<(), Fail> {
    for numbers in clauses {
        let lits = lits_of(alloc, numbers)?;
        assert!(rt; is_clause(formula.vars(), lits.as_slice()));
        assert!(rt; formula.len() < 100);
        formula.push(lits.as_slice())?;
    }
    Ok(())
}

#[test]
fn reads_back_what_was_pushed(rt: HostRuntime) -> Result<(), Fail> {
    let clauses = example();
    let mut formula = Formula::new(rt.alloc(), 24);
    formula.reserve(20, 30)?;
    push_all(&rt, rt.alloc(), &mut formula, &clauses)?;
    assert_eq!(rt; formula.vars(), 24);
    assert_eq!(rt; formula.len(), 27);
    for (place, numbers) in clauses.iter().enumerate() {
        let lits = lits_of(rt.alloc(), numbers)?;
        let id = place as u32 + 1;
        assert!(rt; id <= formula.len());
        assert_eq!(rt;
            formula.clause(ClauseId(id)),
            lits.as_slice(),
            "clause {id}"
        );
    }
    Ok(())
}

#[test]
fn tells_satisfying_valuations(rt: HostRuntime) -> Result<(), Fail> {
    let clauses = example();
    let mut formula = Formula::new(rt.alloc(), 24);
    push_all(&rt, rt.alloc(), &mut formula, &clauses[..6])?;
    push_all(&rt, rt.alloc(), &mut formula, &clauses[7..])?;
    let all: Vec<u32> = (1..25).collect(rt.alloc())?;
    let table: [(&[u32], bool); 6] = [
        (&[], true),
        (&[1], false),
        (&[1, 19, 20, 22], true),
        (&[4, 1, 19, 20], false),
        (&[4, 1, 19, 20, 22], true),
        (all.as_slice(), true),
    ];
    for (true_variables, satisfied) in table {
        let values: Vec<bool> = (1..25)
            .map(|v| true_variables.contains(&v))
            .collect(rt.alloc())?;
        let valuation = Valuation {
            values: Items::from_vec(values),
        };
        assert!(rt; valuation.values.len() == formula.vars() as usize);
        assert_eq!(rt;
            formula.satisfied_by(&valuation),
            satisfied,
            "{true_variables:?}"
        );
    }
    assert!(rt; is_clause(formula.vars(), &[]));
    assert!(rt; formula.len() < 100);
    formula.push_fixed([])?;
    let nothing = Valuation {
        values: Items::from_vec(vec![in rt.alloc(); false; 24]?),
    };
    assert!(rt; nothing.values.len() == formula.vars() as usize);
    assert_eq!(rt; formula.satisfied_by(&nothing), false);
    Ok(())
}

// A clause of all variables, and for each variable but the first one clause that makes it false.
#[test]
fn reads_back_a_long_clause_and_many(rt: HostRuntime) -> Result<(), Fail> {
    let long: Vec<Lit> = (1..1001).map(|var| lit(var, true)).collect(rt.alloc())?;
    let mut formula = Formula::new(rt.alloc(), 1000);
    push(&rt, &mut formula, long.as_slice())?;
    for var in 2..1001 {
        push(&rt, &mut formula, &[lit(var, false)])?;
    }
    assert_eq!(rt; formula.len(), 1000);
    assert!(rt; 1000 <= formula.len());
    assert_eq!(rt; formula.clause(ClauseId(1)), long.as_slice());
    let last = [lit(1000, false)];
    assert_eq!(rt; formula.clause(ClauseId(1000)), last.as_slice());
    // the first variable alone is true, or none is
    for first in [true, false] {
        let values: Vec<bool> = (1..1001).map(|v| v == 1 && first).collect(rt.alloc())?;
        let valuation = Valuation {
            values: Items::from_vec(values),
        };
        assert!(rt; valuation.values.len() == formula.vars() as usize);
        assert_eq!(rt; formula.satisfied_by(&valuation), first);
    }
    Ok(())
}

fn lit(var: u32, positive: bool) -> Lit {
    Lit {
        var: Var(var),
        positive,
    }
}

fn push(rt: &impl Abort, formula: &mut Formula, lits: &[Lit]) -> Result<(), Fail> {
    assert!(rt; is_clause(formula.vars(), lits));
    assert!(rt; formula.len() < 10_000);
    formula.push(lits)?;
    Ok(())
}
