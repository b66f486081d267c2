//! Formulas as rows of numbers, random ones from a fixed generator, and their truth table.
use sat_core::{Formula, Lit, Var, is_clause};
use std::alloc::{AllocError, Global};
use std::process::Abort;
use std::test::Fail;

/// Clauses over the variables 1 to `vars`.
#[derive(Drop)]
pub(super) struct Clauses {
    pub(super) vars: u32,
    pub(super) rows: Vec<Vec<Lit>>,
}

/// A literal as a number with a sign.
pub(super) fn literal(number: i32) -> Lit {
    Lit {
        var: Var(number.unsigned_abs()),
        positive: number > 0,
    }
}

/// The clauses of rows of numbers.
pub(super) fn clauses_of(
    alloc: Global,
    vars: u32,
    numbers: &[&[i32]],
) -> Result<Clauses, AllocError> {
    let mut rows = Vec::new(alloc);
    for row in numbers {
        let lits: Vec<Lit> = row.iter().map(|number| literal(*number)).collect(alloc)?;
        rows.push(lits)?;
    }
    Ok(Clauses { vars, rows })
}

/// The formula of the clauses; fewer than a thousand.
pub(super) fn formula_of(
    rt: &impl Abort,
    alloc: Global,
    clauses: &Clauses,
) -> Result<Formula, Fail> {
    let mut formula = Formula::new(alloc, clauses.vars);
    for row in &clauses.rows {
        assert!(rt; is_clause(formula.vars(), row.as_slice()));
        assert!(rt; formula.len() < 1000);
        formula.push(row.as_slice())?;
    }
    Ok(formula)
}

/// Whether some valuation satisfies the clauses: all of them are tried.
pub(super) fn has_model(clauses: &Clauses) -> bool {
    (0..1u32 << (clauses.vars % 16)).any(|bits| {
        clauses
            .rows
            .as_slice()
            .iter()
            .all(|row| row.as_slice().iter().any(|lit| is_true(bits, *lit)))
    })
}

/// Whether the literal is true where bit `v - 1` is the value of variable `v`.
fn is_true(bits: u32, lit: Lit) -> bool {
    let shifted = bits.checked_shr(lit.var.0.wrapping_sub(1)).unwrap_or(0);
    (shifted % 2 == 1) == lit.positive
}

/// The next number of the generator, below `end`.
pub(super) fn random(seed: &mut u32, end: u32) -> u32 {
    *seed = seed.wrapping_mul(1_664_525).wrapping_add(1_013_904_223);
    (*seed >> 16).checked_rem(end).unwrap_or(0)
}

/// Clauses of three literals over 8 to 12 variables, somewhat more than four for each variable.
pub(super) fn random_clauses(alloc: Global, seed: &mut u32) -> Result<Clauses, AllocError> {
    let vars = random(seed, 5).wrapping_add(8);
    let count = vars.wrapping_mul(4).wrapping_add(random(seed, 8));
    let mut rows = Vec::new(alloc);
    for _ in 0..count {
        let mut lits = Vec::new(alloc);
        let mut place = random(seed, vars);
        for _ in 0..3 {
            place = place
                .wrapping_add(random(seed, 2).wrapping_add(1))
                .checked_rem(vars)
                .unwrap_or(0);
            lits.push(Lit {
                var: Var(place.wrapping_add(1)),
                positive: random(seed, 2) == 0,
            })?;
        }
        rows.push(lits)?;
    }
    Ok(Clauses { vars, rows })
}

/// So many pigeons in so many holes, one at most in each: pigeon `p` sits in hole `h` by variable `p * holes + h + 1`.
pub(super) fn pigeons(alloc: Global, pigeons: u32, holes: u32) -> Result<Clauses, AllocError> {
    let sits = |pigeon: u32, hole: u32, positive: bool| Lit {
        var: Var(
            pigeon
                .wrapping_mul(holes)
                .wrapping_add(hole)
                .wrapping_add(1),
        ),
        positive,
    };
    let mut rows = Vec::new(alloc);
    for pigeon in 0..pigeons {
        let row: Vec<Lit> = (0..holes)
            .map(|hole| sits(pigeon, hole, true))
            .collect(alloc)?;
        rows.push(row)?;
    }
    for hole in 0..holes {
        for later in 0..pigeons {
            for pigeon in 0..later {
                let mut row = Vec::new(alloc);
                row.push(sits(pigeon, hole, false))?;
                row.push(sits(later, hole, false))?;
                rows.push(row)?;
            }
        }
    }
    Ok(Clauses {
        vars: pigeons.wrapping_mul(holes),
        rows,
    })
}
