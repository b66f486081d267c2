//! Clauses as rows of numbers, and random ones from a fixed generator.
use sat_core::{Lit, Var};
use std::alloc::{AllocError, Global};

/// A literal as a number with a sign.
pub(super) fn literal(number: i32) -> Lit {
    Lit {
        var: Var(number.unsigned_abs()),
        positive: number > 0,
    }
}

/// The literals of a row.
pub(super) fn row_of(alloc: Global, numbers: &[i32]) -> Result<Vec<Lit>, AllocError> {
    numbers.iter().map(|number| literal(*number)).collect(alloc)
}

/// The literals of each row.
pub(super) fn rows_of(alloc: Global, numbers: &[&[i32]]) -> Result<Vec<Vec<Lit>>, AllocError> {
    let mut rows = Vec::new(alloc);
    for row in numbers {
        rows.push(row_of(alloc, row)?)?;
    }
    Ok(rows)
}

/// The next number of the generator, below `end`.
pub(super) fn random(seed: &mut u32, end: u32) -> u32 {
    *seed = seed.wrapping_mul(1_664_525).wrapping_add(1_013_904_223);
    (*seed >> 16).checked_rem(end).unwrap_or(0)
}

/// A clause of three literals over so many variables, three at least.
pub(super) fn random_row(alloc: Global, seed: &mut u32, vars: u32) -> Result<Vec<Lit>, AllocError> {
    let mut lits = Vec::new(alloc);
    let mut place = random(seed, vars);
    let most = vars.wrapping_sub(1) / 2;
    for _ in 0..3 {
        place = place
            .wrapping_add(random(seed, most).wrapping_add(1))
            .checked_rem(vars)
            .unwrap_or(0);
        lits.push(Lit {
            var: Var(place.wrapping_add(1)),
            positive: random(seed, 2) == 0,
        })?;
    }
    Ok(lits)
}
