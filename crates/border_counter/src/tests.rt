//! The counter's clauses one by one, and its meaning over all valuations of a few inputs.
ghost use Rattle.std.specs.Prelude.{◌≡◌, length, IfOk};

use crate::{CounterOut, CounterSize, add_counter, counter_size};
use sat_core::{ClauseId, Formula, Lit, Valuation, Var, is_clause};
use std::alloc::{AllocError, Global};
use std::process::Abort;
use std::test::Fail;
use vss_lists::Items;

// The counter of three borders, whose variables are 19 to 24.
static EXAMPLE: [&[i32]; 20] = [
    &[-1, 19],
    &[-19, 1],
    &[-19, 20],
    &[-2, 20],
    &[-20, 19, 2],
    &[-2, -19, 21],
    &[-21, 2],
    &[-21, 19],
    &[-20, 22],
    &[-3, 22],
    &[-22, 20, 3],
    &[-21, 23],
    &[-3, -20, 23],
    &[-23, 21, 3],
    &[-23, 21, 20],
    &[-3, -21, 24],
    &[-24, 3],
    &[-24, 21],
    &[-23, 22],
    &[-24, 23],
];

static SIZES: [(u32, u64, u64); 4] = [(0, 0, 0), (1, 2, 4), (2, 9, 20), (3, 20, 47)];

fn lit(number: i32) -> Lit {
    Lit {
        var: Var(number.unsigned_abs()),
        positive: number > 0,
    }
}

// The literals of the variables 1 to `count`.
fn borders(alloc: Global, count: u32) -> Result<Vec<Lit>, AllocError> {
    let mut lits = Vec::new(alloc);
    for number in 0..count {
        lits.push(Lit {
            var: Var(number + 1),
            positive: true,
        })?;
    }
    Ok(lits)
}

// Adds the counter, if what it asks for holds.
fn add(
    rt: &impl Abort,
    formula: &mut Formula,
    inputs: &[Lit],
    first_var: u32,
) -> Result<CounterOut, AllocError>
    ensures { IfOk result (λ counter. counter.inputs ≡ length inputs.now) }
{
    let count = inputs.len();
    assert!(rt; 1 <= first_var);
    assert!(rt; count < 100);
    assert!(rt; is_clause(first_var - 1, inputs));
    let rows = count * (count + 1) / 2;
    assert!(rt; first_var as usize + rows <= formula.vars() as usize + 1);
    let size = counter_size(count as u32);
    assert!(rt; size.clauses < 1000);
    assert!(rt; formula.len() < 1000);
    add_counter(formula, inputs, first_var)
}

#[test]
fn clauses_stand_in_order(rt: HostRuntime) -> Result<(), Fail> {
    let inputs = [lit(1), lit(2), lit(3)];
    let mut formula = Formula::new(rt.alloc(), 24);
    let counter = add(&rt, &mut formula, &inputs, 19)?;
    assert_eq!(rt; formula.len(), 20);
    assert_eq!(rt; counter.at_least(1), lit(22));
    assert_eq!(rt; counter.at_least(3), lit(24));
    for (place, numbers) in EXAMPLE.iter().enumerate() {
        let id = place as u32 + 1;
        assert!(rt; id <= formula.len());
        let lits: Vec<Lit> = numbers
            .iter()
            .map(|number| lit(*number))
            .collect(rt.alloc())?;
        assert_eq!(rt;
            formula.clause(ClauseId(id)),
            lits.as_slice(),
            "clause {id}"
        );
    }
    Ok(())
}

#[test]
fn sizes_are_those_of_the_clauses(rt: HostRuntime) -> Result<(), Fail> {
    for (inputs, clauses, lits) in SIZES {
        assert_eq!(rt;
            counter_size(inputs),
            CounterSize { clauses, lits },
            "{inputs} inputs"
        );
    }
    Ok(())
}

// The values that the counter's variables are to have, behind those of the inputs, which are the binary digits of a number.
fn intended(alloc: Global, count: u32, digits: u32) -> Result<Vec<bool>, AllocError> {
    let mut values: Vec<bool> = Vec::new(alloc);
    let mut rest = digits;
    for _ in 0..count {
        values.push(rest % 2 == 1)?;
        rest /= 2;
    }
    for row in 1..count as usize + 1 {
        let among = values.iter().take(row).filter(|value| **value).count();
        for place in 1..row + 1 {
            values.push(place <= among)?;
        }
    }
    Ok(values)
}

fn is_satisfied(rt: &impl Abort, formula: &Formula, values: Vec<bool>) -> bool {
    let valuation = Valuation {
        values: Items::from_vec(values),
    };
    assert!(rt; valuation.values.len() == formula.vars() as usize);
    formula.satisfied_by(&valuation)
}

// Whether the intended values satisfy the formula, and no other value of one variable of the counter does.
fn hold_alone(
    rt: &impl Abort,
    alloc: Global,
    formula: &Formula,
    count: u32,
    digits: u32,
) -> Result<bool, AllocError> {
    let mut alone = is_satisfied(rt, formula, intended(alloc, count, digits)?);
    for flipped in count as usize..formula.vars() as usize {
        let mut values = intended(alloc, count, digits)?;
        assert!(rt; flipped < values.len());
        values[flipped] = !values[flipped];
        alone = alone && !is_satisfied(rt, formula, values);
    }
    Ok(alone)
}

#[test]
fn variables_tell_how_many_inputs_are_true(rt: HostRuntime) -> Result<(), Fail> {
    let table: [(u32, u32); 4] = [(0, 0), (1, 2), (2, 5), (5, 20)];
    for (count, vars) in table {
        let inputs = borders(rt.alloc(), count)?;
        let mut formula = Formula::new(rt.alloc(), vars);
        add(&rt, &mut formula, inputs.as_slice(), count + 1)?;
        for digits in 0..1u32 << count {
            assert!(rt;
                hold_alone(&rt, rt.alloc(), &formula, count, digits)?,
                "{digits} of {count}"
            );
        }
    }
    Ok(())
}
