//! What is learned of a conflict.
use conflict_learn::learn;
use sat_core::{ClauseId, Formula, Lit, Var};
use search_trail::Trail;
use std::test::Fail;

/// Where the first variable is true, one of two clauses is false: so it is false, and that holds at level 0.
#[test]
fn two_clauses_give_a_unit(rt: HostRuntime) -> Result<(), Fail> {
    let first = Lit {
        var: Var(1),
        positive: true,
    };
    let second = Lit {
        var: Var(2),
        positive: true,
    };
    let mut formula = Formula::new(rt.alloc(), 2);
    formula.push_fixed([first.negated(), second])?;
    formula.push_fixed([first.negated(), second.negated()])?;
    let mut trail = Trail::new(rt.alloc(), 2)?;
    trail.decide(first);
    trail.assign(second, ClauseId(1));
    let learned = learn(rt.alloc(), &trail, &formula, ClauseId(2))?;
    assert_eq!(rt; learned.lits.as_slice(), [first.negated()].as_slice());
    assert_eq!(rt;
        learned.hints.as_slice(),
        [ClauseId(1), ClauseId(2)].as_slice()
    );
    assert_eq!(rt; learned.level, 0);
    Ok(())
}
