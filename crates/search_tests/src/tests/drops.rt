//! What a log says of the clauses that it drops: at which places they go, and how many of them.
use derivation_log::{Log, Step};
use std::process::Abort;
use std::test::Fail;

/// The numbers of conflicts behind which clauses are dropped.
static PLACES: [usize; 6] = [2000, 6000, 14_000, 30_000, 62_000, 126_000];

/// What the steps of a log did up to one of them.
#[derive(Clone, Copy)]
struct Tally {
    added: usize,
    // those of the added clauses that have three or more literals: no other ones are dropped
    long: usize,
    dropped: usize,
    drops: usize,
}

/// Whether clauses are dropped at each of the places that the log passed, and enough of them at each.
pub(super) fn drops_enough(rt: &impl Abort, log: &Log, vars: usize) -> Result<(), Fail> {
    let mut tally = Tally {
        added: 0,
        long: 0,
        dropped: 0,
        drops: 0,
    };
    for step in log.steps.as_slice() {
        match step {
            Step::Add { lits, .. } => tally = with_added(tally, lits.len()),
            Step::Drop { ids } => {
                is_enough(rt, tally, ids.len(), vars)?;
                tally = with_dropped(tally, ids.len());
            }
        }
    }
    let passed = PLACES.iter().filter(|place| **place < tally.added).count();
    assert_eq!(rt; tally.drops, passed);
    Ok(())
}

fn with_added(tally: Tally, len: usize) -> Tally {
    let long = if len < 3 { 0 } else { 1 };
    Tally {
        added: tally.added.wrapping_add(1),
        long: tally.long.wrapping_add(long),
        dropped: tally.dropped,
        drops: tally.drops,
    }
}

fn with_dropped(tally: Tally, count: usize) -> Tally {
    Tally {
        added: tally.added,
        long: tally.long,
        dropped: tally.dropped.wrapping_add(count),
        drops: tally.drops.wrapping_add(1),
    }
}

/// Whether this is the next place, and half of the long clauses go that are live there and no reason; and from 6,000 conflicts
/// on, a third of all that were added are gone. There are no more reasons than variables.
fn is_enough(rt: &impl Abort, before: Tally, count: usize, vars: usize) -> Result<(), Fail> {
    assert_eq!(rt; PLACES.get(before.drops), Some(&before.added));
    let may_go = before
        .long
        .saturating_sub(before.dropped)
        .saturating_sub(vars);
    assert!(rt; count.saturating_mul(2) >= may_go, "{count} of {may_go}");
    let gone = before.dropped.wrapping_add(count);
    assert!(rt;
        before.added < 6000 || gone.saturating_mul(3) >= before.added,
        "{gone} are gone"
    );
    Ok(())
}
