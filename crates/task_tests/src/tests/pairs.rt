//! Both solvers on documents: they end alike, and as is known of the documents.
ghost use Rattle.std.specs.Prelude.{◌≡◌};

use super::documents::{
    ALONE, CROSSING, Documents, FOLLOWING, HEAD_ON, JUNCTION, KEPT, LATER, LOOP, PASSING, RING,
    SHORT, SOONER, STOP, TOO_FAR, TOO_SOON, WIDE_WINDOW, WINDOW, scene,
};
use super::endings::{Ask, End, ends_as};
use derivation_log::Bound;
use plain_solver::PlainSolver;
use std::marker::Brand;
use std::sync::ledger::Blank;
use std::test::Fail;
use watch_solver::WatchSolver;

/// Documents, and the end of the search for the fewest borders.
static CASES: [(Documents, End); 17] = [
    (ALONE, NO_BORDER),
    (TOO_FAR, End::Impossible(Bound::AtMost(3))),
    (FOLLOWING, End::Done(1, Some(Some(0)))),
    (LATER, NO_BORDER),
    (SOONER, End::Done(2, Some(Some(1)))),
    (TOO_SOON, End::Impossible(Bound::AtMost(3))),
    (HEAD_ON, End::Impossible(Bound::AtMost(3))),
    (WINDOW, End::Done(1, Some(Some(0)))),
    (WIDE_WINDOW, NO_BORDER),
    (KEPT, End::Done(1, Some(None))),
    (STOP, NO_BORDER),
    (SHORT, End::Impossible(Bound::AtMost(0))),
    (JUNCTION, End::Done(1, Some(Some(0)))),
    (CROSSING, NO_BORDER),
    (RING, End::Done(2, Some(Some(1)))),
    (PASSING, NO_BORDER),
    (LOOP, End::Done(2, Some(Some(1)))),
];

const NO_BORDER: End = End::Done(0, Some(None));

#[test]
fn both_solvers_find_the_fewest_borders(rt: HostRuntime) -> Result<(), Fail> {
    for (documents, end) in CASES.iter() {
        let scene = scene(rt.alloc(), *documents)?;
        ends_as::<PlainSolver, Brand>(
            &rt,
            rt.alloc(),
            &scene.inst,
            Ask::Fewest,
            20_000,
            *end,
            Blank::new(1),
        )?;
        ends_as::<WatchSolver, Brand>(
            &rt,
            rt.alloc(),
            &scene.inst,
            Ask::Fewest,
            20_000,
            *end,
            Blank::new(1),
        )?;
    }
    Ok(())
}
