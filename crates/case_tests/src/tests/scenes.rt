//! The scenes of made cases.

use case_maker::make_case;
use cell_net::Scene;
use discretise::scene_of;
use net_reader::read_net;
use std::alloc::Global;
use std::test::Fail;
use timetable::read_timetable;

/// The scene of the case of that seed and size, from 1 to 8; an error where one of its readers refuses it.
pub(super) fn scene(alloc: Global, seed: u32, size: u32) -> Result<Scene, Fail> {
    if size < 1 || 8 < size {
        return Err(Fail::from("no size of a case"));
    }
    let (network, times) = make_case(alloc, seed, size)?;
    let Ok(net) = read_net(alloc, network.as_slice()) else {
        return Err(Fail::from("no network"));
    };
    let Ok(timetable) = read_timetable(alloc, times.as_slice(), &net) else {
        return Err(Fail::from("no timetable"));
    };
    match scene_of(alloc, &net, &timetable) {
        Ok(scene) => Ok(scene),
        Err(_refusal) => Err(Fail::from("no scene")),
    }
}

// The seed and the size of a case, and its counts of cells, candidates, trains and steps.
static COUNTS: [(u32, u32, usize, usize, usize, u32); 2] = [
    (1, 1, 21, 11, 2, 15),
    (1, 4, 68, 31, 6, 90),
];

#[test]
fn cases_have_their_sizes(rt: HostRuntime) -> Result<(), Fail> {
    for (seed, size, cells, candidates, trains, steps) in &COUNTS {
        let scene = scene(rt.alloc(), *seed, *size)?;
        let parts = scene.inst.parts();
        assert_eq!(rt; parts.cells.len(), *cells);
        assert_eq!(rt; parts.candidates.len(), *candidates);
        assert_eq!(rt; parts.trains.len(), *trains);
        assert_eq!(rt; parts.steps, *steps);
    }
    Ok(())
}

/// The scene of each size of that seed is made, each larger than the one before.
fn expect_growing(alloc: Global, seed: u32) -> Result<(), Fail> {
    let mut cells = 0;
    for size in 1..9 {
        let larger = scene(alloc, seed, size)?.inst.parts().cells.len();
        if larger <= cells {
            return Err(Fail::from("no larger than a smaller case"));
        }
        cells = larger;
    }
    Ok(())
}

#[test]
fn no_case_is_refused(rt: HostRuntime) -> Result<(), Fail> {
    for seed in 0..20 {
        expect_growing(rt.alloc(), seed)?;
    }
    Ok(())
}

// Seeds at which the draws begin anew, and the largest one.
static SEEDS: [u32; 4] = [65_536, 65_537, 65_538, 4_294_967_295];

#[test]
fn no_seed_is_too_large(rt: HostRuntime) -> Result<(), Fail> {
    for seed in &SEEDS {
        expect_growing(rt.alloc(), *seed)?;
    }
    Ok(())
}
