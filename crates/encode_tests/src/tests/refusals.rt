//! Instances without a formula, for their sweeps or their walks.

use super::cones::cones_of;
use super::nets::{
    Asked, Net, ROW, Train, built, cell_of, encode_asked, join_of, parts_of, train_of,
};
use cell_net::{Instance, InstanceParts, SectionId, TrainId};
use clause_encoder::{EncodeRefusal, GatherFault, encode_base};
use std::alloc::{AllocError, Global};
use std::process::Abort;
use std::test::Fail;
use vss_rows::Rows;

/// A chain of bundles in a section: its first node, and how many cells stand side by side between each node and the next, of
/// which each is joined with each of the next.
type Chain = (u32, u32, &'static [u32]);

/// Four by four by four walks, and five by thirteen.
const FULL: &[u32] = &[1, 4, 4, 4, 1];

const OVER: &[u32] = &[1, 5, 13, 1];

/// Over all of it lead 25,000 paths up, and as many down.
const WIDE: &[u32] = &[1, 2, 2, 2, 5, 5, 5, 5, 5, 1];

const WIDER: &[u32] = &[1, 2, 2, 2, 5, 5, 5, 5, 6, 1];

/// A train of one cell.
const SHORT: Train = Train {
    length: 1,
    entry: (0, true),
    goal: (0, true),
    start: 0,
    latest: 0,
    by: 0,
    stops: &[],
};

/// A train as long as the ten bundles.
const LONG: Train = Train {
    length: 10,
    goal: (32, true),
    ..SHORT
};

// Chains, trains, and why there is no formula.
static ROWS: [(&[Chain], &[Train], Option<EncodeRefusal>); 8] = [
    (&[(0, 0, FULL)], &[SHORT], None),
    (
        &[(0, 0, OVER)],
        &[SHORT],
        Some(EncodeRefusal::TooManyWalks(SectionId(0))),
    ),
    (
        &[(0, 0, FULL), (3, 50, OVER)],
        &[],
        Some(EncodeRefusal::TooManyWalks(SectionId(3))),
    ),
    (
        &[(2, 0, OVER), (1, 50, OVER)],
        &[],
        Some(EncodeRefusal::TooManyWalks(SectionId(1))),
    ),
    // 50,000 sweeps are few enough, and walks come next
    (
        &[(0, 0, WIDE)],
        &[SHORT, LONG],
        Some(EncodeRefusal::TooManyWalks(SectionId(0))),
    ),
    (
        &[(0, 0, WIDER)],
        &[SHORT],
        Some(EncodeRefusal::TooManyWalks(SectionId(0))),
    ),
    (
        &[(0, 0, WIDER)],
        &[SHORT, LONG, LONG],
        Some(EncodeRefusal::TooManySweeps(TrainId(1))),
    ),
    (
        &[(0, 0, WIDER)],
        &[LONG],
        Some(EncodeRefusal::TooManySweeps(TrainId(0))),
    ),
];

#[test]
fn sweeps_are_looked_at_before_walks(rt: HostRuntime) -> Result<(), Fail> {
    for &(chains, trains, want) in ROWS.iter() {
        let inst = built(&rt, rt.alloc(), chain_parts(rt.alloc(), chains, trains)?)?;
        check_refusals(&rt, rt.alloc(), &inst, want)?;
    }
    Ok(())
}

fn check_refusals(
    rt: &impl Abort,
    alloc: Global,
    inst: &Instance,
    want: Option<EncodeRefusal>,
) -> Result<(), Fail> {
    assert!(rt; encode_asked(rt, alloc, inst, Asked::AtMost(0))?.err() == want);
    assert!(rt; encode_asked(rt, alloc, inst, Asked::Given(&[]))?.err() == want);
    assert!(rt; encode_base(alloc, inst, 0).err() == want);
    Ok(())
}

// Half of the 50,000 sweeps are up, so 80 steps of them are 2,000,000 items.
#[test]
fn cones_of_2000000_items_are_gathered(rt: HostRuntime) -> Result<(), Fail> {
    let inst = built(
        &rt,
        rt.alloc(),
        chain_parts(rt.alloc(), &[(0, 0, WIDE)], &[LONG])?,
    )?;
    let cones = cones_of(&rt, rt.alloc(), &inst, 0, 79)??;
    check_wide(&rt, &cones);
    assert!(rt; cones_of(&rt, rt.alloc(), &inst, 0, 80)?.err() == Some(GatherFault::TooMany));
    Ok(())
}

fn check_wide(rt: &impl Abort, cones: &Rows<u32>) {
    assert_eq!(rt; cones.len(), 80);
    for step in 0..cones.len() {
        assert_eq!(rt; cones.row(step).len(), 25_000);
    }
}

fn chain_parts(
    alloc: Global,
    chains: &[Chain],
    trains: &[Train],
) -> Result<InstanceParts, AllocError> {
    let mut parts = parts_of(alloc, EMPTY)?;
    for chain in chains {
        push_chain(&mut parts, *chain)?;
    }
    for train in trains {
        parts.trains.push(train_of(alloc, *train)?)?;
    }
    Ok(parts)
}

const EMPTY: Net = Net {
    cells: &[],
    joins: &[],
    candidates: &[],
    trains: &[],
    ..ROW
};

fn push_chain(parts: &mut InstanceParts, chain: Chain) -> Result<(), AllocError> {
    let (section, node, sizes) = chain;
    let mut low = node;
    let mut before: u32 = 0;
    for &size in sizes {
        push_bundle(parts, section, low, before, size)?;
        low = low.wrapping_add(1);
        before = size;
    }
    Ok(())
}

/// Appends so many cells, behind so many in the bundle before.
fn push_bundle(
    parts: &mut InstanceParts,
    section: u32,
    low: u32,
    before: u32,
    size: u32,
) -> Result<(), AllocError> {
    let first = u32::try_from(parts.cells.len()).unwrap_or(0);
    for place in 0..size {
        let cell = first.wrapping_add(place);
        parts
            .cells
            .push(cell_of(low, low.wrapping_add(1), section))?;
        push_joins(parts, first.wrapping_sub(before), before, cell)?;
    }
    Ok(())
}

/// Appends the joins of so many cells from that one on with the cell.
fn push_joins(
    parts: &mut InstanceParts,
    from: u32,
    count: u32,
    cell: u32,
) -> Result<(), AllocError> {
    for place in 0..count {
        let join = join_of((from.wrapping_add(place), true), (cell, false));
        parts.joins.push(join)?;
    }
    Ok(())
}
