//! How many walks are too many, and in which section.

use super::nets::{built, cell_of, net_of};
use cell_net::{CellId, CellSpec, SectionId};
use gap_clauses::{GapRefusal, Gaps};
use std::alloc::{AllocError, Global};
use std::process::Abort;
use std::test::Fail;

/// A chain of bundles: its section, its first node, and how many cells stand side by side between each node
/// and the next.
type Chain = (u32, u32, &'static [u32]);

/// Four by four by four walks, and five by thirteen.
const FULL: &[u32] = &[1, 4, 4, 4, 1];

const OVER: &[u32] = &[1, 5, 13, 1];

/// Two cells before thirty rings in a row.
const RINGS: &[u32] = &[
    1, 1, 2, 2, 2, 2, 2, 2, 2, 2, 2, 2, 2, 2, 2, 2, 2, 2, 2, 2, 2, 2, 2, 2, 2, 2, 2, 2, 2, 2, 2, 2,
];

// Chains, and the section with too many walks.
static LIMITS: [(&[Chain], Option<u32>); 6] = [
    (&[(0, 0, &[1, 1, 1])], None),
    (&[(0, 0, FULL)], None),
    (&[(0, 0, OVER)], Some(0)),
    (&[(0, 0, RINGS)], Some(0)),
    // the first section isn't that of the first cells
    (&[(2, 0, OVER), (1, 50, OVER)], Some(1)),
    (&[(0, 0, FULL), (3, 50, OVER)], Some(3)),
];

#[test]
fn more_than_64_walks_of_a_pair_are_refused(rt: HostRuntime) -> Result<(), Fail> {
    for (chains, want) in LIMITS {
        check_limit(&rt, rt.alloc(), chains, want)?;
    }
    Ok(())
}

fn check_limit(
    rt: &impl Abort,
    alloc: Global,
    chains: &[Chain],
    want: Option<u32>,
) -> Result<(), Fail> {
    let mut net = net_of(alloc, &[], &[])?;
    for chain in chains {
        push_chain(&mut net.cells, *chain)?;
    }
    let inst = built(rt, alloc, net)?;
    let refusal = Gaps::build(alloc, &inst).err();
    assert!(rt; refusal == want.map(|section| GapRefusal::TooManyWalks(SectionId(section))));
    Ok(())
}

fn push_chain(cells: &mut Vec<CellSpec>, chain: Chain) -> Result<(), AllocError> {
    let (section, node, sizes) = chain;
    let mut low = node;
    for size in sizes {
        push_bundle(cells, section, low, *size)?;
        low = low.wrapping_add(1);
    }
    Ok(())
}

fn push_bundle(
    cells: &mut Vec<CellSpec>,
    section: u32,
    low: u32,
    size: u32,
) -> Result<(), AllocError> {
    for _ in 0..size {
        cells.push(cell_of(low, low.wrapping_add(1), section))?;
    }
    Ok(())
}

#[test]
fn sixty_four_walks_are_kept(rt: HostRuntime) -> Result<(), Fail> {
    let alloc = rt.alloc();
    let mut net = net_of(alloc, &[], &[])?;
    push_chain(&mut net.cells, (0, 0, FULL))?;
    let inst = built(&rt, alloc, net)?;
    let gaps = Gaps::build(alloc, &inst)?;
    assert_eq!(&rt; gaps.walk_count(CellId(0), CellId(13)), 64);
    assert_eq!(&rt; gaps.walk_count(CellId(0), CellId(5)), 16);
    Ok(())
}
