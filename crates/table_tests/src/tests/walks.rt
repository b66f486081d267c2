//! The candidates on each walk between two cells.

use super::nets::{Cells, built, net_of};
use cell_net::{CandidateId, CellId};
use gap_clauses::Gaps;
use std::alloc::Global;
use std::process::Abort;
use std::test::Fail;

/// The cells, the nodes of the candidates, two cells, and the candidates of each walk from the one to the
/// other.
type Row = (
    Cells<'static>,
    &'static [u32],
    (u32, u32),
    &'static [&'static [u32]],
);

/// Three cells in a row.
const LINE: Cells = &[(0, 1, 0), (1, 2, 0), (2, 3, 0)];

/// A way in, cell 0; two ways round, cells 1 and 2 and cells 3 and 4; and a way out, cell 5.
const RING: Cells = &[
    (0, 1, 0),
    (1, 2, 0),
    (2, 3, 0),
    (1, 4, 0),
    (4, 3, 0),
    (3, 5, 0),
];

/// Two ways round, of which the one over the higher cells goes over the lower nodes.
const CROSSED: Cells = &[(0, 1, 0), (1, 3, 0), (1, 2, 0), (2, 3, 0)];

/// A tip, cell 0, and two legs, cells 1 and 2 and cells 3 and 4.
const POINT: Cells = &[(0, 1, 0), (1, 2, 0), (2, 4, 0), (1, 3, 0), (3, 5, 0)];

/// Four cells in a row, with nodes of high numbers.
const FAR: Cells = &[(0, 4095, 0), (4095, 4096, 0), (4096, 9999, 0), (9999, 1, 0)];

static ROWS: [Row; 17] = [
    (LINE, &[1, 2], (0, 2), &[&[0, 1]]),
    (LINE, &[1, 2], (2, 0), &[&[0, 1]]),
    (LINE, &[1, 2], (1, 2), &[&[1]]),
    (LINE, &[1, 2], (1, 1), &[&[]]),
    (LINE, &[], (0, 2), &[&[]]),
    // both ways round
    (RING, &[2, 4], (0, 5), &[&[0], &[1]]),
    // straight on, and back round the ring
    (RING, &[2, 4], (0, 1), &[&[], &[0, 1]]),
    // the way back round the ring begins with the lower node, and comes first
    (RING, &[2, 4], (1, 2), &[&[1], &[0]]),
    (RING, &[2, 4], (2, 1), &[&[0], &[1]]),
    // the way over node 2 comes before the way over node 3, though its cell is the higher one
    (CROSSED, &[2, 3], (0, 3), &[&[0], &[1]]),
    // from leg to leg, past the point
    (POINT, &[2, 3], (2, 4), &[&[0, 1]]),
    (POINT, &[2, 3], (1, 3), &[&[]]),
    // nodes on both sides of the number from which on they are searched for, and the last one alone
    (FAR, &[4095, 4096, 9999], (0, 3), &[&[0, 1, 2]]),
    (FAR, &[9999], (0, 3), &[&[0]]),
    (FAR, &[4095], (3, 0), &[&[0]]),
    (FAR, &[], (0, 3), &[&[]]),
    // cells of two sections
    (&[(0, 1, 0), (1, 2, 1)], &[], (0, 1), &[]),
];

#[test]
fn each_walk_has_its_candidates(rt: HostRuntime) -> Result<(), Fail> {
    for row in ROWS {
        check_row(&rt, rt.alloc(), row)?;
    }
    Ok(())
}

fn check_row(rt: &impl Abort, alloc: Global, row: Row) -> Result<(), Fail> {
    let (cells, candidates, ends, walks) = row;
    let inst = built(rt, alloc, net_of(alloc, cells, candidates)?)?;
    let gaps = Gaps::build(alloc, &inst)?;
    let (e, f) = (CellId(ends.0), CellId(ends.1));
    assert_eq!(rt; gaps.walk_count(e, f) as usize, walks.len());
    for walk in 0..gaps.walk_count(e, f) {
        let want = walks[walk as usize];
        assert_eq!(rt; gaps.candidate_count(e, f, walk) as usize, want.len());
        let mut found = Vec::new(alloc);
        gaps.put_walk(e, f, walk, &mut found)?;
        check_walk(rt, &found, want);
    }
    Ok(())
}

fn check_walk(rt: &impl Abort, found: &[CandidateId], want: &[u32]) {
    assert_eq!(rt; found.len(), want.len());
    for place in 0..want.len() {
        assert_eq!(rt; found[place].0, want[place]);
    }
}
