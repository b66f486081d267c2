//! Segments in groups, parts that fall apart, and the ends at a node. Each wanted value is read off a drawing.

use crate::ends::{End, ends_at, sorted_ends};
use crate::groups::groups_of;
use crate::parts::first_split_part;
use crate::segments::Segment;
use std::alloc::{AllocError, Global};
use std::process::Abort;
use std::test::Fail;

/// Each triple is a segment's low node, its high node and its part.
type Triples = &'static [(u32, u32, u32)];

const TOP: u32 = u32::MAX;

fn segments_of(alloc: Global, triples: Triples) -> Result<Vec<Segment>, AllocError> {
    triples
        .iter()
        .map(|&(low, high, part)| Segment { low, high, part })
        .collect(alloc)
}

fn check_groups(
    rt: &impl Abort,
    alloc: Global,
    triples: Triples,
    barriers: &[u32],
    want: &[u32],
) -> Result<(), Fail> {
    let segments = segments_of(alloc, triples)?;
    assert!(rt; segments.len() < 1000);
    let groups = groups_of(alloc, &segments, barriers)?;
    assert_eq!(rt; groups.as_slice(), want);
    Ok(())
}

// Segments, barriers, and the group of each segment.
static GROUPS: [(Triples, &[u32], &[u32]); 7] = [
    (&[], &[3], &[]),
    // a chain, from its far end on
    (&[(7, 8, 0), (5, 6, 0), (6, 7, 0)], &[], &[0, 0, 0]),
    // two parts share a node, and stay apart
    (&[(1, 2, 0), (2, 3, 1), (3, 4, 1)], &[], &[0, 1, 1]),
    // a barrier, named twice, parts a chain; the other one stands elsewhere
    (&[(1, 2, 0), (2, 3, 0), (3, 4, 0)], &[3, 9, 3], &[0, 0, 2]),
    // three legs at one node
    (&[(1, 9, 4), (2, 9, 4), (9, 3, 4)], &[], &[0, 0, 0]),
    // a ring, which one barrier does not part
    (&[(1, 2, 0), (2, 3, 0), (3, 1, 0)], &[2], &[0, 0, 0]),
    // the highest numbers
    (
        &[(0, TOP, TOP), (5, 6, TOP), (TOP, 1, TOP)],
        &[],
        &[0, 1, 0],
    ),
];

#[test]
fn groups_segments_by_the_open_nodes_that_they_share(rt: HostRuntime) -> Result<(), Fail> {
    for (triples, barriers, want) in GROUPS {
        check_groups(&rt, rt.alloc(), triples, barriers, want)?;
    }
    Ok(())
}

/// Wants the lowest part that is not connected.
fn check_split(
    rt: &impl Abort,
    alloc: Global,
    triples: Triples,
    want: Option<u32>,
) -> Result<(), Fail> {
    let segments = segments_of(alloc, triples)?;
    assert!(rt; segments.len() < 1000);
    let ends = sorted_ends(alloc, &segments)?;
    assert_eq!(rt; first_split_part(alloc, &segments, &ends)?, want);
    Ok(())
}

// Segments, and the lowest part that is not connected.
static PARTS: [(Triples, Option<u32>); 8] = [
    (&[], None),
    // two parts that share a node
    (&[(1, 2, 7), (3, 2, 7), (3, 9, 5)], None),
    // what only another part joins
    (&[(1, 2, 8), (2, 3, 4), (3, 4, 8)], Some(8)),
    // a ring with a branch in part 3, and a split in part 5
    (
        &[
            (0, 5, 5),
            (1, 2, 3),
            (2, 3, 3),
            (3, 1, 3),
            (3, 4, 3),
            (6, 7, 5),
        ],
        Some(5),
    ),
    // two rings that share a node
    (&[(1, 2, 3), (2, 1, 3), (2, 4, 3), (4, 2, 3)], None),
    // two rings that share none
    (&[(1, 2, 3), (2, 1, 3), (3, 4, 3), (4, 3, 3)], Some(3)),
    // splits in the parts 9 and 2
    (&[(1, 2, 9), (3, 4, 9), (1, 2, 2), (3, 4, 2)], Some(2)),
    // a segment from a node to itself, with the highest numbers
    (&[(1, 2, 0), (TOP, TOP, TOP)], None),
];

#[test]
fn finds_the_lowest_part_that_is_not_connected(rt: HostRuntime) -> Result<(), Fail> {
    for (triples, want) in PARTS {
        check_split(&rt, rt.alloc(), triples, want)?;
    }
    Ok(())
}

#[test]
fn gives_the_ends_at_a_node(rt: HostRuntime) -> Result<(), Fail> {
    let alloc = rt.alloc();
    let segments = segments_of(alloc, &[(7, 3, 1), (3, 5, 0), (3, 9, 0)])?;
    assert!(&rt; segments.len() < 1000);
    let ends = sorted_ends(alloc, &segments)?;
    let want = [end(0, 1), end(0, 2), end(1, 0)];
    assert_eq!(&rt; ends_at(&ends, 3), want.as_slice());
    assert_eq!(&rt; ends_at(&ends, 4).len(), 0);
    Ok(())
}

/// An end at node 3.
fn end(part: u32, place: u32) -> End {
    End {
        node: 3,
        part,
        place,
    }
}
