//! Lists at the limits of their sizes, and beyond.

use super::nets::{Asked, built, cell_of, directed, encode_asked};
use cell_net::{
    CandidateId, CellId, CellSpec, InstanceParts, NodeId, StationId, StopSpec, TrainSpec,
};
use clause_encoder::{EncodeRefusal, Encoded, encode_base};
use sat_core::{ClauseId, Formula};
use std::alloc::{AllocError, Global};
use std::process::Abort;
use std::test::Fail;
use vss_lists::Items;

/// Cells in a row that no train can go over, all in one section or each in its own; how many candidates between them, and how
/// many of these are kept; the last step of its entry and the last step of each train, which has two cells and no sweep; and how
/// many stops the last train has, each for one step at any time.
#[derive(Clone, Copy)]
struct Large {
    cells: u32,
    sections: u32,
    candidates: u32,
    kept: u32,
    trains: &'static [(u32, u32)],
    stops: u32,
}

/// How many variables and clauses there are, and how many literals in these, or else why there is no formula.
type Sizes = Result<(u32, u32, usize), EncodeRefusal>;

/// Over n cells of one section there are n * (n - 1) / 2 gaps, each with one walk, and for each step of two trains n * n clauses with
/// 3 * n * n - n literals. A train that may enter up to step l and be there up to step t has l + 1 clauses with 2 * l literals, and
/// t - 1 with two each; and (t + 1) * n + t + l variables.
const MANY_CLAUSES: Large = Large {
    cells: 90,
    sections: 1,
    candidates: 0,
    kept: 0,
    trains: &[(311, 328), (0, 328), (0, 328)],
    stops: 0,
};

/// A cell that is alone in its section has no gap, and one clause for each step of two trains.
const MANY_VARIABLES: Large = Large {
    cells: 999,
    sections: 999,
    trains: &[(5, 399), (0, 399), (0, 399), (0, 399), (0, 399)],
    ..MANY_CLAUSES
};

/// A stop for one of t + 1 steps has a clause with t + 1 literals, and t with two each. Each candidate is on the walks between the
/// cells of both its sides; the counter of n borders has 2 * n * n + n - 1 clauses.
const MANY_LITERALS: Large = Large {
    cells: 513,
    sections: 1,
    candidates: 512,
    kept: 40,
    trains: &[(0, 9), (0, 394)],
    stops: 30,
};

/// More variables, clauses and literals than there may be.
const MUCH_OF_ALL: Large = Large {
    cells: 1000,
    trains: &[(0, 399); 6],
    ..MANY_LITERALS
};

static ROWS: [(Large, Asked, Sizes); 11] = [
    (
        MANY_CLAUSES,
        Asked::Given(&[]),
        Ok((94_130, 8_000_000, 23_901_859)),
    ),
    // the unit of a bound counts, even where there is no candidate
    (
        MANY_CLAUSES,
        Asked::AtMost(0),
        Err(EncodeRefusal::TooManyClauses),
    ),
    (
        Large {
            trains: &[(310, 328), (0, 328), (0, 328)],
            ..MANY_CLAUSES
        },
        Asked::AtMost(0),
        Ok((94_129, 7_999_999, 23_901_857)),
    ),
    (
        Large {
            trains: &[(312, 328), (0, 328), (0, 328)],
            ..MANY_CLAUSES
        },
        Asked::Given(&[]),
        Err(EncodeRefusal::TooManyClauses),
    ),
    (
        MANY_VARIABLES,
        Asked::AtMost(0),
        Ok((2_000_000, 3_998_000, 7_995_990)),
    ),
    (
        Large {
            trains: &[(6, 399), (0, 399), (0, 399), (0, 399), (0, 399)],
            ..MANY_VARIABLES
        },
        Asked::Given(&[]),
        Err(EncodeRefusal::TooManyVariables),
    ),
    (
        MANY_LITERALS,
        Asked::AtMost(0),
        Ok((483_186, 3_300_111, 32_000_000)),
    ),
    // the unit of a bound counts, whatever the bound is
    (
        MANY_LITERALS,
        Asked::AtMost(512),
        Ok((483_186, 3_300_110, 31_999_999)),
    ),
    (
        Large {
            kept: 41,
            ..MANY_LITERALS
        },
        Asked::AtMost(512),
        Err(EncodeRefusal::TooManyLiterals),
    ),
    (
        Large {
            trains: &[(0, 99); 4],
            ..MANY_LITERALS
        },
        Asked::AtMost(0),
        Err(EncodeRefusal::TooManyClauses),
    ),
    (
        MUCH_OF_ALL,
        Asked::AtMost(0),
        Err(EncodeRefusal::TooManyVariables),
    ),
];

#[test]
fn lists_are_refused_beyond_their_limits(rt: HostRuntime) -> Result<(), Fail> {
    for &(large, asked, want) in ROWS.iter() {
        assert!(rt; large_sizes(&rt, rt.alloc(), large, asked)? == want);
    }
    Ok(())
}

fn large_sizes(rt: &impl Abort, alloc: Global, large: Large, asked: Asked) -> Result<Sizes, Fail> {
    let inst = built(rt, alloc, large_parts(alloc, large)?)?;
    Ok(sizes_of(rt, encode_asked(rt, alloc, &inst, asked)?))
}

// A base has the clauses of a free task but its counter and its bound, and its own count of variables.
#[test]
fn a_base_is_refused_beyond_its_limits(rt: HostRuntime) -> Result<(), Fail> {
    for &(large, more, want) in BASES.iter() {
        assert!(rt; base_sizes(&rt, rt.alloc(), large, more)? == want);
    }
    Ok(())
}

fn base_sizes(rt: &impl Abort, alloc: Global, large: Large, more: u32) -> Result<Sizes, Fail> {
    let inst = built(rt, alloc, large_parts(alloc, large)?)?;
    Ok(sizes_of(rt, encode_base(alloc, &inst, more)))
}

/// Three cells with a candidate between each two, and no train.
const SMALL: Large = Large {
    cells: 3,
    candidates: 2,
    trains: &[],
    ..MANY_CLAUSES
};

static BASES: [(Large, u32, Sizes); 5] = [
    (SMALL, 1_999_995, Ok((2_000_000, 3, 7))),
    (SMALL, 1_999_996, Err(EncodeRefusal::TooManyVariables)),
    (SMALL, 4_294_967_295, Err(EncodeRefusal::TooManyVariables)),
    (MANY_CLAUSES, 0, Ok((94_130, 8_000_000, 23_901_859))),
    (
        Large {
            trains: &[(312, 328), (0, 328), (0, 328)],
            ..MANY_CLAUSES
        },
        0,
        Err(EncodeRefusal::TooManyClauses),
    ),
];

fn sizes_of(rt: &impl Abort, found: Result<Encoded, EncodeRefusal>) -> Sizes {
    let found = found?;
    let formula = &found.formula;
    Ok((formula.vars(), formula.len(), literals_of(rt, formula)))
}

fn literals_of(rt: &impl Abort, formula: &Formula) -> usize {
    let mut count: usize = 0;
    for id in 1..formula.len().wrapping_add(1) {
        assert!(rt; 0 < id && id <= formula.len());
        count = count.wrapping_add(formula.clause(ClauseId(id)).len());
    }
    count
}

fn large_parts(alloc: Global, large: Large) -> Result<InstanceParts, AllocError> {
    Ok(InstanceParts {
        nodes: 1001,
        sections: large.sections,
        cells: large_cells(alloc, large)?,
        joins: Items::new(alloc),
        candidates: first_candidates(alloc, large.candidates)?,
        kept: first_kept(alloc, large.kept)?,
        stations: first_cell(alloc)?,
        trains: large_trains(alloc, large)?,
        steps: 400,
    })
}

fn large_cells(alloc: Global, large: Large) -> Result<Items<CellSpec>, AllocError> {
    let mut cells = Items::new(alloc);
    for cell in 0..large.cells {
        let section = if large.sections == 1 { 0 } else { cell };
        cells.push(cell_of(cell, cell.wrapping_add(1), section))?;
    }
    Ok(cells)
}

fn first_candidates(alloc: Global, count: u32) -> Result<Items<NodeId>, AllocError> {
    let mut candidates = Items::new(alloc);
    for place in 0..count {
        candidates.push(NodeId(place.wrapping_add(1)))?;
    }
    Ok(candidates)
}

fn first_kept(alloc: Global, count: u32) -> Result<Items<CandidateId>, AllocError> {
    let mut kept = Items::new(alloc);
    for place in 0..count {
        kept.push(CandidateId(place))?;
    }
    Ok(kept)
}

fn first_cell(alloc: Global) -> Result<Items<Items<CellId>>, AllocError> {
    let mut cells = Items::new(alloc);
    cells.push(CellId(0))?;
    let mut stations = Items::new(alloc);
    stations.push(cells)?;
    Ok(stations)
}

fn large_trains(alloc: Global, large: Large) -> Result<Items<TrainSpec>, AllocError> {
    let mut trains = Items::new(alloc);
    for (place, &(latest, by)) in large.trains.iter().enumerate() {
        let is_last = place.wrapping_add(1) == large.trains.len();
        let stops = if is_last { large.stops } else { 0 };
        trains.push(TrainSpec {
            length: 2,
            advance: 1,
            entry: directed((0, true)),
            goal: directed((1, true)),
            start: 0,
            latest,
            by,
            stops: wide_stops(alloc, stops, by)?,
        })?;
    }
    Ok(trains)
}

/// So many stops for one step up to that one.
fn wide_stops(alloc: Global, count: u32, by: u32) -> Result<Items<StopSpec>, AllocError> {
    let mut stops = Items::new(alloc);
    for _ in 0..count {
        stops.push(StopSpec {
            station: StationId(0),
            from: 0,
            until: by.wrapping_add(1),
            dwell: 1,
        })?;
    }
    Ok(stops)
}
