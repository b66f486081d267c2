//! Which borders are refused.

use super::changes::Change::{Candidates, Cells, Kept};
use super::changes::{Change, NO_CELLS, build};
use cell_net::LayoutRefusal::{NotRising, OutOfRange};
use cell_net::{CandidateId, Instance, Layout, LayoutRefusal};
use std::alloc::{AllocError, Global};
use std::process::Abort;
use std::test::Fail;

/// Borders, and what is answered to them.
type Row = (&'static [u32], Result<(), LayoutRefusal>);

fn borders_of(alloc: Global, borders: &[u32]) -> Result<Vec<CandidateId>, AllocError> {
    borders
        .iter()
        .map(|&border| CandidateId(border))
        .collect(alloc)
}

/// What is answered to the borders.
fn layout_of(
    rt: &impl Abort,
    alloc: Global,
    inst: &Instance,
    borders: &[u32],
) -> Result<Result<Layout, LayoutRefusal>, AllocError> {
    let borders = borders_of(alloc, borders)?;
    assert!(rt; borders.len() < 100);
    Ok(Layout::new(inst, borders))
}

const FIVE_CELLS: &[&[Change]] = &[NO_CELLS, &[Cells(5)]];

/// Five cells in a row, with these candidates and kept ones.
fn five_cells(rt: &impl Abort, alloc: Global, candidates: &[Change]) -> Result<Instance, Fail> {
    Ok(build(rt, alloc, FIVE_CELLS, candidates)??)
}

/// Wants the answer of each row.
fn check_rows(rt: &impl Abort, alloc: Global, inst: &Instance, rows: &[Row]) -> Result<(), Fail> {
    for place in 0..rows.len() {
        let (borders, want) = rows[place];
        let found = answer(rt, alloc, inst, borders)?;
        assert_eq!(rt; found, want, "row {place}");
    }
    Ok(())
}

/// Whether the borders are refused, and why; of a layout its borders have to be these.
fn answer(
    rt: &impl Abort,
    alloc: Global,
    inst: &Instance,
    borders: &[u32],
) -> Result<Result<(), LayoutRefusal>, AllocError> {
    match layout_of(rt, alloc, inst, borders)? {
        Ok(layout) => {
            let borders = borders_of(alloc, borders)?;
            assert_eq!(rt; layout.borders(), borders.as_slice());
            Ok(Ok(()))
        }
        Err(refusal) => Ok(Err(refusal)),
    }
}

static ROWS: [Row; 19] = [
    (&[], Ok(())),
    (&[0], Ok(())),
    (&[1, 3], Ok(())),
    (&[0, 1, 2, 3], Ok(())),
    // the last candidate, and one past it
    (&[3], Ok(())),
    (&[4], Err(OutOfRange(0))),
    (&[0, 3, 4], Err(OutOfRange(2))),
    (&[u32::MAX], Err(OutOfRange(0))),
    // two out of range
    (&[2, 4, 5], Err(OutOfRange(1))),
    // not rising, and the same once more
    (&[1, 0], Err(NotRising(1))),
    (&[2, 2], Err(NotRising(1))),
    (&[0, 1, 1], Err(NotRising(2))),
    (&[0, 2, 1, 3], Err(NotRising(2))),
    // two that don't rise
    (&[3, 2, 1], Err(NotRising(1))),
    (&[0, 3, 3, 2], Err(NotRising(2))),
    // not rising, and out of range before that, there and after that
    (&[4, 0], Err(NotRising(1))),
    (&[4, 4], Err(NotRising(1))),
    (&[1, 0, 4], Err(NotRising(1))),
    (&[4, 5, 6, 0], Err(NotRising(3))),
];

#[test]
fn borders_rise_and_are_candidates(rt: HostRuntime) -> Result<(), Fail> {
    let inst = five_cells(&rt, rt.alloc(), &[Candidates(4)])?;
    check_rows(&rt, rt.alloc(), &inst, &ROWS)
}

static WITHOUT_CANDIDATES: [Row; 3] = [
    (&[], Ok(())),
    (&[0], Err(OutOfRange(0))),
    (&[0, 0], Err(NotRising(1))),
];

#[test]
fn without_candidates_the_empty_list_alone_is_taken(rt: HostRuntime) -> Result<(), Fail> {
    let inst = five_cells(&rt, rt.alloc(), &[])?;
    check_rows(&rt, rt.alloc(), &inst, &WITHOUT_CANDIDATES)
}

static WITHOUT_THE_KEPT: [Row; 2] = [(&[], Ok(())), (&[0], Ok(()))];

#[test]
fn borders_without_the_kept_one_are_taken(rt: HostRuntime) -> Result<(), Fail> {
    let inst = five_cells(&rt, rt.alloc(), &[Candidates(4), Kept(1)])?;
    check_rows(&rt, rt.alloc(), &inst, &WITHOUT_THE_KEPT)
}

#[test]
fn a_layout_has_its_borders_alone(rt: HostRuntime) -> Result<(), Fail> {
    let inst = five_cells(&rt, rt.alloc(), &[Candidates(4)])?;
    let layout = layout_of(&rt, rt.alloc(), &inst, &[0, 3])??;
    for border in 0..5 {
        let want = border == 0 || border == 3;
        assert_eq!(rt; layout.has(CandidateId(border)), want, "border {border}");
    }
    Ok(())
}
