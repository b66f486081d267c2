//! How far paths can go on from each directed cell: none grows where it can't become long enough.
ghost use Rattle.std.specs.Prelude.{ℕ, ◌≤◌, ◌<◌, ◌+◌, ◌*◌, All, IfOk, length};
ghost use Rattle.cell_net.specs.Space.{IsCell};
ghost use Rattle.sweep_table.specs.Growing.{AreAfter};
ghost use Rattle.sweep_table.specs.Order.{directed_number};
ghost use Rattle.sweep_table.specs.Reach.{IsDeadEnd, IsReach, IsReachBelow, reach_of};

use crate::grow::{Growth, is_within_limit};
use crate::order::directed_number;
use crate::successors::{highward, lowward};
use cell_net::DirCell;
use std::alloc::{AllocError, Global};

/// For each directed cell, by its number, how many cells can stand one behind the other from it on, over
/// which the train may advance so far, up to the growth's count; a cell may come twice. Linear in the
/// count, times the directed cells and what follows them.
pub(crate) fn reach_of(alloc: Global, growth: &Growth) -> Result<Vec<u32>, AllocError>
    requires { AreAfter growth.now.inst.now growth.now.after.now }
    ensures { IfOk result (λ reach. IsReach growth.now.inst.now growth.now.train growth.now.after.now growth.now.count growth.now.count reach.items) }
{
    let mut reach = vec![in alloc; 0; 2 * growth.inst.cell_count() as usize]?;
    for round in 0..growth.count {
        lengthen_all(growth, round, &mut reach);
    }
    Ok(reach)
}

/// One cell more than in the rounds before.
fn lengthen_all(growth: &Growth, round: u32, reach: &mut [u32])
    requires after { AreAfter growth.now.inst.now growth.now.after.now }
    requires round { round < growth.now.count }
    requires so_far { IsReach growth.now.inst.now growth.now.train growth.now.after.now growth.now.count round reach.old }
    ensures { IsReach growth.now.inst.now growth.now.train growth.now.after.now growth.now.count (round + 1) reach.new }
{
    for cell in 0..growth.inst.cell_count() {
        lengthen(growth, round, lowward(cell), reach);
        lengthen(growth, round, highward(cell), reach);
    }
}

/// The same for one directed cell.
fn lengthen(growth: &Growth, round: u32, directed: DirCell, reach: &mut [u32])
    requires after { AreAfter growth.now.inst.now growth.now.after.now }
    requires cell { IsCell growth.now.inst.now directed.cell }
    requires round { round < growth.now.count }
    requires so_far { IsReachBelow growth.now.inst.now growth.now.train growth.now.after.now growth.now.count round (directed_number directed) reach.old }
    ensures { IsReachBelow growth.now.inst.now growth.now.train growth.now.after.now growth.now.count round (directed_number directed + 1) reach.new }
{
    reach[directed_number(directed)] = longer(growth, round, directed, reach);
}

/// How many cells can stand one behind the other from the directed cell on, at most one more than in the
/// rounds before.
fn longer(growth: &Growth, round: u32, directed: DirCell, reach: &[u32]) -> u32
    requires after { AreAfter growth.now.inst.now growth.now.after.now }
    requires cell { IsCell growth.now.inst.now directed.cell }
    requires round { round < growth.now.count }
    requires so_far { IsReachBelow growth.now.inst.now growth.now.train growth.now.after.now growth.now.count round (directed_number directed) reach.now }
    ensures { (more : ℕ) → more ≤ round + 1 → result < more → IsDeadEnd growth.now.inst.now growth.now.train growth.now.after.now growth.now.count more directed }
{
    if !is_within_limit(growth, directed) {
        return 0;
    }
    let next = growth.after.row(directed_number(directed));
    let furthest = furthest_of(next, reach);
    if furthest < round {
        furthest + 1
    } else {
        round + 1
    }
}

/// The highest number of these directed cells, 0 where there is none.
fn furthest_of(next: &[DirCell], reach: &[u32]) -> u32
    requires { All (λ d. directed_number d < length reach.now) next.now }
    ensures { All (λ d. reach_of reach.now d ≤ result) next.now }
{
    let mut furthest = 0;
    for place in 0..next.len() {
        let number = reach[directed_number(next[place])];
        if number > furthest {
            furthest = number;
        }
    }
    furthest
}
