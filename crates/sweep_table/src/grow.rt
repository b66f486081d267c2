//! Sweeps grown cell by cell, from every directed cell along the passages.
ghost use Rattle.std.specs.Prelude.{◌≡◌, ◌≤◌, ◌<◌, ◌+◌, ◌-◌, ◌^◌, ◌++◌, ◌∷◌, [], true, false, All, IfErr, IfOk, OnOk, length, nat_le};
ghost use Rattle.cell_net.specs.Space.{IsCell};
ghost use Rattle.sweep_table.specs.Reach.{IsReach};
ghost use Rattle.sweep_table.specs.Growing.{AreAfter, IsGrowthFault, all_grown, branch, directed, grown, path_has_cell, cell_limit, may_go_on, sweeps_below};

use crate::order::directed_number;
use crate::reach::reach_of;
use crate::refusal::TableRefusal;
use crate::successors::{highward, lowward};
use cell_net::{DirCell, Instance};
use std::alloc::{AllocError, Global};
use vss_rows::Rows;

/// No table has more sweeps.
const SWEEPS: usize = 50_000;

/// What paths of so many cells grow along: the instance, what follows each directed cell, and the train's
/// length.
#[derive(Drop)]
pub(crate) struct Growth<'a> {
    pub inst: &'a Instance,
    pub after: &'a Rows<DirCell>,
    pub train: u32,
    pub count: u32,
}

/// Every path of the train's length and an advance below this one, over which the train may advance
/// so far: by the advance, then by the numbers. No path is lengthened from which no way is long enough; so
/// where no way comes back to a cell, it is linear in the directed cells of what is found, times the cells of
/// a path.
pub(crate) fn gather(
    alloc: Global,
    inst: &Instance,
    after: &Rows<DirCell>,
    train: u32,
    advances: u32,
) -> Result<Rows<DirCell>, TableRefusal>
    requires after { AreAfter inst.now after.now }
    requires few { train + advances < 2 ^ 32 }
    ensures few { IfOk result (λ sweeps. length sweeps ≤ 50000) }
    ensures ok { IfOk result (λ sweeps. sweeps ≡ sweeps_below inst.now train after.now advances) }
    ensures err { IfErr result (IsGrowthFault [] (sweeps_below inst.now train after.now advances)) }
{
    let mut sweeps = Rows::new(alloc);
    for advance in 0..advances {
        let growth = Growth {
            inst,
            after,
            train,
            count: train + advance,
        };
        match grow_all(alloc, &growth, &mut sweeps) {
            Ok(()) => {}
            Err(refusal) => return Err(refusal),
        }
    }
    Ok(sweeps)
}

/// Appends every path of so many cells over which the train may advance so far, by their numbers.
fn grow_all(alloc: Global, growth: &Growth, sweeps: &mut Rows<DirCell>) -> Result<(), TableRefusal>
    requires after { AreAfter growth.now.inst.now growth.now.after.now }
    requires few { length sweeps.old ≤ 50000 }
    ensures few { OnOk result (length sweeps.new ≤ 50000) }
    ensures ok { OnOk result (sweeps.new ≡ sweeps.old ++ all_grown growth.now.inst.now growth.now.train growth.now.after.now growth.now.count) }
    ensures err { IfErr result (IsGrowthFault sweeps.old (all_grown growth.now.inst.now growth.now.train growth.now.after.now growth.now.count)) }
{
    let starts = match directed_of(alloc, growth.inst) {
        Ok(starts) => starts,
        Err(_) => return Err(TableRefusal::Memory),
    };
    match reach_of(alloc, growth) {
        Ok(reach) => {
            let mut path = Vec::new(alloc);
            grow(growth, &reach, growth.count, &starts, &mut path, sweeps)
        }
        Err(_) => Err(TableRefusal::Memory),
    }
}

/// All directed cells, by their numbers.
fn directed_of(alloc: Global, inst: &Instance) -> Result<Vec<DirCell>, AllocError>
    ensures all { IfOk result (λ all. all.items ≡ directed (length inst.now.cells)) }
    ensures cells { IfOk result (λ all. All (λ d. IsCell inst.now d.cell) all.items) }
{
    let mut all = Vec::new(alloc);
    for cell in 0..inst.cell_count() {
        all.push(lowward(cell))?;
        all.push(highward(cell))?;
    }
    Ok(all)
}

/// Appends every path to be of so many cells that lengthens this one by so many, first over one of
/// the next directed cells.
fn grow(
    growth: &Growth,
    reach: &[u32],
    more: u32,
    next: &[DirCell],
    path: &mut Vec<DirCell>,
    sweeps: &mut Rows<DirCell>,
) -> Result<(), TableRefusal>
    requires after { AreAfter growth.now.inst.now growth.now.after.now }
    requires reach { IsReach growth.now.inst.now growth.now.train growth.now.after.now growth.now.count growth.now.count reach.now }
    requires within { more ≤ growth.now.count }
    requires next { All (λ d. IsCell growth.now.inst.now d.cell) next.now }
    requires few { length sweeps.old ≤ 50000 }
    ensures few { OnOk result (length sweeps.new ≤ 50000) }
    ensures path { OnOk result (path.new.items ≡ path.old.items) }
    ensures ok { OnOk result (sweeps.new ≡ sweeps.old ++ grown growth.now.inst.now growth.now.train growth.now.after.now growth.now.count more next.now path.old.items) }
    ensures err { IfErr result (IsGrowthFault sweeps.old (grown growth.now.inst.now growth.now.train growth.now.after.now growth.now.count more next.now path.old.items)) }
{
    if more == 0 {
        return keep(path, sweeps);
    }
    for place in 0..next.len() {
        let directed = next[place];
        if is_open(growth, reach, more, path, directed) {
            match path.push(directed) {
                Ok(()) => {}
                Err(_) => return Err(TableRefusal::Memory),
            }
            let after = growth.after.row(directed_number(directed));
            match grow(growth, reach, more - 1, after, path, sweeps) {
                Ok(()) => {}
                Err(refusal) => return Err(refusal),
            }
            path.pop();
        }
    }
    Ok(())
}

/// Keeps the path as a sweep, if there are not too many.
#[tactic(auto, unfolding(crate::specs::Growing::grown))]
fn keep(path: &[DirCell], sweeps: &mut Rows<DirCell>) -> Result<(), TableRefusal>
    ensures few { OnOk result (length sweeps.new ≤ 50000) }
    ensures ok { OnOk result (sweeps.new ≡ sweeps.old ++ path.now ∷ []) }
    ensures err { IfErr result (IsGrowthFault sweeps.old (path.now ∷ [])) }
{
    if sweeps.len() >= SWEEPS {
        return Err(TableRefusal::TooManySweeps);
    }
    match sweeps.push(path) {
        Ok(()) => Ok(()),
        Err(_) => Err(TableRefusal::Memory),
    }
}

/// Whether the path may go on with the directed cell and can be long enough then, by so many cells: where it
/// can't, nothing comes of it.
fn is_open(growth: &Growth, reach: &[u32], more: u32, path: &[DirCell], directed: DirCell) -> bool
    requires cell { IsCell growth.now.inst.now directed.cell }
    requires reach { IsReach growth.now.inst.now growth.now.train growth.now.after.now growth.now.count growth.now.count reach.now }
    requires within { more ≤ growth.now.count }
    ensures open { result ≡ true → may_go_on growth.now.inst.now growth.now.train growth.now.count path.now directed ≡ true }
    ensures closed { result ≡ false → branch growth.now.inst.now growth.now.train growth.now.after.now growth.now.count (grown growth.now.inst.now growth.now.train growth.now.after.now growth.now.count (more - 1)) path.now directed ≡ [] }
{
    if may_go_on(growth, path, directed) {
        more <= reach[directed_number(directed)]
    } else {
        false
    }
}

/// Whether the path to be of so many cells may go on with the directed cell: it doesn't have its
/// cell, and the train may advance so far over it.
#[tactic(auto, unfolding(crate::specs::Growing::may_go_on))]
fn may_go_on(growth: &Growth, path: &[DirCell], directed: DirCell) -> bool
    requires { IsCell growth.now.inst.now directed.cell }
    ensures { result ≡ may_go_on growth.now.inst.now growth.now.train growth.now.count path.now directed }
{
    !path_has_cell(path, directed) && is_within_limit(growth, directed)
}

fn path_has_cell(path: &[DirCell], directed: DirCell) -> bool
    ensures { result ≡ path_has_cell path.now directed }
{
    path.iter().any(|d| d.cell.0 == directed.cell.0)
}

/// Whether the train may advance so far over the directed cell.
pub(crate) fn is_within_limit(growth: &Growth, directed: DirCell) -> bool
    requires { IsCell growth.now.inst.now directed.cell }
    ensures { result ≡ nat_le growth.now.count (growth.now.train + cell_limit growth.now.inst.now directed) }
{
    let limit = growth.inst.cell(directed.cell).limit;
    u64::from(growth.count) <= u64::from(growth.train) + u64::from(limit)
}
