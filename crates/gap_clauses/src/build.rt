//! How the gaps of an instance are made: by a search from each cell.
ghost use Rattle.std.specs.Prelude.{◌+◌, ◌↔◌, ℕ, IfErr, IfOk, IsTrue, None, OnOk, length};
ghost use Rattle.cell_net.specs.Rules.{IsInstance};
ghost use Rattle.cell_net.specs.Space.{IsCell};
ghost use Rattle.gap_clauses.specs.Crowds.{IsCrowded, IsGapRefusal};
ghost use Rattle.gap_clauses.specs.Fans.{AreRows};
ghost use Rattle.gap_clauses.specs.Gaps.{AreGaps};
ghost use Rattle.gap_clauses.specs.Searched.{AreSearchedBelow, IsNoHigher};

use crate::candidates::CandidateNodes;
use crate::fan::{Fan, Stop};
use crate::gaps::Gaps;
use crate::neighbours::neighbours_of;
use crate::refusal::GapRefusal;
use crate::search::{Search, fan_of};
use cell_net::{CellId, Instance, SectionId};
use std::alloc::{AllocError, Global};

impl Gaps {
    /// The gaps of the instance, unless a pair of cells has more than 64 walks. Linear in the walks, and
    /// in the steps of those that come to a node where three cells of a section meet, but for the cells'
    /// pairs.
    pub fn build(alloc: Global, inst: &Instance) -> Result<Gaps, GapRefusal>
        ensures gaps { IfOk result (AreGaps inst.now) }
        ensures few { IfOk result (λ _. (section : ℕ) → ¬ IsCrowded inst.now section) }
        ensures refusal { IfErr result (IsGapRefusal inst.now) }
    {
        let _parts = inst.parts();
        match neighbours_of(alloc, inst) {
            Ok(neighbours) => {
                let search = Search {
                    inst,
                    neighbours: &neighbours,
                };
                gaps_of(alloc, &search)
            }
            Err(_) => Err(GapRefusal::Memory),
        }
    }
}

/// The gaps, by the search from each cell.
fn gaps_of(alloc: Global, search: &Search) -> Result<Gaps, GapRefusal>
    requires rules { IsInstance search.now.inst.now }
    requires rows { AreRows search.now.inst.now search.now.neighbours.now }
    ensures gaps { IfOk result (AreGaps search.now.inst.now) }
    ensures few { IfOk result (λ _. (section : ℕ) → ¬ IsCrowded search.now.inst.now section) }
    ensures refusal { IfErr result (IsGapRefusal search.now.inst.now) }
{
    match searched(alloc, search) {
        Ok(found) => match found.lowest {
            Some(section) => Err(GapRefusal::TooManyWalks(section)),
            None => kept(alloc, search.inst, found.fans),
        },
        Err(_) => Err(GapRefusal::Memory),
    }
}

/// The fans with the candidates' nodes.
fn kept(alloc: Global, inst: &Instance, fans: Vec<Fan>) -> Result<Gaps, GapRefusal>
    requires { AreSearchedBelow inst.now (length inst.now.cells) None fans.items }
    ensures gaps { IfOk result (AreGaps inst.now) }
    ensures few { IfOk result (λ _. (section : ℕ) → ¬ IsCrowded inst.now section) }
    ensures refusal { IfErr result (IsGapRefusal inst.now) }
{
    match CandidateNodes::build(alloc, inst.parts().candidates.as_slice()) {
        Ok(candidates) => Ok(Gaps { candidates, fans }),
        Err(_) => Err(GapRefusal::Memory),
    }
}

/// What was found so far: the lowest section with a pair of cells that has too many walks, and the fans
/// of the cells, which count only while there is no such section.
#[derive(Drop)]
struct Found {
    lowest: Option<SectionId>,
    fans: Vec<Fan>,
}

/// The search from each cell.
fn searched(alloc: Global, search: &Search) -> Result<Found, AllocError>
    requires rules { IsInstance search.now.inst.now }
    requires rows { AreRows search.now.inst.now search.now.neighbours.now }
    ensures { IfOk result (λ found. AreSearchedBelow search.now.inst.now (length search.now.inst.now.cells) found.lowest found.fans.items) }
{
    let mut found = Found {
        lowest: None,
        fans: Vec::new(alloc),
    };
    for cell in 0..search.inst.cell_count() {
        search_from(alloc, search, CellId(cell), &mut found)?;
    }
    Ok(found)
}

/// The search from the cell, unless its section can't be the lowest one.
fn search_from(
    alloc: Global,
    search: &Search,
    cell: CellId,
    found: &mut Found,
) -> Result<(), AllocError>
    requires rules { IsInstance search.now.inst.now }
    requires rows { AreRows search.now.inst.now search.now.neighbours.now }
    requires cell { IsCell search.now.inst.now cell }
    requires so_far { AreSearchedBelow search.now.inst.now cell.0 found.old.lowest found.old.fans.items }
    ensures { OnOk result (AreSearchedBelow search.now.inst.now (cell.0 + 1) found.new.lowest found.new.fans.items) }
{
    let section = search.inst.cell(cell).section;
    if is_no_higher(found.lowest, section) {
        return Ok(());
    }
    match fan_of(alloc, search, cell) {
        Ok(fan) => {
            found.fans.push(fan)?;
            Ok(())
        }
        Err(Stop::TooMany) => {
            found.lowest = Some(section);
            Ok(())
        }
        Err(Stop::Memory) => Err(AllocError),
    }
}

/// Whether there is a lowest section, no higher than this one.
fn is_no_higher(lowest: Option<SectionId>, section: SectionId) -> bool
    ensures { IsTrue result ↔ IsNoHigher lowest section.0 }
{
    match lowest {
        Some(lowest) => lowest.0 <= section.0,
        None => false,
    }
}
