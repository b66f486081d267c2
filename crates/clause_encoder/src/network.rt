//! The numbers of a network's variables: of its borders and of the gaps between its cells.
ghost use Rattle.std.specs.Prelude.{◌≡◌, ◌<◌, ◌≤◌, ◌+◌, ◌++◌, ◌∷◌, [], length, map, filter, drop, slice_index, OnOk, IfOk};
ghost use Rattle.std.specs.Prelude.{All, nat_eq};
ghost use Rattle.std.specs.List.{position_or_len};
ghost use Rattle.clause_list.specs.Ranges.{below};
ghost use Rattle.clause_list.specs.Numbers.{Network, is_same_section, section_of, above, gap, first_of_trains};
ghost use Rattle.clause_list.specs.Orders.{place_in_section, first_gap};
ghost use Rattle.clause_list.specs.Coding.{network_of};
ghost use Rattle.clause_encoder.specs.NetworkStore.{sections_alone};
ghost use Rattle.clause_encoder.specs.PairFitting.{IsOfSection, IsAbove};

use cell_net::{CandidateId, CellId, Instance};
use std::alloc::{AllocError, Global};
use std::marker::Model;
use vss_lists::Items;
use vss_rows::Rows;

/// The numbers of a network's borders and gaps. It takes four bytes for each two cells of a section, and some for each cell.
#[derive(Debug, Drop)]
pub struct NetworkNumbers {
    sections: Vec<u32>,
    candidates: u32,
    kept: Items<CandidateId>,
    // for each cell the cells of its section, its place among them, and the gap to the next of them
    rows: Rows<u32>,
    places: Vec<u32>,
    first_gaps: Vec<u32>,
    behind: u32,
}

impl Model for NetworkNumbers {
    ghost use Rattle.clause_list.specs.Numbers.{Network};
    ghost use Rattle.clause_encoder.specs.NetworkStore.{IsNetworkStore};

    ghost Value = { Network };

    ghost view = { λ n. record { sections = n.sections.items; candidates = n.candidates; kept = n.kept } };

    ghost invariant = { λ n. IsNetworkStore (record { sections = n.sections.items; candidates = n.candidates; kept = n.kept }) n.rows n.places.items n.first_gaps.items n.behind };
}

impl NetworkNumbers {
    /// Of the instance; quadratic in its cells.
    pub fn build(alloc: Global, inst: &Instance) -> Result<NetworkNumbers, AllocError>
        ensures { IfOk result (λ net. net ≡ network_of inst.now) }
    {
        let candidates = inst.candidate_count();
        let sections = sections_of(alloc, inst)?;
        let rows = rows_of(alloc, &sections)?;
        let places = places_of(alloc, &sections, &rows)?;
        let (first_gaps, behind) = gaps_of(alloc, &sections, candidates, &rows, &places)?;
        let mut kept = Vec::new(alloc);
        kept.extend_from_slice(inst.kept())?;
        Ok(NetworkNumbers {
            sections,
            candidates,
            kept: Items::from_vec(kept),
            rows,
            places,
            first_gaps,
            behind,
        })
    }

    /// How many cells there are.
    pub fn cell_count(&self) -> u32
        ensures value { result ≡ length self.now.sections }
        ensures few { length self.now.sections ≤ 1000 }
    {
        self.sections.len() as u32
    }

    /// How many candidates there are.
    pub fn candidate_count(&self) -> u32
        ensures value { result ≡ self.now.candidates }
        ensures few { self.now.candidates ≤ 512 }
    {
        self.candidates
    }

    /// The candidates whose border is kept, rising.
    pub fn kept(&self) -> &[CandidateId]
        ensures { result.now ≡ self.now.kept }
    {
        self.kept.as_slice()
    }

    /// The cells of the cell's section, rising.
    pub fn section_of(&self, cell: u32) -> &[u32]
        requires { cell < length self.now.sections }
        ensures value { result.now ≡ section_of self.now cell }
        ensures cells { All (IsOfSection self.now cell) (section_of self.now cell) }
    {
        self.rows.row(cell as usize)
    }

    /// Those of them above the cell.
    pub fn above(&self, cell: u32) -> &[u32]
        requires { cell < length self.now.sections }
        ensures value { result.now ≡ above self.now cell }
        ensures cells { All (IsAbove self.now cell) (above self.now cell) }
    {
        behind(self.section_of(cell), self.places[cell as usize])
    }

    /// The variable of the gap between two cells of a section, of which the first is the lower one; in constant time.
    pub fn gap(&self, cell: u32, other: u32) -> u32
        requires order { cell < other }
        requires within { other < length self.now.sections }
        requires section { slice_index self.now.sections cell ≡ slice_index self.now.sections other }
        ensures { result ≡ gap self.now cell other }
    {
        self.first_gaps[cell as usize]
            + (self.places[other as usize] - self.places[cell as usize] - 1)
    }

    /// The number of the first variable of the first train.
    pub fn first_of_trains(&self) -> u32
        ensures { result ≡ first_of_trains self.now }
    {
        self.behind
    }
}

// The items behind the one at that place.
fn behind<'a>(items: &'a [u32], place: u32) -> &'a [u32]
    requires { place < length items.now }
    ensures { result.now ≡ drop (place + 1) items.now }
{
    &items[place as usize + 1..]
}

// The section of each cell.
fn sections_of(alloc: Global, inst: &Instance) -> Result<Vec<u32>, AllocError>
    ensures value { IfOk result (λ sections. sections.items ≡ map (λ c. c.section.0) inst.now.cells) }
    ensures few { IfOk result (λ sections. length sections.items ≤ 1000) }
{
    let count = inst.cell_count();
    let mut sections = Vec::new(alloc);
    sections.reserve(count as usize)?;
    for cell in 0..count {
        sections.push(inst.cell(CellId(cell)).section.0)?;
    }
    Ok(sections)
}

// For each cell the cells of its section.
fn rows_of(alloc: Global, sections: &[u32]) -> Result<Rows<u32>, AllocError>
    requires { length sections.now ≤ 1000 }
    ensures { IfOk result (λ rows. rows ≡ map (section_of (sections_alone sections.now)) (below (length sections.now))) }
{
    let mut rows = Rows::new(alloc);
    for cell in 0..sections.len() {
        let row = row_of(alloc, sections, cell)?;
        rows.push(&row)?;
    }
    Ok(rows)
}

// The cells of the cell's section.
fn row_of(alloc: Global, sections: &[u32], cell: usize) -> Result<Vec<u32>, AllocError>
    requires few { length sections.now ≤ 1000 }
    requires within { cell < length sections.now }
    ensures { IfOk result (λ row. row.items ≡ section_of (sections_alone sections.now) cell) }
{
    let mut row = Vec::new(alloc);
    for other in 0..sections.len() {
        push_if_same(sections, cell, other, &mut row)?;
    }
    Ok(row)
}

// Appends the other cell, if both are of one section.
fn push_if_same(
    sections: &[u32],
    cell: usize,
    other: usize,
    row: &mut Vec<u32>,
) -> Result<(), AllocError>
    requires few { length sections.now ≤ 1000 }
    requires within { cell < length sections.now }
    requires other { other < length sections.now }
    ensures { OnOk result (row.new.items ≡ row.old.items ++ filter (is_same_section (sections_alone sections.now) cell) (other ∷ [])) }
{
    if sections[cell] == sections[other] {
        row.push(other as u32)?;
    }
    Ok(())
}

// For each cell its place among those of its section.
fn places_of(alloc: Global, sections: &[u32], rows: &Rows<u32>) -> Result<Vec<u32>, AllocError>
    requires few { length sections.now ≤ 1000 }
    requires rows { rows.now ≡ map (section_of (sections_alone sections.now)) (below (length sections.now)) }
    ensures { IfOk result (λ places. places.items ≡ map (place_in_section (sections_alone sections.now)) (below (length sections.now))) }
{
    let mut places = Vec::new(alloc);
    for cell in 0..sections.len() {
        places.push(place_of(rows.row(cell), cell as u32))?;
    }
    Ok(places)
}

// The place of the item, or their number where it isn't one of them.
fn place_of(items: &[u32], item: u32) -> u32
    requires { length items.now ≤ 1000 }
    ensures { result ≡ position_or_len (nat_eq item) items.now }
{
    for place in 0..items.len() {
        if items[place] == item {
            return place as u32;
        }
    }
    items.len() as u32
}

// For each cell the number of the gap to the next cell of its section, and the number behind all gaps.
fn gaps_of(
    alloc: Global,
    sections: &[u32],
    candidates: u32,
    rows: &Rows<u32>,
    places: &[u32],
) -> Result<(Vec<u32>, u32), AllocError>
    requires few { length sections.now ≤ 1000 }
    requires few_candidates { candidates ≤ 512 }
    requires rows { rows.now ≡ map (section_of (sections_alone sections.now)) (below (length sections.now)) }
    requires places { places.now ≡ map (place_in_section (sections_alone sections.now)) (below (length sections.now)) }
    ensures gaps { IfOk result (λ gaps. gaps.0.items ≡ map (first_gap (record { sections = sections.now; candidates = candidates; kept = [] })) (below (length sections.now))) }
    ensures behind { IfOk result (λ gaps. gaps.1 ≡ first_of_trains (record { sections = sections.now; candidates = candidates; kept = [] })) }
{
    let mut gaps = Vec::new(alloc);
    let mut next = candidates + 1;
    for cell in 0..sections.len() {
        gaps.push(next)?;
        next += rows.row(cell).len() as u32 - places[cell] - 1;
    }
    Ok((gaps, next))
}
