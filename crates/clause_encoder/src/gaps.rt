//! The clauses of gaps: a border on each walk between two cells of a section.
ghost use Rattle.std.specs.Prelude.{◌≡◌, ◌<◌, [], All, length, slice_index_or, OnOk, IfErr};
ghost use Rattle.std.specs.List.{flat_map};
ghost use Rattle.cell_net.specs.declared.ids.CandidateId.{CandidateId};
ghost use Rattle.clause_list.specs.BorderClauses.{gap_clauses as gap_clauses_of};
ghost use Rattle.clause_list.specs.Coding.{walks_in};
ghost use Rattle.clause_list.specs.Orders.{AreWalksOver};
ghost use Rattle.clause_encoder.specs.Writing.{AreClauses, Takes, IsCause};
ghost use Rattle.clause_encoder.specs.WalkFitting.{AreFew, on_walk, on_walk_alone};

use crate::literals::{is, is_not};
use crate::network::NetworkNumbers;
use crate::part::{Part, write_each, write_range};
use crate::writer::{ClauseWriter, WriteFault};
use cell_net::{CandidateId, CellId};
use gap_clauses::Gaps;
use sat_core::Lit;
use std::alloc::AllocError;

/// Writes the clauses by which a gap has a border on each walk between its cells.
#[tactic(auto, unfolding(clause_list::specs::BorderClauses::gap_clauses))]
pub(crate) fn write_gaps(
    net: &NetworkNumbers,
    gaps: &Gaps,
    writer: &mut ClauseWriter,
) -> Result<(), WriteFault>
    requires over { AreWalksOver net.now (walks_in gaps.now) }
    requires clauses { AreClauses writer.old.vars (gap_clauses_of (walks_in gaps.now) net.now) }
    ensures ok { OnOk result (Takes writer.old (gap_clauses_of (walks_in gaps.now) net.now) writer.new) }
    ensures err { IfErr result (IsCause writer.old (gap_clauses_of (walks_in gaps.now) net.now)) }
{
    let from = BordersFrom { net, gaps };
    write_range(&from, 0, net.cell_count(), writer)
}

// by the lower cell
#[derive(Drop)]
struct BordersFrom<'a> {
    net: &'a NetworkNumbers,
    gaps: &'a Gaps,
}

impl<'a> Part for BordersFrom<'a> {
    ghost use Rattle.std.specs.Prelude.{◌<◌, length};
    ghost use Rattle.clause_list.specs.BorderClauses.{borders_from};
    ghost use Rattle.clause_list.specs.Coding.{walks_in};
    ghost use Rattle.clause_list.specs.Orders.{AreWalksOver};

    ghost clauses = { λ p e. borders_from (walks_in p.gaps.now) p.net.now e };

    ghost fits = { λ p place e. AreWalksOver p.net.now (walks_in p.gaps.now) × (e < length p.net.now.sections) };

    #[tactic(auto, unfolding(clause_list::specs::BorderClauses::borders_from))]
    fn write(&self, _place: usize, cell: u32, writer: &mut ClauseWriter) -> Result<(), WriteFault> {
        let between = BordersBetween {
            net: self.net,
            gaps: self.gaps,
            cell,
        };
        write_each(&between, self.net.above(cell), writer)
    }
}

// by the other
#[derive(Drop)]
struct BordersBetween<'a> {
    net: &'a NetworkNumbers,
    gaps: &'a Gaps,
    cell: u32,
}

impl<'a> Part for BordersBetween<'a> {
    ghost use Rattle.std.specs.Prelude.{◌≡◌, ◌<◌, length, slice_index};
    ghost use Rattle.clause_list.specs.BorderClauses.{borders_between};
    ghost use Rattle.clause_list.specs.Coding.{walks_in};
    ghost use Rattle.clause_list.specs.Numbers.{above};
    ghost use Rattle.clause_list.specs.Orders.{AreWalksOver};

    ghost clauses = { λ p f. borders_between (walks_in p.gaps.now) p.net.now p.cell f };

    ghost fits = { λ p place f. AreWalksOver p.net.now (walks_in p.gaps.now) × (p.cell < length p.net.now.sections) × (place < length (above p.net.now p.cell)) × (slice_index (above p.net.now p.cell) place ≡ f) };

    fn write(
        &self,
        _place: usize,
        other: u32,
        writer: &mut ClauseWriter,
    ) -> Result<(), WriteFault> {
        let number = self.net.gap(self.cell, other);
        let _few = self.net.candidate_count();
        write_walks(self.gaps, self.cell, other, number, writer)
    }
}

// Writes the clause of each walk between two cells, where the gap has that number.
fn write_walks(
    gaps: &Gaps,
    cell: u32,
    other: u32,
    number: u32,
    writer: &mut ClauseWriter,
) -> Result<(), WriteFault>
    requires few { All AreFew (walks_in gaps.now cell other) }
    requires clauses { AreClauses writer.old.vars (flat_map (on_walk_alone number) (walks_in gaps.now cell other)) }
    ensures ok { OnOk result (Takes writer.old (flat_map (on_walk_alone number) (walks_in gaps.now cell other)) writer.new) }
    ensures err { IfErr result (IsCause writer.old (flat_map (on_walk_alone number) (walks_in gaps.now cell other))) }
{
    for walk in 0..gaps.walk_count(CellId(cell), CellId(other)) {
        match write_walk(gaps, cell, other, walk, number, writer) {
            Ok(()) => {}
            Err(fault) => return Err(fault),
        }
    }
    Ok(())
}

// Writes the clause of that walk.
#[tactic(auto, unfolding(crate::specs::Writing::IsCause))]
fn write_walk(
    gaps: &Gaps,
    cell: u32,
    other: u32,
    walk: u32,
    number: u32,
    writer: &mut ClauseWriter,
) -> Result<(), WriteFault>
    requires within { walk < length (walks_in gaps.now cell other) }
    requires few { AreFew (slice_index_or (walks_in gaps.now cell other) walk []) }
    requires clauses { AreClauses writer.old.vars (on_walk_alone number (slice_index_or (walks_in gaps.now cell other) walk [])) }
    ensures ok { OnOk result (Takes writer.old (on_walk_alone number (slice_index_or (walks_in gaps.now cell other) walk [])) writer.new) }
    ensures err { IfErr result (IsCause writer.old (on_walk_alone number (slice_index_or (walks_in gaps.now cell other) walk []))) }
{
    if writer.keeps() {
        match writer.put_walk(gaps, cell, other, walk, number) {
            Ok(()) => writer.finish(),
            Err(_) => Err(WriteFault::Memory),
        }
    } else {
        let candidates = gaps.candidate_count(CellId(cell), CellId(other), walk);
        writer.take_counted(1, u64::from(candidates) + 1)
    }
}

impl ClauseWriter {
    // Puts the clause of that walk together.
    fn put_walk(
        &mut self,
        gaps: &Gaps,
        cell: u32,
        other: u32,
        walk: u32,
        number: u32,
    ) -> Result<(), AllocError>
        requires within { walk < length (walks_in gaps.now cell other) }
        requires few { AreFew (slice_index_or (walks_in gaps.now cell other) walk []) }
        ensures ok { OnOk result (self.new ≡ record self.old { open_lits = on_walk number (slice_index_or (walks_in gaps.now cell other) walk []) }) }
    {
        self.candidates.clear();
        gaps.put_walk(CellId(cell), CellId(other), walk, &mut self.candidates)?;
        put_borders(number, &self.candidates, &mut self.clause)
    }
}

// Makes the clause: not the gap of that number, or a border at one of the candidates.
#[tactic(auto, unfolding(crate::specs::WalkFitting::on_walk))]
fn put_borders(
    number: u32,
    candidates: &[CandidateId],
    clause: &mut Vec<Lit>,
) -> Result<(), AllocError>
    requires { AreFew candidates.now }
    ensures { OnOk result (clause.new.items ≡ on_walk number candidates.now) }
{
    clause.clear();
    clause.push(is_not(number))?;
    for place in 0..candidates.len() {
        clause.push(is(candidates[place].0 + 1))?;
    }
    Ok(())
}
