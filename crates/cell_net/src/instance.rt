//! Instances: parts that keep every rule.

ghost use Rattle.std.specs.Prelude.{◌≡◌, ◌<◌, ◌≤◌, ◌^◌, ◌↔◌, IfErr, IfOk, IsTrue, Some, length, slice_get};
ghost use Rattle.cell_net.specs.Space.{Follows, IsCell};
ghost use Rattle.cell_net.specs.Rules.{HasFewStops, IsGoodStation, IsInstance};
ghost use Rattle.cell_net.specs.Refusals.{IsRefusal};

use crate::build::{BuildRefusal, test_rules};
use crate::cells::{CellSpec, DirCell, head_of, tail_of};
use crate::ids::{CandidateId, CellId, NodeId, StationId, TrainId};
use crate::limits::{CANDIDATES, CELLS, TRAINS};
use crate::parts::InstanceParts;
use crate::passages::{Passage, index_of, leads};
use crate::trains::TrainSpec;
use std::alloc::Global;
use std::marker::Model;

/// Parts that keep every rule, with an index of their joins. Contracts see an instance as its parts.
#[derive(Debug, Drop)]
pub struct Instance {
    parts: InstanceParts,
    passages: Vec<Passage>,
    starts: Vec<usize>,
}

impl Model for Instance {
    ghost use Rattle.cell_net.specs.declared.parts.InstanceParts.{InstanceParts};
    ghost use Rattle.cell_net.specs.Rules.{IsInstance};
    ghost use Rattle.cell_net.specs.Passages.{IsIndexed};

    ghost Value = { InstanceParts };

    ghost view = { λ i. i.parts };

    ghost invariant = { λ i. IsInstance i.parts × IsIndexed i.parts i.passages.items i.starts.items };
}

impl Instance {
    /// Keeps the parts, if they keep every rule; linear in their sizes, up to the sorting of the
    /// joins and of the cells' ends.
    pub fn build(alloc: Global, parts: InstanceParts) -> Result<Instance, BuildRefusal>
        requires cells { length parts.cells < 2 ^ 32 }
        requires joins { length parts.joins < 2 ^ 32 }
        requires candidates { length parts.candidates < 2 ^ 32 }
        requires kept { length parts.kept < 2 ^ 32 }
        requires stations { length parts.stations < 2 ^ 32 }
        requires trains { length parts.trains < 2 ^ 32 }
        requires stops { HasFewStops parts }
        ensures parts { IfOk result (λ instance. instance ≡ parts) }
        ensures rules { IfOk result IsInstance }
        ensures refusal { IfErr result (IsRefusal parts) }
    {
        test_rules(alloc, &parts)?;
        let (passages, starts) = index_of(alloc, &parts)?;
        Ok(Instance {
            parts,
            passages,
            starts,
        })
    }

    /// What the instance was made of.
    pub fn parts(&self) -> &InstanceParts
        ensures parts { result.now ≡ self.now }
        ensures rules { IsInstance self.now }
    {
        &self.parts
    }

    /// How many cells it has.
    pub fn cell_count(&self) -> u32
        ensures value { result ≡ length self.now.cells }
        ensures few { result ≤ CELLS }
    {
        self.parts.cells.len() as u32
    }

    /// The cell of that number.
    pub fn cell(&self, id: CellId) -> CellSpec
        requires { IsCell self.now id }
        ensures { slice_get self.now.cells id.0 ≡ Some result }
    {
        self.parts.cells.as_slice()[id.0 as usize]
    }

    /// Whether the one directed cell follows the other; looks at the joins of one cell end alone.
    pub fn follows(&self, before: DirCell, after: DirCell) -> bool
        requires { IsCell self.now before.cell }
        ensures { IsTrue result ↔ Follows self.now before after }
    {
        leads(
            &self.passages,
            &self.starts,
            head_of(before),
            tail_of(after),
        )
    }

    /// How many candidates it has.
    pub fn candidate_count(&self) -> u32
        ensures value { result ≡ length self.now.candidates }
        ensures few { result ≤ CANDIDATES }
    {
        self.parts.candidates.len() as u32
    }

    /// The node of that candidate.
    pub fn candidate(&self, id: CandidateId) -> NodeId
        requires { id.0 < length self.now.candidates }
        ensures { slice_get self.now.candidates id.0 ≡ Some result }
    {
        self.parts.candidates.as_slice()[id.0 as usize]
    }

    /// The candidates whose border is kept, rising.
    pub fn kept(&self) -> &[CandidateId]
        ensures { result.now ≡ self.now.kept }
    {
        self.parts.kept.as_slice()
    }

    /// The cells of that station.
    pub fn station(&self, id: StationId) -> &[CellId]
        requires { id.0 < length self.now.stations }
        ensures value { slice_get self.now.stations id.0 ≡ Some result.now }
        ensures good { IsGoodStation self.now id.0 result.now }
    {
        self.parts.stations.as_slice()[id.0 as usize].as_slice()
    }

    /// How many trains it has.
    pub fn train_count(&self) -> u32
        ensures value { result ≡ length self.now.trains }
        ensures few { result ≤ TRAINS }
    {
        self.parts.trains.len() as u32
    }

    /// The train of that number.
    pub fn train(&self, id: TrainId) -> &TrainSpec
        requires { id.0 < length self.now.trains }
        ensures value { slice_get self.now.trains id.0 ≡ Some result.now }
        ensures rules { IsInstance self.now }
    {
        &self.parts.trains.as_slice()[id.0 as usize]
    }

    /// How many time steps it has.
    pub fn steps(&self) -> u32
        ensures { result ≡ self.now.steps }
    {
        self.parts.steps
    }
}
