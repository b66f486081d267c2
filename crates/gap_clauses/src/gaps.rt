//! The gaps of an instance: for each two cells of a section the candidates on each walk between them.
ghost use Rattle.std.specs.Prelude.{◌≡◌, ◌<◌, ◌++◌, [], OnErr, OnOk, length, slice_index_or};
ghost use Rattle.gap_clauses.specs.Gaps.{walks_of};

use crate::candidates::CandidateNodes;
use crate::fan::Fan;
use crate::marks::{count_marked, push_marked};
use cell_net::{CandidateId, CellId};
use std::alloc::AllocError;
use std::marker::Model;

/// No instance has more candidates.
const CANDIDATES: usize = 512;

/// For each two cells of a section the walks from the one to the other, and the candidates on each;
/// contracts see the candidates of each walk, by first cell, by last cell, in the order of the walks.
/// Sixteen bytes a walk, and 24 for each two cells.
#[derive(Debug, Drop)]
pub struct Gaps {
    pub(crate) candidates: CandidateNodes,
    pub(crate) fans: Vec<Fan>,
}

impl Model for Gaps {
    ghost use Rattle.std.specs.Prelude.{List, map};
    ghost use Rattle.cell_net.specs.declared.ids.CandidateId.{CandidateId};
    ghost use Rattle.gap_clauses.specs.Views.{candidates_from};

    ghost Value = { List (List (List (List CandidateId))) };

    ghost view = { λ g. map (candidates_from g.candidates) g.fans.items };
}

impl Gaps {
    /// How many walks lead from the one cell to the other, at most 64; takes no memory.
    pub fn walk_count(&self, e: CellId, f: CellId) -> u32
        ensures { result ≡ length (walks_of self.now e f) }
    {
        match self.fans.get(e.0 as usize) {
            Some(fan) => fan.count_to(f),
            None => 0,
        }
    }

    /// How many candidates are at the nodes of that walk; linear in its steps and in the candidates between
    /// the first one and the last. Takes no memory.
    pub fn candidate_count(&self, e: CellId, f: CellId, walk: u32) -> u32
        requires { walk < length (walks_of self.now e f) }
        ensures { result ≡ length (slice_index_or (walks_of self.now e f) walk []) }
    {
        let count = self.candidates.len();
        let mut marks = [false; CANDIDATES];
        let span = self.fans[e.0 as usize].mark(f, walk, &self.candidates, &mut marks);
        count_marked(&marks, count, span)
    }

    /// Appends the candidates at the nodes of that walk, rising; linear in its steps and in the candidates
    /// between the first one and the last. After want of memory the list is as it was.
    pub fn put_walk(
        &self,
        e: CellId,
        f: CellId,
        walk: u32,
        into: &mut Vec<CandidateId>,
    ) -> Result<(), AllocError>
        requires { walk < length (walks_of self.now e f) }
        ensures ok { OnOk result (into.new.items ≡ into.old.items ++ slice_index_or (walks_of self.now e f) walk []) }
        ensures err { OnErr result (into.new.items ≡ into.old.items) }
    {
        let count = self.candidates.len();
        let mut marks = [false; CANDIDATES];
        let span = self.fans[e.0 as usize].mark(f, walk, &self.candidates, &mut marks);
        let before = into.len();
        match push_marked(&marks, count, span, into) {
            Ok(()) => Ok(()),
            Err(fault) => {
                into.truncate(before);
                Err(fault)
            }
        }
    }
}
