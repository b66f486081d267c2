//! What is wrong with a plan.

use cell_net::{CandidateId, CellId, TrainId};

/// The first thing that is wrong with a layout and a plan: a missing border first; then the trains in
/// their order, for each its entry, its sweeps in order, its arrival and its stops; and trains that are
/// not apart last, at the lowest step first.
#[derive(Clone, Copy, Debug, PartialEq, Eq)]
pub enum Breach {
    /// The first kept border that the layout lacks.
    Border {
        candidate: CandidateId,
    },
    /// The run begins outside the train's window of entry, has no sweep, or begins with another cell than the
    /// train's entry.
    Entry {
        train: TrainId,
    },
    /// What the train touches at the step is no track path.
    Path {
        train: TrainId,
        step: u32,
    },
    /// What it touches at the step is shorter than the train.
    Length {
        train: TrainId,
        step: u32,
    },
    /// It advances at the step by more cells than the train or one of the cells allows.
    Speed {
        train: TrainId,
        step: u32,
    },
    /// The sweep at the step doesn't go on from the one before.
    Join {
        train: TrainId,
        step: u32,
    },
    /// The last sweep, at the step, doesn't end with the goal cell, or is too late.
    Late {
        train: TrainId,
        step: u32,
    },
    /// The first stop of the train that isn't met, by its place.
    Stop {
        train: TrainId,
        stop: u32,
    },
    /// Two trains that touch linked cells at the step, by the first two such cells.
    Apart {
        a: TrainId,
        b: TrainId,
        step: u32,
        e: CellId,
        f: CellId,
    },
}
