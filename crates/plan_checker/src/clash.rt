//! Two trains that aren't apart.

use cell_net::{CellId, TrainId};

/// Two trains of a plan that aren't apart at a step, and by which cells: `a` touches `e` there, and
/// `b` touches `f`.
#[derive(Clone, Copy, Debug)]
pub(crate) struct Clash {
    pub a: TrainId,
    pub b: TrainId,
    pub step: u32,
    pub e: CellId,
    pub f: CellId,
}
