//! An instance with its names.

ghost use Rattle.cell_net.specs.Labelled.{AreLabelsOf};

use crate::instance::Instance;
use crate::labels::Labels;

/// An instance, and the names that people know its tracks, cells, candidates and trains by: one for
/// each cell, candidate and train, no two the same.
#[derive(Debug, Drop)]
pub struct Scene {
    pub inst: Instance,
    pub labels: Labels,
    ghost labelled: { AreLabelsOf inst labels },
}
