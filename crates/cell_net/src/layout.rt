//! Layouts of virtual borders.

ghost use Rattle.std.specs.Prelude.{◌≡◌, ◌<◌, ◌≤◌, ◌^◌, ◌↔◌, Contains, IfErr, IfOk, IsTrue, length};
ghost use Rattle.std.specs.List.Sorted.{IsPartitionPoint};
ghost use Rattle.vss_lists.specs.Breaks.{HoldsOfEach};
ghost use Rattle.cell_net.specs.Borders.{IsBorderSet, RisesAt};
ghost use Rattle.cell_net.specs.Refusals.{IsLayoutRefusal};

use crate::ids::CandidateId;
use crate::instance::Instance;
use crate::rules::{first_not_rising, first_out_of_range};
use std::marker::Model;

/// Why the borders are no border set.
#[derive(Clone, Copy, Debug, PartialEq, Eq)]
pub enum LayoutRefusal {
    /// The border at this place isn't above the one before it.
    NotRising(u32),
    /// All rise, and the border at this place is no candidate.
    OutOfRange(u32),
}

/// A set of virtual borders. Contracts see it as the rising list of their candidates.
#[derive(Debug, Drop)]
pub struct Layout {
    borders: Vec<CandidateId>,
}

impl Model for Layout {
    ghost use Rattle.std.specs.Prelude.{List};
    ghost use Rattle.vss_lists.specs.Breaks.{HoldsOfEach};
    ghost use Rattle.cell_net.specs.Borders.{RisesAt};
    ghost use Rattle.cell_net.specs.declared.ids.CandidateId.{CandidateId};

    ghost Value = { List CandidateId };

    ghost view = { λ l. l.borders.items };

    ghost invariant = { λ l. HoldsOfEach (RisesAt l.borders.items) l.borders.items };
}

impl Layout {
    /// Keeps the borders, if they are candidates of the instance and rise; linear, without memory.
    pub fn new(inst: &Instance, borders: Vec<CandidateId>) -> Result<Layout, LayoutRefusal>
        requires { length borders.items < 2 ^ 32 }
        ensures borders { IfOk result (λ layout. layout ≡ borders.items) }
        ensures rules { IfOk result (IsBorderSet inst.now) }
        ensures refusal { IfErr result (IsLayoutRefusal inst.now borders.items) }
    {
        if let Some(place) = first_not_rising(borders.as_slice()) {
            return Err(LayoutRefusal::NotRising(place));
        }
        if let Some(place) = first_out_of_range(inst.parts(), borders.as_slice()) {
            return Err(LayoutRefusal::OutOfRange(place));
        }
        Ok(Layout { borders })
    }

    /// The borders, rising.
    pub fn borders(&self) -> &[CandidateId]
        ensures { result.now ≡ self.now }
    {
        self.borders.as_slice()
    }

    /// Whether a border stands at the candidate; logarithmic in the borders.
    pub fn has(&self, id: CandidateId) -> bool
        ensures { IsTrue result ↔ Contains self.now id }
    {
        contains(self.borders.as_slice(), id)
    }
}

fn contains(borders: &[CandidateId], id: CandidateId) -> bool
    requires { HoldsOfEach (RisesAt borders.now) borders.now }
    ensures { IsTrue result ↔ Contains borders.now id }
{
    let place = count_below(borders, id);
    place < borders.len() && borders[place].0 == id.0
}

/// How many of the borders, which rise, are below the candidate.
fn count_below(borders: &[CandidateId], id: CandidateId) -> usize
    requires { HoldsOfEach (RisesAt borders.now) borders.now }
    ensures within { result ≤ length borders.now }
    ensures split { IsPartitionPoint (λ b. b.0 < id.0) (λ b. id.0 ≤ b.0) borders.now result }
{
    borders.partition_point(|border| border.0 < id.0)
}
