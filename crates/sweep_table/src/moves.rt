//! What every table of moves answers: the face over which clauses are written.
ghost use Rattle.std.specs.Prelude.{◌≡◌, ◌<◌, ◌≤◌, ℕ, length};
ghost use Rattle.cell_net.specs.declared.parts.InstanceParts.{InstanceParts};
ghost use Rattle.sweep_table.specs.Tables.{Table, IsTable, cells_of, next_of, prev_of, is_entry, is_goal, stands_in};

use crate::ids::SweepId;
use cell_net::{DirCell, Instance, StationId};

/// A table of the moves of one train on the instance that it was made for: items, each of which is
/// what the train touches in one step, and which of them may come after which. No call takes memory.
pub trait Moves {
    /// How many items there are.
    ghost items: { Self → ℕ };

    /// The table, as plain lists, over the parts of the instance that it was made for.
    ghost table: { Self → InstanceParts → Table };

    /// That it was made for the instance of these parts.
    ghost is_made_for: { Self → InstanceParts → Type 0 };

    /// How many items there are: 50,000 at most. With the rules that the table keeps.
    fn len(&self) -> u32
        ensures count { result ≡ items self.now }
        ensures few { items self.now ≤ 50000 }
        ensures rules { (p : InstanceParts) → is_made_for self.now p → IsTable p (table self.now p) }
        ensures items { (p : InstanceParts) → length (table self.now p).cells ≡ items self.now };

    /// The cells that the item touches, from the train's tail to its head.
    fn cells(&self, id: SweepId) -> &[DirCell]
        requires { id.0 < items self.now }
        ensures { (p : InstanceParts) → result.now ≡ cells_of (table self.now p) id.0 };

    /// The items that may come in the step after this one, rising.
    fn next_of(&self, id: SweepId) -> &[SweepId]
        requires { id.0 < items self.now }
        ensures { (p : InstanceParts) → result.now ≡ next_of (table self.now p) id.0 };

    /// The items that this one may come after, rising.
    fn prev_of(&self, id: SweepId) -> &[SweepId]
        requires { id.0 < items self.now }
        ensures { (p : InstanceParts) → result.now ≡ prev_of (table self.now p) id.0 };

    /// Whether a run may begin with the item.
    fn is_entry(&self, id: SweepId) -> bool
        requires { id.0 < items self.now }
        ensures { (p : InstanceParts) → result ≡ is_entry (table self.now p) id.0 };

    /// Whether a run may end with the item.
    fn is_goal(&self, id: SweepId) -> bool
        requires { id.0 < items self.now }
        ensures { (p : InstanceParts) → result ≡ is_goal (table self.now p) id.0 };

    /// Whether the train stands wholly in the station at the item, on the instance that the table
    /// was made for.
    fn stands_in(&self, id: SweepId, inst: &Instance, station: StationId) -> bool
        requires item { id.0 < items self.now }
        requires station { station.0 < length inst.now.stations }
        ensures { result ≡ stands_in (table self.now inst.now) station.0 id.0 };
}
