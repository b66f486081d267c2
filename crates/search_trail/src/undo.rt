//! How marks are undone.
ghost use Rattle.std.specs.Prelude.{◌≤◌, ◌<◌, ℕ, ◌-◌, take, length, All, AllPairs, slice_index_or, ◌≢◌};
ghost use Rattle.sat_core.specs.Clauses.{IsOver};
ghost use Rattle.search_trail.specs.declared.entry.Entry.{Entry};
ghost use Rattle.sat_core.specs.Marks.{AreMarked};
ghost use Rattle.search_trail.specs.Trails.{known_of};

use crate::entry::Entry;

/// Unmarks the entries above a level, and tells how many entries stay. Linear in those that go. `vars` stands in the
/// contract alone.
pub(crate) fn undo(vars: u32, marks: &mut [bool], entries: &[Entry], level: u32) -> usize
    requires marked { AreMarked vars marks.old (known_of entries.now) }
    requires in_range { All (λ e. IsOver vars e.lit) entries.now }
    requires distinct { AllPairs (λ one later. one.lit.var.0 ≢ later.lit.var.0) entries.now }
    requires rising { AllPairs (λ one later. one.level ≤ later.level) entries.now }
    ensures within { result ≤ length entries.now }
    ensures marked { AreMarked vars marks.new (known_of (take result entries.now)) }
    ensures kept { All (λ e. e.level ≤ level) (take result entries.now) }
    ensures gone { (k : ℕ) (d : Entry) → result ≤ k → k < length entries.now → level < (slice_index_or entries.now k d).level }
{
    let mut size = entries.len();
    while size > 0 && entries[size - 1].level > level {
        size -= 1;
        marks[entries[size].lit.place()] = false;
    }
    size
}
