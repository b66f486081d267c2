//! Lists of items that stand one behind the other in one vector.
ghost use Rattle.std.specs.Prelude.{◌≡◌, ◌<◌, [], ◌∷◌, ◌++◌, ◌+◌, List, length, IfOk, OnErr, OnOk, Some, slice_get, slice_index_or};
ghost use Rattle.vss_rows.specs.Pieces.{pieces, begin_of, RisesTo};

use std::alloc::{AllocError, Global};
use std::marker::Model;

/// A list of lists: all items in one vector, and the place behind each list's last item. It takes the
/// size of the items and four bytes a list, and holds fewer than 4,294,967,296 items.
#[derive(Debug, Drop)]
pub struct Rows<T> {
    items: Vec<T>,
    ends: Vec<u32>,
}

impl<T> Model for Rows<T> {
    ghost use Rattle.std.specs.Prelude.{List, length};
    ghost use Rattle.std.specs.Coded.{coded_list};
    ghost use Rattle.vss_rows.specs.Pieces.{pieces, RisesTo};

    ghost Value = { List (List T) };

    ghost coded = { coded_list (coded_list T.code) };

    ghost view = { λ r. pieces r.items.items 0 r.ends.items };

    ghost invariant = { λ r. RisesTo 0 r.ends.items (length r.items.items) };
}

#[tactic(auto, using(crate::proofs::PieceLaws::rows_laws))]
impl<T> Rows<T> {
    /// No lists; takes no memory.
    pub fn new(alloc: Global) -> Rows<T>
        ensures { result ≡ [] }
    {
        Rows {
            items: Vec::new(alloc),
            ends: Vec::new(alloc),
        }
    }

    /// How many lists there are.
    pub fn len(&self) -> usize
        ensures { result ≡ length self.now }
    {
        self.ends.len()
    }

    /// The list at that place, counted from 0, in constant time.
    pub fn row(&self, at: usize) -> &[T]
        requires { at < length self.now }
        ensures value { slice_get self.now at ≡ Some result.now }
        ensures item { (d : List T) → slice_index_or self.now at d ≡ result.now }
    {
        piece(self.items.as_slice(), self.ends.as_slice(), at)
    }
}

impl<T: Copy + Drop> Rows<T> {
    /// Appends a list, which is copied; linear in its items. After want of memory the lists are as
    /// they were.
    pub fn push(&mut self, row: &[T]) -> Result<(), AllocError>
        ensures ok { OnOk result (self.new ≡ self.old ++ row.now ∷ []) }
        ensures err { OnErr result (self.new ≡ self.old) }
    {
        let end = end_behind(self.items.len(), row.len())?;
        self.ends.reserve(1)?;
        self.items.extend_from_slice(row)?;
        self.ends.push_reserved(end);
        Ok(())
    }
}

/// Where so many items more end; refused above what 32 bits can tell.
fn end_behind(before: usize, more: usize) -> Result<u32, AllocError>
    ensures { IfOk result (λ end. end ≡ before + more) }
{
    match before.checked_add(more) {
        Some(end) => u32::try_from(end).map_err(|_| AllocError),
        None => Err(AllocError),
    }
}

/// The piece of the row with that place, where the pieces end at these places.
#[tactic(auto, using(crate::proofs::PieceLaws::piece_laws))]
fn piece<'a, T>(row: &'a [T], ends: &[u32], place: usize) -> &'a [T]
    requires rising { RisesTo 0 ends.now (length row.now) }
    requires within { place < length ends.now }
    ensures value { slice_get (pieces row.now 0 ends.now) place ≡ Some result.now }
    ensures item { (d : List T) → slice_index_or (pieces row.now 0 ends.now) place d ≡ result.now }
{
    let start = start_of(ends, place) as usize;
    let end = ends[place] as usize;
    &row[start..end]
}

/// Where that piece begins.
fn start_of(ends: &[u32], place: usize) -> u32
    requires { place < length ends.now }
    ensures { result ≡ begin_of 0 ends.now place }
{
    if place == 0 { 0 } else { ends[place - 1] }
}
