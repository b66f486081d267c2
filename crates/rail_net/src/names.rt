//! Names with their numbers.

ghost use Rattle.std.specs.Prelude.{◌≡◌, ◌<◌, ◌^◌, ℕ, length, map, string_bytes, slice_get, Some, Contains, IfOk, IfErr, MatchOption};
ghost use Rattle.vss_lists.specs.Breaks.{HoldsOfEach};
ghost use Rattle.rail_net.specs.Rules.{HasNewName};
ghost use Rattle.rail_net.specs.Breaks.{IsBreak};

use indexmap::IndexSet;
use std::alloc::Global;
use std::marker::Model;

/// Where a list breaks a rule.
#[derive(Clone, Copy, Debug)]
pub enum Break {
    /// The first item that breaks it.
    At(u32),
    /// Want of memory: the rule wasn't tested to the end.
    Memory,
}

/// An item with a name.
pub trait Named {
    ghost use Rattle.std.specs.Prelude.{◌≡◌, ℕ, List};

    /// The bytes of its name.
    ghost name_of: { Self → List ℕ };

    /// Its name.
    fn name(&self) -> &str
        ensures { result.now ≡ name_of self.now };
}

/// The names of a list, which are all different, in their order. Contracts see it as the names.
#[derive(Drop)]
pub struct NameIndex {
    names: IndexSet<String>,
}

impl Model for NameIndex {
    ghost use Rattle.std.specs.Prelude.{◌<◌, ◌^◌, ℕ, List, length, map, string_bytes};

    ghost Value = { List (List ℕ) };

    ghost view = { λ i. map string_bytes i.names.keys };

    ghost invariant = { λ i. length i.names.keys < 2 ^ 32 };
}

impl NameIndex {
    /// The number of a name; in the time of hashing it.
    pub fn number_of(&self, name: &str) -> Option<u32>
        ensures { MatchOption result (¬ Contains self.now name.now) (λ number. slice_get self.now number ≡ Some name.now) }
    {
        match self.names.get_index_of(name) {
            Some(number) => Some(number as u32),
            None => None,
        }
    }
}

/// The names of the items, with their numbers; or the first item whose name stood before. Linear in
/// the names.
pub fn index_of<T: Named>(alloc: Global, items: &[T]) -> Result<NameIndex, Break>
    requires { length items.now < 2 ^ 32 }
    ensures names { IfOk result (λ index. index ≡ map T.name_of items.now) }
    ensures new { IfOk result (λ _. HoldsOfEach (HasNewName T.name_of items.now) items.now) }
    ensures old { IfErr result (IsBreak (HasNewName T.name_of items.now) items.now) }
{
    let Ok(mut names) = IndexSet::with_capacity(alloc, items.len()) else {
        return Err(Break::Memory);
    };
    for place in 0..items.len() {
        let Ok(name) = String::from_str(alloc, items[place].name()) else {
            return Err(Break::Memory);
        };
        match names.insert_full(name) {
            Ok((_, true)) => {}
            Ok((_, false)) => return Err(Break::At(place as u32)),
            Err(_) => return Err(Break::Memory),
        }
    }
    Ok(NameIndex { names })
}
