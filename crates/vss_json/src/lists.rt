//! The lists of a document.

ghost use Rattle.std.specs.Prelude.{map, ◌<◌, ◌^◌, length, All, IfOk};
ghost use Rattle.vss_json.specs.Values.{json_of};
ghost use Rattle.vss_json.specs.Readings.{Gives, each_from, list as list_reading, optional_list as optional_list_reading};

use crate::document::Json;
use crate::fault::{ShapeFault, WalkFault};
use crate::values::items_of;
use std::alloc::Global;
use vss_lists::Items;

/// How the items of a list are read as parts; `M` names the members of the document.
pub trait Reader<P, M> {
    ghost use Rattle.std.specs.Prelude.{ℕ};
    ghost use Rattle.vss_json.specs.Values.{Json};
    ghost use Rattle.vss_json.specs.Readings.{Reading};

    ghost reading: { Self → ℕ → Json → Reading P M };

    ghost keeps: { Self → P → Type 0 };

    /// The part that the value is, as the item of that number.
    fn read(&self, alloc: Global, value: &Json, item: u32) -> Result<P, WalkFault<M>>
        ensures read { Gives (reading self.now item (json_of value.now)) result }
        ensures keeps { IfOk result (keeps self.now) };
}

/// Each item of the list under a name. Linear in the items.
#[tactic(auto, unfolding(crate::specs::Readings::list))]
pub fn list<M: Drop, P: Drop, R: Reader<P, M>>(
    alloc: Global,
    reader: &R,
    object: &Json,
    name: &str,
    fault: ShapeFault<M>,
) -> Result<Items<P>, WalkFault<M>>
    ensures read { Gives (list_reading fault (R.reading reader.now) name.now (json_of object.now)) result }
    ensures few { IfOk result (λ items. length items < 2 ^ 32) }
    ensures keeps { IfOk result (All (R.keeps reader.now)) }
{
    match object.get(name).and_then(items_of) {
        Some(values) => each(alloc, reader, values),
        None => Err(WalkFault::Shape(fault)),
    }
}

/// Each item of the list under a name that may be missing. Linear in the items.
#[tactic(auto, unfolding(crate::specs::Readings::optional_list))]
pub fn optional_list<M: Drop, P: Drop, R: Reader<P, M>>(
    alloc: Global,
    reader: &R,
    object: &Json,
    name: &str,
    fault: ShapeFault<M>,
) -> Result<Items<P>, WalkFault<M>>
    ensures read { Gives (optional_list_reading fault (R.reading reader.now) name.now (json_of object.now)) result }
    ensures few { IfOk result (λ items. length items < 2 ^ 32) }
    ensures keeps { IfOk result (All (R.keeps reader.now)) }
{
    match object.get(name) {
        None => Ok(Items::new(alloc)),
        Some(value) => match items_of(value) {
            Some(values) => each(alloc, reader, values),
            None => Err(WalkFault::Shape(fault)),
        },
    }
}

/// Each of the values, as items from 0 on.
fn each<M: Drop, P: Drop, R: Reader<P, M>>(
    alloc: Global,
    reader: &R,
    values: &[Json],
) -> Result<Items<P>, WalkFault<M>>
    ensures read { Gives (each_from (R.reading reader.now) 0 (map json_of values.now)) result }
    ensures few { IfOk result (λ items. length items < 2 ^ 32) }
    ensures keeps { IfOk result (All (R.keeps reader.now)) }
{
    let Ok(count) = u32::try_from(values.len()) else {
        // No document of 16,777,216 bytes has so many items.
        return Err(WalkFault::Memory);
    };
    let mut parts = Vec::with_capacity(alloc, values.len())?;
    for item in 0..count {
        match reader.read(alloc, &values[item as usize], item) {
            Ok(part) => parts.push(part)?,
            Err(fault) => return Err(fault),
        }
    }
    Ok(Items::from_vec(parts))
}
