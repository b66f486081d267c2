//! The members of an object.

ghost use Rattle.vss_json.specs.Values.{json_of};
ghost use Rattle.vss_json.specs.Readings.{Gives, object as object_reading, text as text_reading, number as number_reading, optional_number as optional_number_reading, optional_flag as optional_flag_reading};

use crate::document::Json;
use crate::fault::{ShapeFault, WalkFault};
use std::alloc::Global;
use vss_lists::Text;

/// Tests that the value is an object.
#[tactic(auto, unfolding(crate::specs::Readings::object))]
pub fn object<M: Drop>(value: &Json, fault: ShapeFault<M>) -> Result<(), WalkFault<M>>
    ensures { Gives (object_reading fault (json_of value.now)) result }
{
    if value.is_object() {
        Ok(())
    } else {
        Err(WalkFault::Shape(fault))
    }
}

/// The text under a name, copied.
#[tactic(auto, unfolding(crate::specs::Readings::text))]
pub fn text<M: Drop>(
    alloc: Global,
    object: &Json,
    name: &str,
    fault: ShapeFault<M>,
) -> Result<Text, WalkFault<M>>
    ensures { Gives (text_reading fault name.now (json_of object.now)) result }
{
    match object.get(name).and_then(Json::as_str) {
        Some(found) => Ok(Text::from_string(String::from_str(alloc, found)?)),
        None => Err(WalkFault::Shape(fault)),
    }
}

/// The number under a name: whole, without a sign, and at most 2^64 - 1.
#[tactic(auto, unfolding(crate::specs::Readings::number))]
pub fn number<M: Drop>(object: &Json, name: &str, fault: ShapeFault<M>) -> Result<u64, WalkFault<M>>
    ensures { Gives (number_reading fault name.now (json_of object.now)) result }
{
    match object.get(name).and_then(Json::as_u64) {
        Some(found) => Ok(found),
        None => Err(WalkFault::Shape(fault)),
    }
}

/// The number under a name that may be missing.
#[tactic(auto, unfolding(crate::specs::Readings::optional_number))]
pub fn optional_number<M: Drop>(
    object: &Json,
    name: &str,
    fault: ShapeFault<M>,
) -> Result<Option<u64>, WalkFault<M>>
    ensures { Gives (optional_number_reading fault name.now (json_of object.now)) result }
{
    match object.get(name) {
        None => Ok(None),
        Some(value) => match value.as_u64() {
            Some(number) => Ok(Some(number)),
            None => Err(WalkFault::Shape(fault)),
        },
    }
}

/// The `true` or `false` under a name that may be missing.
#[tactic(auto, unfolding(crate::specs::Readings::optional_flag))]
pub fn optional_flag<M: Drop>(
    object: &Json,
    name: &str,
    fault: ShapeFault<M>,
) -> Result<Option<bool>, WalkFault<M>>
    ensures { Gives (optional_flag_reading fault name.now (json_of object.now)) result }
{
    match object.get(name) {
        None => Ok(None),
        Some(value) => match value.as_bool() {
            Some(flag) => Ok(Some(flag)),
            None => Err(WalkFault::Shape(fault)),
        },
    }
}
