//! The lists of texts of a document.

ghost use Rattle.std.specs.Prelude.{◌≡◌, ◌<◌, ◌^◌, map, length, IfOk};
ghost use Rattle.vss_json.specs.Values.{json_of};
ghost use Rattle.vss_json.specs.Readings.{Gives, each_text as each_text_reading, texts as texts_reading, pairs as pairs_reading};

use crate::document::Json;
use crate::fault::{ShapeFault, WalkFault};
use crate::values::{items_of, text_pair, two_of};
use std::alloc::{AllocError, Global};
use vss_lists::{Items, Text};

/// The texts of the list under a name, of which there is at least one. Linear in the texts.
#[tactic(auto, unfolding(crate::specs::Readings::texts))]
pub fn texts<M: Copy + Drop>(
    alloc: Global,
    object: &Json,
    name: &str,
    fault: ShapeFault<M>,
) -> Result<Items<Text>, WalkFault<M>>
    ensures read { Gives (texts_reading fault name.now (json_of object.now)) result }
    ensures some { IfOk result (λ items. 0 < length items) }
    ensures few { IfOk result (λ items. length items < 2 ^ 32) }
{
    match object.get(name).and_then(items_of) {
        None | Some([]) => Err(WalkFault::Shape(fault)),
        Some(values) => match each_text(alloc, values, fault) {
            Ok(texts) => Ok(texts),
            Err(fault) => Err(fault),
        },
    }
}

/// Each of the values as a text.
fn each_text<M: Copy + Drop>(
    alloc: Global,
    values: &[Json],
    fault: ShapeFault<M>,
) -> Result<Items<Text>, WalkFault<M>>
    ensures read { Gives (each_text_reading fault (map json_of values.now)) result }
    ensures len { IfOk result (λ items. length items ≡ length values.now) }
    ensures few { IfOk result (λ items. length items < 2 ^ 32) }
{
    let Ok(count) = u32::try_from(values.len()) else {
        // No document of 16,777,216 bytes has so many items.
        return Err(WalkFault::Memory);
    };
    let mut texts = Vec::with_capacity(alloc, values.len())?;
    for item in 0..count {
        match values[item as usize].as_str() {
            Some(text) => texts.push(own(alloc, text)?)?,
            None => return Err(WalkFault::Shape(fault)),
        }
    }
    Ok(Items::from_vec(texts))
}

/// A text of one's own; linear in its bytes.
pub fn own(alloc: Global, text: &str) -> Result<Text, AllocError>
    ensures { IfOk result (λ copy. copy ≡ text.now) }
{
    Ok(Text::from_string(String::from_str(alloc, text)?))
}

/// Two pairs of texts.
pub type TextPairs = ((Text, Text), (Text, Text));

/// The list of two lists of two texts under a name.
#[tactic(auto, unfolding(crate::specs::Readings::pairs, crate::specs::Values::text_pairs))]
pub fn pairs<M: Drop>(
    alloc: Global,
    object: &Json,
    name: &str,
    fault: ShapeFault<M>,
) -> Result<TextPairs, WalkFault<M>>
    ensures { Gives (pairs_reading fault name.now (json_of object.now)) result }
{
    let Some((one, other)) = object.get(name).and_then(two_of) else {
        return Err(WalkFault::Shape(fault));
    };
    match (text_pair(one), text_pair(other)) {
        (Some((a, b)), Some((c, d))) => Ok((
            (own(alloc, a)?, own(alloc, b)?),
            (own(alloc, c)?, own(alloc, d)?),
        )),
        _ => Err(WalkFault::Shape(fault)),
    }
}
