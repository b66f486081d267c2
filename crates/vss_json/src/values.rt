//! What a value is: a text, a list, a list of two.

ghost use Rattle.std.specs.Prelude.{◌≡◌, map, is_some, option_map, option_and_then};
ghost use Rattle.vss_json.specs.Values.{json_of, list_of, member, text_of, two_of as two_values, text_pair as pair_of_texts};

use crate::document::Json;

/// Whether the object has a member of that name, whatever its value.
pub fn has_member(object: &Json, name: &str) -> bool
    ensures { result ≡ is_some (member name.now (json_of object.now)) }
{
    object.get(name).is_some()
}

/// The text under a name, if it is one.
pub fn text_at<'v>(object: &'v Json, name: &str) -> Option<&'v str>
    ensures { option_map (λ t. t.now) result ≡ option_and_then text_of (member name.now (json_of object.now)) }
{
    object.get(name).and_then(Json::as_str)
}

/// The items of a list.
#[tactic(auto, using(crate::proofs::ListLemmas::list_from_items), unfolding(crate::specs::Values::list_of))]
pub(crate) fn items_of(value: &Json) -> Option<&[Json]>
    ensures { option_map (λ items. map json_of items.now) result ≡ list_of (json_of value.now) }
{
    let list = value.as_array()?;
    Some(list.as_slice())
}

/// The two items of a list of two.
pub(crate) fn two_of(value: &Json) -> Option<(&Json, &Json)>
    ensures { option_map (λ two. (json_of two.0.now, json_of two.1.now)) result ≡ two_values (json_of value.now) }
{
    let [one, other] = items_of(value)? else {
        return None;
    };
    Some((one, other))
}

/// The two texts of a list of two texts.
#[tactic(auto, unfolding(crate::specs::Values::text_pair))]
pub(crate) fn text_pair(value: &Json) -> Option<(&str, &str)>
    ensures { option_map (λ two. (two.0.now, two.1.now)) result ≡ pair_of_texts (json_of value.now) }
{
    let (one, other) = two_of(value)?;
    let first = one.as_str()?;
    let second = other.as_str()?;
    Some((first, second))
}
