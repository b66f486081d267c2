//! Documents: the JSON value that bytes are the text of, and what is read of it.

ghost use Rattle.std.specs.Prelude.{◌<◌, length, IfOk, MatchOption, OnErr};
ghost use Rattle.vss_json.specs.Documents.{IsDocument};
ghost use Rattle.vss_json.specs.Values.{IsJson, Json as Value, json_of as value_of};

use crate::fault::{DocumentFault, WalkFault};
use crate::lists::Reader;
use std::alloc::{AllocError, Global};

/// A JSON value.
pub use serde_json::Value as Json;

/// What the document of these bytes states, which the reader reads as the item of number 0; the value
/// itself is let go. Linear in the bytes.
#[tactic(auto, using(crate::proofs::DocumentLaws::no_json))]
pub fn read_document<M: Drop, P: Drop, R: Reader<P, M>>(
    alloc: Global,
    reader: &R,
    bytes: &[u8],
) -> Result<P, DocumentFault<M>>
    ensures read { IsDocument (R.reading reader.now 0) bytes.now result }
    ensures keeps { IfOk result (R.keeps reader.now) }
{
    if bytes.is_empty() {
        return Err(DocumentFault::NotJson);
    }
    let value = match json_of(alloc, bytes) {
        Ok(Some(value)) => value,
        Ok(None) => return Err(DocumentFault::NotJson),
        Err(_) => return Err(DocumentFault::Memory),
    };
    match reader.read(alloc, &value, 0) {
        Ok(parts) => Ok(parts),
        Err(WalkFault::Shape(fault)) => Err(DocumentFault::Shape(fault)),
        Err(WalkFault::Memory) => Err(DocumentFault::Memory),
    }
}

/// The JSON value that the bytes are the text of, if they are one. Linear in the bytes. Want of
/// memory may come at any text that isn't empty.
pub fn json_of(alloc: Global, bytes: &[u8]) -> Result<Option<Json>, AllocError>
    ensures value { IfOk result (λ found. MatchOption found ((d : Value) → ¬ IsJson bytes.now d)
        (λ json. IsJson bytes.now (value_of json))) }
    ensures memory { OnErr result (0 < length bytes.now) }
{
    match Json::from_slice(alloc, bytes) {
        Ok(json) => Ok(Some(json)),
        Err(fault) if fault.is_memory() => Err(AllocError),
        Err(_) => Ok(None),
    }
}
