//! The walk over the JSON values of a document: members and lists, item by item, to the first fault of shape.
#![tactic(auto)]

mod document;
mod fault;
mod lists;
mod members;
mod text_lists;
mod values;

pub use document::{Json, json_of, read_document};
pub use fault::{DocumentFault, ShapeFault, WalkFault};
pub use lists::{Reader, list, optional_list};
pub use members::{number, object, optional_flag, optional_number, text};
pub use text_lists::{TextPairs, own, pairs, texts};
pub use values::{has_member, text_at};
