//! The parts of a document.

ghost use Rattle.std.specs.Prelude.{IfOk};
ghost use Rattle.vss_json.specs.Values.{json_of};
ghost use Rattle.vss_json.specs.Readings.{Gives};
ghost use Rattle.net_reader.specs.Document.{HasListed, document};

use crate::member::Member;
use crate::parts::{Borders, Nodes, Sections, Stations, Tracks, Walk, at};
use rail_net::NetParts;
use std::alloc::Global;
use vss_json::{Json, Reader, list, object, optional_list};

/// Reads the parts of a network.
#[derive(Clone, Copy)]
pub(crate) struct Network;

impl Reader<NetParts, Member> for Network {
    ghost reading = { λ r item. document };

    ghost keeps = { λ r. HasListed };

    fn read(&self, alloc: Global, value: &Json, _item: u32) -> Walk<NetParts> {
        parts_of(alloc, value)
    }
}

/// The parts that the value states, or its first fault of shape. Linear in the value but for look-ups
/// of members.
#[tactic(auto, unfolding(crate::specs::Document::document))]
fn parts_of(alloc: Global, value: &Json) -> Walk<NetParts>
    ensures read { Gives (document (json_of value.now)) result }
    ensures listed { IfOk result HasListed }
{
    object(value, at(Member::Document, 0))?;
    let nodes = list(alloc, &Nodes, value, "nodes", at(Member::Nodes, 0))?;
    let tracks = list(alloc, &Tracks, value, "tracks", at(Member::Tracks, 0))?;
    let sections = list(alloc, &Sections, value, "sections", at(Member::Sections, 0))?;
    let borders = optional_list(alloc, &Borders, value, "borders", at(Member::Borders, 0))?;
    let stations = optional_list(alloc, &Stations, value, "stations", at(Member::Stations, 0))?;
    Ok(NetParts {
        nodes,
        tracks,
        sections,
        borders,
        stations,
    })
}
