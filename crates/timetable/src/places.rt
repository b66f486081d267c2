//! The nodes and stations that a document names, by their numbers in the network.

ghost use Rattle.std.specs.Prelude.{◌≡◌, ◌<◌, ◌^◌, ◌↔◌, length, All, IsTrue, IfErr, IfOk};
ghost use Rattle.std.specs.List.{AllZip};
ghost use Rattle.rail_net.specs.Breaks.{IsBreak};
ghost use Rattle.rail_net.specs.declared.parts.NodeKind.TheVariants.{EndNode};
ghost use Rattle.timetable.specs.Document.{HasFewStopEntries};
ghost use Rattle.timetable.specs.Places.{IsEndName, IsMiss, IsStopFor, IsTrainFor, KnowsPlaces, KnowsStation};

use crate::entries::{StopEntry, TrainEntry};
use crate::parts::{StopPart, TrainPart};
use rail_net::{Break, Net, NodeKind};
use std::alloc::Global;
use vss_json::own;
use vss_lists::Items;

/// Why a train isn't found a place in the network.
#[derive(Clone, Copy, Debug)]
pub(crate) enum Miss {
    /// A node or a station isn't there.
    Unknown,
    /// Want of memory.
    Memory,
}

/// Each train, with the numbers of its nodes and stations; or the first train of which one isn't
/// there. Linear in trains and stops but for hashed look-ups of names.
pub(crate) fn trains_of(
    alloc: Global,
    net: &Net,
    entries: &[TrainEntry],
) -> Result<Items<TrainPart>, Break>
    requires few { length entries.now < 2 ^ 32 }
    requires few_stops { All HasFewStopEntries entries.now }
    ensures trains { IfOk result (AllZip (IsTrainFor net.now) entries.now) }
    ensures unknown { IfErr result (IsBreak (λ place t. KnowsPlaces net.now t) entries.now) }
{
    let Ok(mut trains) = Vec::with_capacity(alloc, entries.len()) else {
        return Err(Break::Memory);
    };
    for place in 0..entries.len() {
        let train = match train_of(alloc, net, &entries[place]) {
            Ok(train) => train,
            Err(Miss::Unknown) => return Err(Break::At(place as u32)),
            Err(Miss::Memory) => return Err(Break::Memory),
        };
        match trains.push(train) {
            Ok(()) => {}
            Err(_) => return Err(Break::Memory),
        }
    }
    Ok(Items::from_vec(trains))
}

/// The train, with the numbers of its nodes and stations.
fn train_of(alloc: Global, net: &Net, entry: &TrainEntry) -> Result<TrainPart, Miss>
    requires { length entry.now.stops < 2 ^ 32 }
    ensures train { IfOk result (IsTrainFor net.now entry.now) }
    ensures miss { IfErr result (IsMiss net.now entry.now) }
{
    let from = match net.node_named(entry.from.as_str()) {
        Some(from) => from,
        None => return Err(Miss::Unknown),
    };
    let to = match net.node_named(entry.to.as_str()) {
        Some(to) => to,
        None => return Err(Miss::Unknown),
    };
    let stops = match stops_of(alloc, net, entry.stops.as_slice()) {
        Ok(stops) => stops,
        Err(Break::At(_)) => return Err(Miss::Unknown),
        Err(Break::Memory) => return Err(Miss::Memory),
    };
    let Ok(name) = own(alloc, entry.name.as_str()) else {
        return Err(Miss::Memory);
    };
    Ok(TrainPart {
        name,
        length_m: entry.length_m,
        speed_kmh: entry.speed_kmh,
        from,
        to,
        entry_s: entry.entry_s,
        arrive_s: entry.arrive_s,
        entry_until_s: entry.entry_until_s,
        stops,
    })
}

/// Each stop, with the number of its station; or the first whose station isn't there.
fn stops_of(alloc: Global, net: &Net, entries: &[StopEntry]) -> Result<Items<StopPart>, Break>
    requires { length entries.now < 2 ^ 32 }
    ensures stops { IfOk result (AllZip (IsStopFor net.now) entries.now) }
    ensures unknown { IfErr result (IsBreak (KnowsStation net.now) entries.now) }
{
    let Ok(mut stops) = Vec::with_capacity(alloc, entries.len()) else {
        return Err(Break::Memory);
    };
    for place in 0..entries.len() {
        let entry = &entries[place];
        let station = match net.station_named(entry.station.as_str()) {
            Some(station) => station,
            None => return Err(Break::At(place as u32)),
        };
        let stop = StopPart {
            station,
            from_s: entry.from_s,
            until_s: entry.until_s,
            dwell_s: entry.dwell_s,
        };
        match stops.push(stop) {
            Ok(()) => {}
            Err(_) => return Err(Break::Memory),
        }
    }
    Ok(Items::from_vec(stops))
}

/// Whether the name is that of an end node.
pub(crate) fn is_end(net: &Net, name: &str) -> bool
    ensures { IsTrue result ↔ IsEndName net.now name.now }
{
    match net.node_named(name) {
        Some(number) => {
            let nodes = net.parts().nodes.as_slice();
            let node = &nodes[number as usize];
            is_end_node(&node.kind)
        }
        None => false,
    }
}

/// Whether it is the kind of end nodes.
fn is_end_node(kind: &NodeKind) -> bool
    ensures { IsTrue result ↔ (kind.now ≡ EndNode) }
{
    match kind {
        NodeKind::EndNode => true,
        NodeKind::Joint | NodeKind::Point { .. } | NodeKind::Crossing { .. } => false,
    }
}
