//! The network document.
ghost use Rattle.std.specs.Prelude.{◌≡◌, ◌≤◌, ◌++◌, OnOk};
ghost use Rattle.std.specs.List.{flat_map, range_with_len};
ghost use Rattle.case_maker.specs.Networks.{comma_unless, line_end, line_track, network_text, nodes_of, nodes_text, sections_of, sections_text, station_of, station_tracks, stations_text, tracks_of, tracks_text};

use crate::draws::draw;
use crate::text::{put, put_filled};
use std::alloc::AllocError;

/// Puts the document of so many stations.
pub(crate) fn put_network(out: &mut Vec<u8>, seed: u32, size: u32) -> Result<(), AllocError>
    requires { size ≤ 8 }
    ensures { OnOk result (out.new.items ≡ out.old.items ++ network_text seed size) }
{
    put_nodes(out, size)?;
    put_tracks(out, seed, size)?;
    put_sections(out, size)?;
    put_stations(out, size)
}

#[tactic(auto, unfolding(crate::specs::Networks::nodes_text))]
fn put_nodes(out: &mut Vec<u8>, size: u32) -> Result<(), AllocError>
    requires { size ≤ 8 }
    ensures { OnOk result (out.new.items ≡ out.old.items ++ nodes_text size) }
{
    put(out, b"{\"nodes\":[{\"name\":\"W\",\"kind\":\"end\"}")?;
    put_each_nodes(out, size)?;
    put(out, b",{\"name\":\"E\",\"kind\":\"end\"}]")
}

/// For each station in turn.
fn put_each_nodes(out: &mut Vec<u8>, size: u32) -> Result<(), AllocError>
    requires { size ≤ 8 }
    ensures { OnOk result (out.new.items ≡ out.old.items ++ flat_map nodes_of (range_with_len 1 size)) }
{
    for i in 1..size + 1 {
        put_nodes_of(out, i)?;
    }
    Ok(())
}

/// The nodes of a station.
#[tactic(auto, unfolding(crate::specs::Networks::nodes_of))]
fn put_nodes_of(out: &mut Vec<u8>, i: u32) -> Result<(), AllocError>
    ensures { OnOk result (out.new.items ≡ out.old.items ++ nodes_of i) }
{
    put_filled(out, b",{\"name\":\"x#\",\"kind\":\"joint\"}", i)?;
    put_filled(
        out,
        b",{\"name\":\"p#\",\"kind\":\"point\",\"tip\":\"u#\"}",
        i,
    )?;
    put_filled(
        out,
        b",{\"name\":\"a#\",\"kind\":\"joint\"},{\"name\":\"b#\",\"kind\":\"joint\"}",
        i,
    )?;
    put_filled(
        out,
        b",{\"name\":\"c#\",\"kind\":\"joint\"},{\"name\":\"d#\",\"kind\":\"joint\"}",
        i,
    )?;
    put_filled(
        out,
        b",{\"name\":\"q#\",\"kind\":\"point\",\"tip\":\"v#\"}",
        i,
    )?;
    put_filled(out, b",{\"name\":\"y#\",\"kind\":\"joint\"}", i)
}

#[tactic(auto, unfolding(crate::specs::Networks::tracks_text))]
fn put_tracks(out: &mut Vec<u8>, seed: u32, size: u32) -> Result<(), AllocError>
    requires { size ≤ 8 }
    ensures { OnOk result (out.new.items ≡ out.old.items ++ tracks_text seed size) }
{
    put(
        out,
        b",\"tracks\":[{\"name\":\"l0\",\"from\":\"W\",\"to\":\"x1\",\"length_m\":2500}",
    )?;
    put_each_tracks(out, seed, size)?;
    put(out, b"]")
}

/// For each station in turn.
fn put_each_tracks(out: &mut Vec<u8>, seed: u32, size: u32) -> Result<(), AllocError>
    requires { size ≤ 8 }
    ensures { OnOk result (out.new.items ≡ out.old.items ++ flat_map (tracks_of seed size) (range_with_len 1 size)) }
{
    for i in 1..size + 1 {
        put_tracks_of(out, seed, size, i)?;
    }
    Ok(())
}

/// The tracks of a station, and the line track behind it.
#[tactic(auto, unfolding(crate::specs::Networks::tracks_of))]
fn put_tracks_of(out: &mut Vec<u8>, seed: u32, size: u32, i: u32) -> Result<(), AllocError>
    requires number { (1 ≤ i) × (i ≤ size) }
    requires few { size ≤ 8 }
    ensures { OnOk result (out.new.items ≡ out.old.items ++ tracks_of seed size i) }
{
    put_station_tracks(out, i)?;
    put_line_track(out, seed, size, i)
}

/// The tracks of a station.
#[tactic(auto, unfolding(crate::specs::Networks::station_tracks))]
fn put_station_tracks(out: &mut Vec<u8>, i: u32) -> Result<(), AllocError>
    ensures { OnOk result (out.new.items ≡ out.old.items ++ station_tracks i) }
{
    put_filled(
        out,
        b",{\"name\":\"u#\",\"from\":\"x#\",\"to\":\"p#\",\"length_m\":500,\"virtual\":false}",
        i,
    )?;
    put_filled(
        out,
        b",{\"name\":\"e#\",\"from\":\"p#\",\"to\":\"a#\",\"length_m\":500,\"virtual\":false}",
        i,
    )?;
    put_filled(
        out,
        b",{\"name\":\"f#\",\"from\":\"p#\",\"to\":\"c#\",\"length_m\":500,\"virtual\":false}",
        i,
    )?;
    put_filled(
        out,
        b",{\"name\":\"m#\",\"from\":\"a#\",\"to\":\"b#\",\"length_m\":1000}",
        i,
    )?;
    put_filled(
        out,
        b",{\"name\":\"n#\",\"from\":\"c#\",\"to\":\"d#\",\"length_m\":1000}",
        i,
    )?;
    put_filled(
        out,
        b",{\"name\":\"g#\",\"from\":\"b#\",\"to\":\"q#\",\"length_m\":500,\"virtual\":false}",
        i,
    )?;
    put_filled(
        out,
        b",{\"name\":\"h#\",\"from\":\"d#\",\"to\":\"q#\",\"length_m\":500,\"virtual\":false}",
        i,
    )?;
    put_filled(
        out,
        b",{\"name\":\"v#\",\"from\":\"q#\",\"to\":\"y#\",\"length_m\":500,\"virtual\":false}",
        i,
    )
}

/// The line track behind a station.
#[tactic(auto, unfolding(crate::specs::Networks::line_track))]
fn put_line_track(out: &mut Vec<u8>, seed: u32, size: u32, i: u32) -> Result<(), AllocError>
    requires number { (1 ≤ i) × (i ≤ size) }
    requires few { size ≤ 8 }
    ensures { OnOk result (out.new.items ≡ out.old.items ++ line_track seed size i) }
{
    put_filled(out, b",{\"name\":\"l#\",\"from\":\"y#\",\"to\":\"", i)?;
    put_line_end(out, size, i)?;
    put_filled(
        out,
        b"\",\"length_m\":#}",
        2000 + 500 * draw(seed, i - 1, 3),
    )
}

/// The node at which the line track ends.
#[tactic(auto, unfolding(crate::specs::Networks::line_end))]
fn put_line_end(out: &mut Vec<u8>, size: u32, i: u32) -> Result<(), AllocError>
    requires { size ≤ 8 }
    ensures { OnOk result (out.new.items ≡ out.old.items ++ line_end size i) }
{
    if i < size {
        put_filled(out, b"x#", i + 1)
    } else {
        put(out, b"E")
    }
}

#[tactic(auto, unfolding(crate::specs::Networks::sections_text))]
fn put_sections(out: &mut Vec<u8>, size: u32) -> Result<(), AllocError>
    requires { size ≤ 8 }
    ensures { OnOk result (out.new.items ≡ out.old.items ++ sections_text size) }
{
    put(out, b",\"sections\":[{\"name\":\"L0\",\"tracks\":[\"l0\"]}")?;
    put_each_sections(out, size)?;
    put(out, b"]")
}

/// For each station in turn.
fn put_each_sections(out: &mut Vec<u8>, size: u32) -> Result<(), AllocError>
    requires { size ≤ 8 }
    ensures { OnOk result (out.new.items ≡ out.old.items ++ flat_map sections_of (range_with_len 1 size)) }
{
    for i in 1..size + 1 {
        put_sections_of(out, i)?;
    }
    Ok(())
}

/// The sections of a station, and of the line track behind it.
#[tactic(auto, unfolding(crate::specs::Networks::sections_of))]
fn put_sections_of(out: &mut Vec<u8>, i: u32) -> Result<(), AllocError>
    ensures { OnOk result (out.new.items ≡ out.old.items ++ sections_of i) }
{
    put_filled(
        out,
        b",{\"name\":\"P#\",\"tracks\":[\"u#\",\"e#\",\"f#\"]}",
        i,
    )?;
    put_filled(
        out,
        b",{\"name\":\"M#\",\"tracks\":[\"m#\"]},{\"name\":\"N#\",\"tracks\":[\"n#\"]}",
        i,
    )?;
    put_filled(
        out,
        b",{\"name\":\"Q#\",\"tracks\":[\"g#\",\"h#\",\"v#\"]}",
        i,
    )?;
    put_filled(out, b",{\"name\":\"L#\",\"tracks\":[\"l#\"]}", i)
}

#[tactic(auto, unfolding(crate::specs::Networks::stations_text))]
fn put_stations(out: &mut Vec<u8>, size: u32) -> Result<(), AllocError>
    requires { size ≤ 8 }
    ensures { OnOk result (out.new.items ≡ out.old.items ++ stations_text size) }
{
    put(out, b",\"stations\":[")?;
    put_each_station(out, size)?;
    put(out, b"]}\n")
}

/// For each station in turn.
fn put_each_station(out: &mut Vec<u8>, size: u32) -> Result<(), AllocError>
    requires { size ≤ 8 }
    ensures { OnOk result (out.new.items ≡ out.old.items ++ flat_map station_of (range_with_len 1 size)) }
{
    for i in 1..size + 1 {
        put_station(out, i)?;
    }
    Ok(())
}

#[tactic(auto, unfolding(crate::specs::Networks::station_of))]
fn put_station(out: &mut Vec<u8>, i: u32) -> Result<(), AllocError>
    ensures { OnOk result (out.new.items ≡ out.old.items ++ station_of i) }
{
    put_comma(out, 1, i)?;
    put_filled(out, b"{\"name\":\"S#\",\"tracks\":[\"m#\",\"n#\"]}", i)
}

/// A comma, but before the first item.
#[tactic(auto, unfolding(crate::specs::Networks::comma_unless))]
pub(crate) fn put_comma(out: &mut Vec<u8>, first: u32, i: u32) -> Result<(), AllocError>
    ensures { OnOk result (out.new.items ≡ out.old.items ++ comma_unless first i) }
{
    if i == first {
        put(out, b"")
    } else {
        put(out, b",")
    }
}
