//! The timetable document.
ghost use Rattle.std.specs.Prelude.{◌≡◌, ◌≤◌, ◌<◌, ◌++◌, OnOk};
ghost use Rattle.std.specs.List.{flat_map, range_with_len};
ghost use Rattle.case_maker.specs.Timetables.{entry, span, timetable_text, train_of, way};

use crate::draws::draw;
use crate::network::put_comma;
use crate::text::{put, put_filled};
use std::alloc::AllocError;

/// Puts the document of the trains over so many stations.
#[tactic(auto, unfolding(crate::specs::Timetables::timetable_text))]
pub(crate) fn put_timetable(out: &mut Vec<u8>, seed: u32, size: u32) -> Result<(), AllocError>
    requires { (1 ≤ size) × (size ≤ 8) }
    ensures { OnOk result (out.new.items ≡ out.old.items ++ timetable_text seed size) }
{
    let groups = 1 + size / 2;
    put_filled(
        out,
        b"{\"space_step_m\":500,\"time_step_s\":60,\"horizon_s\":#,\"trains\":[",
        groups * span(size),
    )?;
    put_trains(out, seed, size, 2 * groups)?;
    put(out, b"]}\n")
}

/// The seconds from one group of trains to the next.
fn span(size: u32) -> u32
    requires { size ≤ 8 }
    ensures { result ≡ span size }
{
    600 + 300 * size
}

/// So many trains.
fn put_trains(out: &mut Vec<u8>, seed: u32, size: u32, count: u32) -> Result<(), AllocError>
    requires size { (1 ≤ size) × (size ≤ 8) }
    requires few { count ≤ 10 }
    ensures { OnOk result (out.new.items ≡ out.old.items ++ flat_map (train_of seed size) (range_with_len 0 count)) }
{
    for train in 0..count {
        put_train(out, seed, size, train)?;
    }
    Ok(())
}

#[tactic(auto, unfolding(crate::specs::Timetables::train_of))]
fn put_train(out: &mut Vec<u8>, seed: u32, size: u32, train: u32) -> Result<(), AllocError>
    requires size { (1 ≤ size) × (size ≤ 8) }
    requires few { train < 10 }
    ensures { OnOk result (out.new.items ≡ out.old.items ++ train_of seed size train) }
{
    let length = 300 + 100 * draw(seed, size + 2 * train, 3);
    let station = 1 + draw(seed, size + 2 * train + 1, size);
    put_comma(out, 0, train)?;
    put_filled(out, b"{\"name\":\"T#\"", train)?;
    put_filled(out, b",\"length_m\":#,\"speed_kmh\":120", length)?;
    put_way(out, train)?;
    put_filled(out, b",\"entry_s\":#", entry(size, train))?;
    put_filled(out, b",\"arrive_s\":#", (train / 2 + 1) * span(size))?;
    put_filled(
        out,
        b",\"stops\":[{\"station\":\"S#\",\"dwell_s\":60}]}",
        station,
    )
}

/// Where the train enters and leaves.
#[tactic(auto, unfolding(crate::specs::Timetables::way))]
fn put_way(out: &mut Vec<u8>, train: u32) -> Result<(), AllocError>
    ensures { OnOk result (out.new.items ≡ out.old.items ++ way train) }
{
    if train == 1 || train % 2 == 0 {
        put(out, b",\"from\":\"W\",\"to\":\"E\"")
    } else {
        put(out, b",\"from\":\"E\",\"to\":\"W\"")
    }
}

/// When the train enters, in seconds.
fn entry(size: u32, train: u32) -> u32
    requires size { size ≤ 8 }
    requires few { train < 10 }
    ensures { result ≡ entry size train }
{
    if train == 1 {
        60
    } else {
        train / 2 * span(size)
    }
}
