//! What a document's value is read as.

ghost use Rattle.std.specs.Prelude.{◌≡◌, IfOk};
ghost use Rattle.vss_json.specs.Values.{json_of};
ghost use Rattle.vss_json.specs.Readings.{Gives};
ghost use Rattle.timetable.specs.Document.{HasFewEntries, HasFewStopEntries, at_train as fault_at, timetable_document, stop_entry, train_entry};

use crate::entries::{Entries, StopEntry, TrainEntry};
use crate::refusal::TimeMember;
use std::alloc::Global;
use vss_json::{
    Json, Reader, ShapeFault, WalkFault, has_member, list, number, object, optional_list,
    optional_number, text,
};

/// What the walk over a timetable document gives.
type Walk<T> = Result<T, WalkFault<TimeMember>>;

/// A member that is missing or isn't what it has to be.
fn at(member: TimeMember, item: u32) -> ShapeFault<TimeMember>
    ensures { result ≡ fault_at member item }
{
    ShapeFault { member, item }
}

/// Reads timetables.
#[derive(Clone, Copy)]
pub(crate) struct Document;

impl Reader<Entries, TimeMember> for Document {
    ghost reading = { λ r item. timetable_document };

    ghost keeps = { λ r. HasFewEntries };

    fn read(&self, alloc: Global, value: &Json, _item: u32) -> Walk<Entries> {
        entries(alloc, value)
    }
}

#[tactic(auto, unfolding(crate::specs::Document::timetable_document))]
fn entries(alloc: Global, value: &Json) -> Walk<Entries>
    ensures read { Gives (timetable_document (json_of value.now)) result }
    ensures few { IfOk result HasFewEntries }
{
    object(value, at(TimeMember::Document, 0))?;
    let space_step_m = number(value, "space_step_m", at(TimeMember::SpaceStepM, 0))?;
    let time_step_s = number(value, "time_step_s", at(TimeMember::TimeStepS, 0))?;
    let horizon_s = number(value, "horizon_s", at(TimeMember::HorizonS, 0))?;
    let reader = Trains { horizon_s };
    let trains = list(alloc, &reader, value, "trains", at(TimeMember::Trains, 0))?;
    Ok(Entries {
        space_step_m,
        time_step_s,
        horizon_s,
        trains,
    })
}

/// Reads the trains of a timetable that ends at that time.
#[derive(Clone, Copy)]
struct Trains {
    horizon_s: u64,
}

impl Reader<TrainEntry, TimeMember> for Trains {
    ghost reading = { λ r. train_entry r.horizon_s };

    ghost keeps = { λ r. HasFewStopEntries };

    fn read(&self, alloc: Global, value: &Json, item: u32) -> Walk<TrainEntry> {
        train(alloc, value, item, self.horizon_s)
    }
}

#[tactic(auto, unfolding(crate::specs::Document::train_entry))]
fn train(alloc: Global, value: &Json, train: u32, horizon_s: u64) -> Walk<TrainEntry>
    ensures read { Gives (train_entry horizon_s train (json_of value.now)) result }
    ensures few { IfOk result HasFewStopEntries }
{
    object(value, at(TimeMember::Trains, train))?;
    let name = text(alloc, value, "name", at(TimeMember::TrainsName, train))?;
    let length_m = number(value, "length_m", at(TimeMember::TrainsLengthM, train))?;
    let speed_kmh = number(value, "speed_kmh", at(TimeMember::TrainsSpeedKmh, train))?;
    let entry_s = number(value, "entry_s", at(TimeMember::TrainsEntryS, train))?;
    let from = text(alloc, value, "from", at(TimeMember::TrainsFrom, train))?;
    let to = text(alloc, value, "to", at(TimeMember::TrainsTo, train))?;
    let arrive_s = optional_number(value, "arrive_s", at(TimeMember::TrainsArriveS, train))?;
    let until = at(TimeMember::TrainsEntryUntilS, train);
    let entry_until_s = optional_number(value, "entry_until_s", until)?;
    let reader = Stops { train, horizon_s };
    let stops = optional_list(
        alloc,
        &reader,
        value,
        "stops",
        at(TimeMember::TrainsStops, train),
    )?;
    let has_legs = has_member(value, "legs");
    Ok(TrainEntry {
        name,
        length_m,
        speed_kmh,
        entry_s,
        from,
        to,
        arrive_s,
        entry_until_s,
        stops,
        has_legs,
    })
}

/// Reads the stops of the train of that number, in a timetable that ends at that time.
#[derive(Clone, Copy)]
struct Stops {
    train: u32,
    horizon_s: u64,
}

impl Reader<StopEntry, TimeMember> for Stops {
    ghost use Rattle.std.specs.Prelude.{⊤};

    ghost reading = { λ r. stop_entry r.train r.horizon_s };

    ghost keeps = { λ r stop. ⊤ };

    fn read(&self, alloc: Global, value: &Json, item: u32) -> Walk<StopEntry> {
        stop(alloc, value, self.train, self.horizon_s, item)
    }
}

#[tactic(auto, unfolding(crate::specs::Document::stop_entry))]
fn stop(alloc: Global, value: &Json, train: u32, horizon_s: u64, place: u32) -> Walk<StopEntry>
    ensures { Gives (stop_entry train horizon_s place (json_of value.now)) result }
{
    object(value, at(TimeMember::TrainsStops, train))?;
    let station = text(alloc, value, "station", at(TimeMember::StopsStation, train))?;
    let dwell_s = number(value, "dwell_s", at(TimeMember::StopsDwellS, train))?;
    let from_s = optional_number(value, "from_s", at(TimeMember::StopsFromS, train))?;
    let until_s = optional_number(value, "until_s", at(TimeMember::StopsUntilS, train))?;
    Ok(StopEntry {
        station,
        dwell_s,
        from_s: from_s.unwrap_or(0),
        until_s: until_s.unwrap_or(horizon_s),
    })
}
