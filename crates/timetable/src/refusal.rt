//! Why a timetable document is refused.

use rail_net::Spot;

/// A member of a timetable document, by its path, in the order in which members are read:
/// `StopsDwellS` is `trains.stops.dwell_s`.
#[derive(Clone, Copy, Debug, PartialEq, Eq)]
pub enum TimeMember {
    Document,
    SpaceStepM,
    TimeStepS,
    HorizonS,
    Trains,
    TrainsName,
    TrainsLengthM,
    TrainsSpeedKmh,
    TrainsEntryS,
    TrainsFrom,
    TrainsTo,
    TrainsArriveS,
    TrainsEntryUntilS,
    TrainsStops,
    StopsStation,
    StopsDwellS,
    StopsFromS,
    StopsUntilS,
}

/// The rules of timetables, in their order.
#[derive(Clone, Copy, Debug, PartialEq, Eq)]
pub enum TimeFault {
    /// The train's name isn't 1 to 32 letters and digits of ASCII, `_` and `-`.
    BadName,
    /// The train has a member `legs`: reversing inside the network isn't known yet.
    ReverseNotYet,
    /// The train's name stood before.
    DuplicateName,
    /// The train refers to a node or a station that isn't there.
    UnknownName,
    /// The train doesn't begin and end at end nodes.
    EndWanted,
    /// The step of space isn't 1 to 100,000 m, that of time not 1 to 86,400 s, or the end isn't from
    /// one step of time to 10,000,000 s.
    StepRange,
    /// The train's length isn't 1 to 1,000,000 m, its speed not 1 to 500 km/h, or one of its times or
    /// of its stops' is above 10,000,000 s.
    TrainRange,
}

/// Why a document is refused: the first of these in their order.
#[derive(Clone, Copy, Debug, PartialEq, Eq)]
pub enum TimeRefusal {
    /// The bytes are no JSON text in UTF-8, or one that nests deeper than 127.
    NotJson,
    /// The member is missing, or its value isn't what it has to be; in the train of that number, or 0
    /// outside of trains.
    Shape { member: TimeMember, item: u32 },
    /// The first rule of timetables that is broken, and the lowest train that breaks it, or the
    /// document where its steps do.
    Named { kind: TimeFault, spot: Spot },
    /// Want of memory.
    Memory,
}
