//! The words of refusals in printed lines: their kinds and places.

ghost use Rattle.std.specs.Prelude.{◌≡◌};
ghost use Rattle.vss_answers.specs.RefusalWords.{list_word, net_member_word, net_fault_word, time_member_word, time_fault_word, cut_fault_word};

use discretise::CutFault;
use net_reader::Member;
use rail_net::{ListKind, NetFault};
use timetable::{TimeFault, TimeMember};

/// The word for the list of a place in a document.
pub fn word_of_list(list: ListKind) -> &'static [u8]
    ensures { result.now ≡ list_word list }
{
    match list {
        ListKind::Document => b"document",
        ListKind::Nodes => b"nodes",
        ListKind::Tracks => b"tracks",
        ListKind::Sections => b"sections",
        ListKind::Borders => b"borders",
        ListKind::Stations => b"stations",
        ListKind::Trains => b"trains",
    }
}

/// The word for a member of a network, by its path.
pub fn word_of_net_member(net_member: Member) -> &'static [u8]
    ensures { result.now ≡ net_member_word net_member }
{
    match net_member {
        Member::Document => b"document",
        Member::Nodes => b"nodes",
        Member::NodesName => b"nodes.name",
        Member::NodesKind => b"nodes.kind",
        Member::NodesTip => b"nodes.tip",
        Member::NodesPairs => b"nodes.pairs",
        Member::Tracks => b"tracks",
        Member::TracksName => b"tracks.name",
        Member::TracksFrom => b"tracks.from",
        Member::TracksTo => b"tracks.to",
        Member::TracksLengthM => b"tracks.length_m",
        Member::TracksLimitKmh => b"tracks.limit_kmh",
        Member::TracksVirtual => b"tracks.virtual",
        Member::Sections => b"sections",
        Member::SectionsName => b"sections.name",
        Member::SectionsTracks => b"sections.tracks",
        Member::Borders => b"borders",
        Member::BordersTrack => b"borders.track",
        Member::BordersAtM => b"borders.at_m",
        Member::BordersJoint => b"borders.joint",
        Member::Stations => b"stations",
        Member::StationsName => b"stations.name",
        Member::StationsTracks => b"stations.tracks",
    }
}

/// The word for a rule of networks.
pub fn word_of_net_fault(net_fault: NetFault) -> &'static [u8]
    ensures { result.now ≡ net_fault_word net_fault }
{
    match net_fault {
        NetFault::DuplicateName => b"DuplicateName",
        NetFault::UnknownName => b"UnknownName",
        NetFault::NodeDegree => b"NodeDegree",
        NetFault::TipNotHere => b"TipNotHere",
        NetFault::PairsNotHere => b"PairsNotHere",
        NetFault::LoopTrack => b"LoopTrack",
        NetFault::TrackInNoSection => b"TrackInNoSection",
        NetFault::TrackInTwoSections => b"TrackInTwoSections",
        NetFault::SplitSection => b"SplitSection",
        NetFault::SectionApart => b"SectionApart",
        NetFault::BorderPlace => b"BorderPlace",
        NetFault::LengthRange => b"LengthRange",
        NetFault::LimitRange => b"LimitRange",
    }
}

/// The word for a member of a timetable, by its path.
pub fn word_of_time_member(time_member: TimeMember) -> &'static [u8]
    ensures { result.now ≡ time_member_word time_member }
{
    match time_member {
        TimeMember::Document => b"document",
        TimeMember::SpaceStepM => b"space_step_m",
        TimeMember::TimeStepS => b"time_step_s",
        TimeMember::HorizonS => b"horizon_s",
        TimeMember::Trains => b"trains",
        TimeMember::TrainsName => b"trains.name",
        TimeMember::TrainsLengthM => b"trains.length_m",
        TimeMember::TrainsSpeedKmh => b"trains.speed_kmh",
        TimeMember::TrainsEntryS => b"trains.entry_s",
        TimeMember::TrainsFrom => b"trains.from",
        TimeMember::TrainsTo => b"trains.to",
        TimeMember::TrainsArriveS => b"trains.arrive_s",
        TimeMember::TrainsEntryUntilS => b"trains.entry_until_s",
        TimeMember::TrainsStops => b"trains.stops",
        TimeMember::StopsStation => b"trains.stops.station",
        TimeMember::StopsDwellS => b"trains.stops.dwell_s",
        TimeMember::StopsFromS => b"trains.stops.from_s",
        TimeMember::StopsUntilS => b"trains.stops.until_s",
    }
}

/// The word for a rule of timetables.
pub fn word_of_time_fault(time_fault: TimeFault) -> &'static [u8]
    ensures { result.now ≡ time_fault_word time_fault }
{
    match time_fault {
        TimeFault::BadName => b"BadName",
        TimeFault::ReverseNotYet => b"ReverseNotYet",
        TimeFault::DuplicateName => b"DuplicateName",
        TimeFault::UnknownName => b"UnknownName",
        TimeFault::EndWanted => b"EndWanted",
        TimeFault::StepRange => b"StepRange",
        TimeFault::TrainRange => b"TrainRange",
    }
}

/// The word for a rule of the grid.
pub fn word_of_cut_fault(cut_fault: CutFault) -> &'static [u8]
    ensures { result.now ≡ cut_fault_word cut_fault }
{
    match cut_fault {
        CutFault::TooManyCells => b"TooManyCells",
        CutFault::TooManyCandidates => b"TooManyCandidates",
        CutFault::TooManyTrains => b"TooManyTrains",
        CutFault::TooManySteps => b"TooManySteps",
        CutFault::LimitTooLow => b"LimitTooLow",
        CutFault::BorderOffGrid => b"BorderOffGrid",
        CutFault::TooSlow => b"TooSlow",
        CutFault::StepTooCoarse => b"StepTooCoarse",
        CutFault::TrainTooLong => b"TrainTooLong",
        CutFault::EntryPastHorizon => b"EntryPastHorizon",
        CutFault::ArrivalBeforeEntry => b"ArrivalBeforeEntry",
        CutFault::WindowEmpty => b"WindowEmpty",
        CutFault::StopWindow => b"StopWindow",
    }
}
