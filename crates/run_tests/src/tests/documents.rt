//! Documents that are refused: the file, the kind, the place and the item that are printed, and which comes first.

use super::asking::{JUDGE, expect_run, shelf_of};
use crate::texts::{BORDERED, LINE, XY, changed};
use std::alloc::Global;
use std::process::Abort;
use std::test::Fail;

fn expect_refused(
    rt: &impl Abort,
    alloc: Global,
    network: &str,
    timetable: &str,
    told: &str,
) -> Result<(), Fail> {
    let line = format!(in alloc; "refused {told}")?;
    let mut shelf = shelf_of(alloc, network, timetable, BORDERED)?;
    expect_run(rt, alloc, JUDGE, &mut shelf, line.as_str(), 3)
}

// What is changed in the network, and what is told of it.
static NETWORKS: [(&str, &str, &str); 12] = [
    ("\"name\":\"s1\"", "\"name\":7", "Shape sections.name 0"),
    (
        "\"kind\":\"end\"",
        "\"kind\":\"ends\"",
        "Shape nodes.kind 0",
    ),
    (
        "\"length_m\":2000",
        "\"length_m\":2000.0",
        "Shape tracks.length_m 0",
    ),
    ("\"name\":\"A\"", "\"name\":\"A B\"", "BadName nodes 0"),
    ("\"name\":\"B\"", "\"name\":\"A\"", "DuplicateName nodes 1"),
    ("\"to\":\"B\"", "\"to\":\"C\"", "UnknownName tracks 0"),
    (
        "\"kind\":\"end\"",
        "\"kind\":\"joint\"",
        "NodeDegree nodes 0",
    ),
    (
        "[{\"name\":\"s1\",\"tracks\":[\"t1\"]}]",
        "[]",
        "TrackInNoSection tracks 0",
    ),
    ("[\"t1\"]", "[\"t1\",\"t1\"]", "TrackInTwoSections tracks 0"),
    (
        "\"sections\"",
        "\"borders\":[{\"track\":\"t1\",\"at_m\":2000}],\"sections\"",
        "BorderPlace borders 0",
    ),
    ("2000", "1000001", "LengthRange tracks 0"),
    ("2000", "2000,\"limit_kmh\":0", "LimitRange tracks 0"),
];

#[test]
fn the_first_fault_of_a_network_is_told(rt: HostRuntime) -> Result<(), Fail> {
    for (old, new, told) in &NETWORKS {
        let network = changed(rt.alloc(), LINE, old, new)?;
        let told = format!(in rt.alloc(); "network {told}")?;
        expect_refused(&rt, rt.alloc(), network.as_str(), XY, told.as_str())?;
    }
    expect_refused(&rt, rt.alloc(), "", XY, "network NotJson document 0")?;
    expect_refused(&rt, rt.alloc(), "{}", XY, "network Shape nodes 0")
}

// What is changed in the timetable, and what is told of it or of the grid.
static TIMETABLES: [(&str, &str, &str); 16] = [
    (
        "\"space_step_m\":500",
        "\"space_step_m\":\"500\"",
        "timetable Shape space_step_m 0",
    ),
    ("\"trains\":[", "\"trains\":[7,", "timetable Shape trains 0"),
    (
        "\"entry_s\":0",
        "\"entry_s\":0,\"stops\":[7]",
        "timetable Shape trains.stops 0",
    ),
    (
        "\"name\":\"Y\"",
        "\"name\":\"Y Z\"",
        "timetable BadName trains 1",
    ),
    (
        "\"entry_s\":0",
        "\"entry_s\":0,\"legs\":null",
        "timetable ReverseNotYet trains 0",
    ),
    (
        "\"name\":\"Y\"",
        "\"name\":\"X\"",
        "timetable DuplicateName trains 1",
    ),
    (
        "\"to\":\"B\"",
        "\"to\":\"C\"",
        "timetable UnknownName trains 0",
    ),
    (
        "\"space_step_m\":500",
        "\"space_step_m\":0",
        "timetable StepRange document 0",
    ),
    (
        "\"speed_kmh\":30",
        "\"speed_kmh\":501",
        "timetable TrainRange trains 0",
    ),
    (
        "\"horizon_s\":600",
        "\"horizon_s\":24060",
        "grid TooManySteps document 0",
    ),
    (
        "\"speed_kmh\":30",
        "\"speed_kmh\":29",
        "grid TooSlow trains 0",
    ),
    (
        "\"space_step_m\":500",
        "\"space_step_m\":20",
        "grid StepTooCoarse trains 0",
    ),
    (
        "\"length_m\":400",
        "\"length_m\":32001",
        "grid TrainTooLong trains 0",
    ),
    (
        "\"entry_s\":0",
        "\"entry_s\":600",
        "grid EntryPastHorizon trains 0",
    ),
    (
        "\"arrive_s\":180",
        "\"arrive_s\":59",
        "grid ArrivalBeforeEntry trains 0",
    ),
    (
        "\"entry_s\":0",
        "\"entry_s\":60,\"entry_until_s\":0",
        "grid WindowEmpty trains 0",
    ),
];

#[test]
fn the_first_fault_of_a_timetable_is_told(rt: HostRuntime) -> Result<(), Fail> {
    for (old, new, told) in &TIMETABLES {
        let timetable = changed(rt.alloc(), XY, old, new)?;
        expect_refused(&rt, rt.alloc(), LINE, timetable.as_str(), told)?;
    }
    expect_refused(&rt, rt.alloc(), LINE, "", "timetable NotJson document 0")?;
    expect_refused(
        &rt,
        rt.alloc(),
        LINE,
        "{}",
        "timetable Shape space_step_m 0",
    )
}

// What is changed in the network, and what is told of the grid.
static GRIDS: [(&str, &str, &str); 4] = [
    ("2000", "500500", "TooManyCells document 0"),
    ("2000", "257000", "TooManyCandidates document 0"),
    ("2000", "2000,\"limit_kmh\":29", "LimitTooLow tracks 0"),
    (
        "\"sections\"",
        "\"borders\":[{\"track\":\"t1\",\"at_m\":750}],\"sections\"",
        "BorderOffGrid borders 0",
    ),
];

#[test]
fn the_first_fault_of_the_grid_is_told(rt: HostRuntime) -> Result<(), Fail> {
    for (old, new, told) in &GRIDS {
        let network = changed(rt.alloc(), LINE, old, new)?;
        let told = format!(in rt.alloc(); "grid {told}")?;
        expect_refused(&rt, rt.alloc(), network.as_str(), XY, told.as_str())?;
    }
    Ok(())
}

#[test]
fn the_timetable_is_refused_before_the_grid(rt: HostRuntime) -> Result<(), Fail> {
    let network = changed(rt.alloc(), LINE, "2000", "500500")?;
    let timetable = changed(rt.alloc(), XY, "\"speed_kmh\":30", "\"speed_kmh\":0")?;
    expect_refused(
        &rt,
        rt.alloc(),
        network.as_str(),
        timetable.as_str(),
        "timetable TrainRange trains 0",
    )
}
