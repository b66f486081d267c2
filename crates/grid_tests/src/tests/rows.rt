//! The rules of the grid, each at both sides of its edge, and which of two broken ones is told.

use super::texts::{Change, LINE, TIMES, answer, changed};
use discretise::{CutFault, CutRefusal};
use rail_net::{ListKind, Spot};
use std::test::Fail;

/// The rule and the item of its list that are told, if any.
type Told = Option<(CutFault, ListKind, u32)>;

// What is changed in the network, and what is told.
static NETWORKS: [(Change, Told); 10] = [
    (
        ("2000", "500500"),
        Some((CutFault::TooManyCells, ListKind::Document, 0)),
    ),
    (
        (r#""length_m":2000"#, r#""length_m":500000,"virtual":false"#),
        None,
    ),
    (
        ("2000", "257000"),
        Some((CutFault::TooManyCandidates, ListKind::Document, 0)),
    ),
    (("2000", "256500"), None),
    (
        (r#":2000"#, r#":2000,"limit_kmh":29"#),
        Some((CutFault::LimitTooLow, ListKind::Tracks, 0)),
    ),
    ((r#":2000"#, r#":2000,"limit_kmh":30"#), None),
    (
        (r#""borders":["#, r#""borders":[{"track":"t","at_m":750}"#),
        Some((CutFault::BorderOffGrid, ListKind::Borders, 0)),
    ),
    (
        (
            r#""borders":["#,
            r#""borders":[{"track":"t","at_m":500},{"track":"t","at_m":1501}"#,
        ),
        Some((CutFault::BorderOffGrid, ListKind::Borders, 1)),
    ),
    (
        (
            r#""borders":["#,
            r#""borders":[{"track":"t","at_m":500},{"track":"t","at_m":1500}"#,
        ),
        None,
    ),
    // a track that is no whole number of cells
    (("2000", "1999"), None),
];

#[test]
fn the_network_fits_the_grid(rt: HostRuntime) -> Result<(), Fail> {
    for (change, told) in &NETWORKS {
        let network = changed(rt.alloc(), LINE, *change)?;
        let got = answer(rt.alloc(), &network, TIMES)?;
        assert!(rt; got == wanted(*told), "{}", change.1);
    }
    Ok(())
}

fn wanted(told: Told) -> Result<(), CutRefusal> {
    match told {
        Some((kind, list, item)) => Err(CutRefusal::Named {
            kind,
            spot: Spot { list, item },
        }),
        None => Ok(()),
    }
}

// What is changed in the timetable, and which rule its train breaks.
static TRAINS: [(Change, Option<CutFault>); 24] = [
    ((r#":120,"#, r#":29,"#), Some(CutFault::TooSlow)),
    ((r#":120,"#, r#":30,"#), None),
    // 33 cells in a step of 120 s, then 21, then 20
    (
        (
            r#":60,"horizon_s":600,"trains":[{"name":"X","length_m":400,"speed_kmh":120"#,
            r#":120,"horizon_s":600,"trains":[{"name":"X","length_m":400,"speed_kmh":500"#,
        ),
        Some(CutFault::StepTooCoarse),
    ),
    (
        (
            r#":60,"horizon_s":600,"trains":[{"name":"X","length_m":400,"speed_kmh":120"#,
            r#":120,"horizon_s":600,"trains":[{"name":"X","length_m":400,"speed_kmh":315"#,
        ),
        Some(CutFault::StepTooCoarse),
    ),
    (
        (
            r#":60,"horizon_s":600,"trains":[{"name":"X","length_m":400,"speed_kmh":120"#,
            r#":120,"horizon_s":600,"trains":[{"name":"X","length_m":400,"speed_kmh":314"#,
        ),
        None,
    ),
    ((":400", ":32001"), Some(CutFault::TrainTooLong)),
    ((":400", ":32000"), None),
    (
        (r#""entry_s":0"#, r#""entry_s":541"#),
        Some(CutFault::EntryPastHorizon),
    ),
    ((r#""entry_s":0"#, r#""entry_s":540"#), None),
    (
        (r#""entry_s":0"#, r#""entry_s":0,"arrive_s":59"#),
        Some(CutFault::ArrivalBeforeEntry),
    ),
    ((r#""entry_s":0"#, r#""entry_s":0,"arrive_s":60"#), None),
    (
        (r#""entry_s":0"#, r#""entry_s":60,"arrive_s":119"#),
        Some(CutFault::ArrivalBeforeEntry),
    ),
    ((r#""entry_s":0"#, r#""entry_s":60,"arrive_s":120"#), None),
    // an arrival past the horizon is as one at its end
    ((r#""entry_s":0"#, r#""entry_s":540,"arrive_s":9000"#), None),
    (
        (r#""entry_s":0"#, r#""entry_s":1,"entry_until_s":59"#),
        Some(CutFault::WindowEmpty),
    ),
    (
        (r#""entry_s":0"#, r#""entry_s":1,"entry_until_s":60"#),
        None,
    ),
    (
        (
            r#""entry_s":0"#,
            r#""entry_s":0,"stops":[{"station":"S","dwell_s":60,"until_s":59}]"#,
        ),
        Some(CutFault::StopWindow),
    ),
    (
        (
            r#""entry_s":0"#,
            r#""entry_s":0,"stops":[{"station":"S","dwell_s":60,"until_s":60}]"#,
        ),
        None,
    ),
    // a stop takes one step at least, and begins and ends with whole steps
    (
        (
            r#""entry_s":0"#,
            r#""entry_s":0,"stops":[{"station":"S","dwell_s":0,"until_s":59}]"#,
        ),
        Some(CutFault::StopWindow),
    ),
    (
        (
            r#""entry_s":0"#,
            r#""entry_s":0,"stops":[{"station":"S","dwell_s":60,"from_s":1,"until_s":119}]"#,
        ),
        Some(CutFault::StopWindow),
    ),
    (
        (
            r#""entry_s":0"#,
            r#""entry_s":0,"stops":[{"station":"S","dwell_s":60,"from_s":1,"until_s":120}]"#,
        ),
        None,
    ),
    // of two, the earlier rule: too slow and too long, past the horizon and no step before its arrival
    (
        (r#":400,"speed_kmh":120"#, r#":32001,"speed_kmh":29"#),
        Some(CutFault::TooSlow),
    ),
    (
        (r#""entry_s":0"#, r#""entry_s":600,"arrive_s":59"#),
        Some(CutFault::EntryPastHorizon),
    ),
    (
        (
            r#""entry_s":0"#,
            r#""entry_s":60,"arrive_s":119,"entry_until_s":59"#,
        ),
        Some(CutFault::ArrivalBeforeEntry),
    ),
];

#[test]
fn the_train_fits_the_grid(rt: HostRuntime) -> Result<(), Fail> {
    for (change, told) in &TRAINS {
        let times = changed(rt.alloc(), TIMES, *change)?;
        let got = answer(rt.alloc(), LINE, &times)?;
        let want = wanted(told.map(|kind| (kind, ListKind::Trains, 0)));
        assert!(rt; got == want, "{}", change.1);
    }
    Ok(())
}

// What is changed in the network and in the timetable, and what is told: of two rules the earlier one, of two
// items the first.
static BOTH: [(Change, Change, Told); 4] = [
    (
        (r#":2000"#, r#":2000,"limit_kmh":29"#),
        (":600", ":24060"),
        Some((CutFault::TooManySteps, ListKind::Document, 0)),
    ),
    (
        (r#":2000"#, r#":2000,"limit_kmh":29"#),
        (":120,", ":29,"),
        Some((CutFault::LimitTooLow, ListKind::Tracks, 0)),
    ),
    (
        (r#""borders":["#, r#""borders":[{"track":"t","at_m":750}"#),
        (":120,", ":29,"),
        Some((CutFault::BorderOffGrid, ListKind::Borders, 0)),
    ),
    (
        (":2000", ":2000"),
        (
            r#""trains":["#,
            r#""trains":[{"name":"Y","length_m":32001,"speed_kmh":120,"entry_s":0,"from":"A","to":"B"},{"name":"Z","length_m":1,"speed_kmh":29,"entry_s":0,"from":"A","to":"B"},"#,
        ),
        Some((CutFault::TooSlow, ListKind::Trains, 1)),
    ),
];

#[test]
fn the_first_broken_rule_is_told(rt: HostRuntime) -> Result<(), Fail> {
    for (network, times, told) in &BOTH {
        let network = changed(rt.alloc(), LINE, *network)?;
        let times = changed(rt.alloc(), TIMES, *times)?;
        let got = answer(rt.alloc(), &network, &times)?;
        assert!(rt; got == wanted(*told), "{}", times.as_str());
    }
    Ok(())
}
