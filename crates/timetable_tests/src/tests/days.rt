//! What is read of a timetable, and what is no timetable.

use super::texts::{DAY, LINE, answer, changed};
use net_reader::read_net;
use std::test::Fail;
use timetable::{StopPart, TimeMember, TimeRefusal, Timetable, TrainPart, read_timetable};

#[test]
fn trains_have_the_numbers_of_their_nodes_and_stations(rt: HostRuntime) -> Result<(), Fail> {
    let net = read_net(rt.alloc(), LINE.as_bytes()).ok().ok_or("no line")?;
    let read = match read_timetable(rt.alloc(), DAY.as_bytes(), &net) {
        Ok(day) => is_the_day(&day),
        Err(_) => false,
    };
    assert_eq!(rt; read, true);
    Ok(())
}

/// Whether the trains are those of the day, with the numbers of the line's nodes and stations.
fn is_the_day(day: &Timetable) -> bool {
    match (day.trains.get(0), day.trains.get(1)) {
        (Some(first), Some(second)) => is_first(first)
            && is_second(second)
            && day.trains.len() == 2,
        _ => false,
    }
}

fn is_first(train: &TrainPart) -> bool {
    let times = train.entry_s == 0
        && train.arrive_s == Some(900)
        && train.entry_until_s == Some(120);
    let sizes = train.length_m == 400 && train.speed_kmh == 120;
    match train.stops.get(1) {
        Some(stop) => is_short(stop) && times && sizes && train.from == 0 && train.to == 3,
        None => false,
    }
}

fn is_short(stop: &StopPart) -> bool {
    stop.station == 0 && stop.from_s == 0 && stop.until_s == 1800 && stop.dwell_s == 61
}

fn is_second(train: &TrainPart) -> bool {
    let free = train.arrive_s == None && train.entry_until_s == None;
    train.name.as_str() == "T1"
        && train.from == 4
        && train.to == 4
        && free
        && train.stops.is_empty()
}

#[test]
fn a_timetable_that_is_cut_is_no_json(rt: HostRuntime) -> Result<(), Fail> {
    let bytes = DAY.as_bytes();
    for piece in 0..bytes.len() / 20 + 1 {
        let end = piece.saturating_mul(20).min(bytes.len().saturating_sub(1));
        let got = answer(rt.alloc(), &bytes[..end])?;
        assert_eq!(rt; got, Err(TimeRefusal::NotJson), "{end}");
    }
    Ok(())
}

const NO_DOCUMENT: Result<(), TimeRefusal> = Err(TimeRefusal::Shape {
    member: TimeMember::Document,
    item: 0,
});

// A document, and how it is answered.
static WHOLE: [(&str, Result<(), TimeRefusal>); 5] = [
    ("", Err(TimeRefusal::NotJson)),
    ("{}}", Err(TimeRefusal::NotJson)),
    ("[]", NO_DOCUMENT),
    ("null", NO_DOCUMENT),
    (
        r#"{"trains":[],"horizon_s":60,"time_step_s":60,"space_step_m":500}"#,
        Ok(()),
    ),
];

#[test]
fn a_document_is_an_object(rt: HostRuntime) -> Result<(), Fail> {
    for (text, told) in &WHOLE {
        let got = answer(rt.alloc(), text.as_bytes())?;
        assert_eq!(rt; got, *told, "{text}");
    }
    Ok(())
}

// What is changed in a timetable that stays one.
static TIMETABLES: [(&str, &str); 20] = [
    (r#""T0""#, r#""aaaaaaaaaaaaaaaaaaaaaaaaaaaaaaaa""#),
    (r#""space_step_m":500"#, r#""space_step_m":1"#),
    (r#""space_step_m":500"#, r#""space_step_m":100000"#),
    (
        r#""space_step_m":500"#,
        r#""space_step_m":0,"space_step_m":500"#,
    ),
    (r#""time_step_s":60"#, r#""time_step_s":1"#),
    (r#"60,"horizon_s":1800"#, r#"86400,"horizon_s":86400"#),
    (r#""horizon_s":1800"#, r#""horizon_s":60"#),
    (r#""horizon_s":1800"#, r#""horizon_s":10000000"#),
    (r#""length_m":400"#, r#""length_m":1"#),
    (r#""length_m":400"#, r#""length_m":1000000"#),
    (r#""speed_kmh":120"#, r#""speed_kmh":1"#),
    (r#""speed_kmh":120"#, r#""speed_kmh":500"#),
    (r#""entry_s":0"#, r#""entry_s":10000000"#),
    (r#""arrive_s":900"#, r#""arrive_s":10000000"#),
    (r#""arrive_s":900"#, r#""arrive_s":0"#),
    (r#""entry_until_s":120"#, r#""entry_until_s":10000000"#),
    (r#""dwell_s":60"#, r#""dwell_s":10000000"#),
    (r#""from_s":100"#, r#""from_s":10000000"#),
    (r#""until_s":700"#, r#""until_s":10000000"#),
    (r#""to":"B""#, r#""to":"A","leg":[]"#),
];

#[test]
fn what_is_just_in_range_is_read(rt: HostRuntime) -> Result<(), Fail> {
    assert_eq!(rt; answer(rt.alloc(), DAY.as_bytes())?, Ok(()));
    for (old, new) in &TIMETABLES {
        let text = changed(rt.alloc(), DAY, old, new)?;
        let got = answer(rt.alloc(), text.as_bytes())?;
        assert_eq!(rt; got, Ok(()), "{old} to {new}");
    }
    Ok(())
}
