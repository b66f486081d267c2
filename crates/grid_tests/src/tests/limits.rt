//! How many steps and trains are too many.

use super::texts::{LINE, TIMES, answer, changed};
use discretise::{CutFault, CutRefusal};
use rail_net::{ListKind, Spot};
use std::alloc::Global;
use std::test::Fail;

fn too_many(kind: CutFault) -> Result<(), CutRefusal> {
    Err(CutRefusal::Named {
        kind,
        spot: Spot {
            list: ListKind::Document,
            item: 0,
        },
    })
}

#[test]
fn at_most_400_steps(rt: HostRuntime) -> Result<(), Fail> {
    let alloc = rt.alloc();
    let most = changed(alloc, TIMES, (":600", ":24059"))?;
    assert!(rt; answer(alloc, LINE, &most)? == Ok(()));
    let more = changed(alloc, TIMES, (":600", ":24060"))?;
    assert!(rt; answer(alloc, LINE, &more)? == too_many(CutFault::TooManySteps));
    Ok(())
}

#[test]
fn at_most_32_trains(rt: HostRuntime) -> Result<(), Fail> {
    let alloc = rt.alloc();
    assert!(rt; answer(alloc, LINE, &trains(alloc, 31)?)? == Ok(()));
    assert!(rt; answer(alloc, LINE, &trains(alloc, 32)?)? == too_many(CutFault::TooManyTrains));
    Ok(())
}

/// A timetable of so many trains more.
fn trains(alloc: Global, more: u32) -> Result<String, Fail> {
    let mut text = String::from_str(
        alloc,
        r#"{"space_step_m":500,"time_step_s":60,"horizon_s":600,"trains":["#,
    )?;
    for number in 0..more {
        let train = format!(in alloc;
            r#"{{"name":"T{number}","length_m":400,"speed_kmh":120,"entry_s":0,"from":"A","to":"B"}},"#
        )?;
        text.push_str(&train)?;
    }
    text.push_str(
        r#"{"name":"X","length_m":400,"speed_kmh":120,"entry_s":0,"from":"A","to":"B"}]}"#,
    )?;
    Ok(text)
}
