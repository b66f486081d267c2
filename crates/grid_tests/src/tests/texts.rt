//! Documents that tests begin with, changes of them, and how they are answered.

use cell_net::Scene;
use discretise::{CutRefusal, scene_of};
use net_reader::read_net;
use std::alloc::Global;
use std::test::Fail;
use timetable::read_timetable;

/// A track of 2,000 m between two ends.
pub(super) const LINE: &str =
    r#"{"nodes":[{"name":"A","kind":"end"},{"name":"B","kind":"end"}],"tracks":[{"name":"t","from":"A","to":"B","length_m":2000}],"sections":[{"name":"s","tracks":["t"]}],"borders":[],"stations":[{"name":"S","tracks":["t"]}]}"#;

/// Cells of 500 m, ten steps of 60 s, and a train of 400 m that runs 120 km/h.
pub(super) const TIMES: &str =
    r#"{"space_step_m":500,"time_step_s":60,"horizon_s":600,"trains":[{"name":"X","length_m":400,"speed_kmh":120,"entry_s":0,"from":"A","to":"B"}]}"#;

/// What is changed, and what it becomes.
pub(super) type Change = (&'static str, &'static str);

/// The text with the first place of what is changed as it becomes; an error where there is none.
pub(super) fn changed(alloc: Global, text: &str, change: Change) -> Result<String, Fail> {
    let (old, new) = change;
    let (before, after) = text.split_once(old).ok_or("nothing to change")?;
    Ok(format!(in alloc; "{before}{new}{after}")?)
}

/// The scene of the two documents, or why there is none.
pub(super) fn scene(
    alloc: Global,
    network: &str,
    times: &str,
) -> Result<Result<Scene, CutRefusal>, Fail> {
    let Ok(net) = read_net(alloc, network.as_bytes()) else {
        return Err(Fail::from("no network"));
    };
    let Ok(timetable) = read_timetable(alloc, times.as_bytes(), &net) else {
        return Err(Fail::from("no timetable"));
    };
    Ok(scene_of(alloc, &net, &timetable))
}

/// How the two documents are answered.
pub(super) fn answer(
    alloc: Global,
    network: &str,
    times: &str,
) -> Result<Result<(), CutRefusal>, Fail> {
    match scene(alloc, network, times)? {
        Ok(_scene) => Ok(Ok(())),
        Err(refusal) => Ok(Err(refusal)),
    }
}
