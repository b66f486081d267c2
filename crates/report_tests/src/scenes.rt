//! A scene of two documents, for reports that are written and read.

use cell_net::Scene;
use discretise::scene_of;
use net_reader::read_net;
use std::alloc::Global;
use std::test::Fail;
use timetable::read_timetable;

/// A track of 2,000 m between two ends.
const LINE: &str =
    r#"{"nodes":[{"name":"A","kind":"end"},{"name":"B","kind":"end"}],"tracks":[{"name":"t1","from":"A","to":"B","length_m":2000}],"sections":[{"name":"s1","tracks":["t1"]}]}"#;

/// Two trains that follow each other, on cells of 500 m and in steps of 60 s.
const XY: &str =
    r#"{"space_step_m":500,"time_step_s":60,"horizon_s":600,"trains":[{"name":"X","length_m":400,"speed_kmh":30,"from":"A","to":"B","entry_s":0,"arrive_s":180},{"name":"Y","length_m":400,"speed_kmh":30,"from":"A","to":"B","entry_s":120}]}"#;

/// The scene of two trains that follow each other on one track.
pub fn following(alloc: Global) -> Result<Scene, Fail> {
    let Ok(net) = read_net(alloc, LINE.as_bytes()) else {
        return Err(Fail::from("no network"));
    };
    let Ok(timetable) = read_timetable(alloc, XY.as_bytes(), &net) else {
        return Err(Fail::from("no timetable"));
    };
    match scene_of(alloc, &net, &timetable) {
        Ok(scene) => Ok(scene),
        Err(_) => Err(Fail::from("no scene")),
    }
}
