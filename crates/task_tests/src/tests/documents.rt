//! Documents of networks and timetables, and the scenes that they are cut into.
use cell_net::Scene;
use discretise::scene_of;
use net_reader::read_net;
use std::alloc::Global;
use std::test::Fail;
use timetable::read_timetable;

/// A network and a timetable, as texts.
#[derive(Clone, Copy)]
pub(super) struct Documents {
    pub(super) network: &'static str,
    pub(super) timetable: &'static str,
}

/// The scene of the documents; an error where they are refused.
pub(super) fn scene(alloc: Global, documents: Documents) -> Result<Scene, Fail> {
    let Ok(net) = read_net(alloc, documents.network.as_bytes()) else {
        return Err(Fail::from("no network"));
    };
    let Ok(timetable) = read_timetable(alloc, documents.timetable.as_bytes(), &net) else {
        return Err(Fail::from("no timetable"));
    };
    match scene_of(alloc, &net, &timetable) {
        Ok(scene) => Ok(scene),
        Err(_refusal) => Err(Fail::from("no scene")),
    }
}

/// One track of 2,000 m, cut into four cells.
const LINE: &str =
    r#"{"nodes":[{"name":"A","kind":"end"},{"name":"B","kind":"end"}],"tracks":[{"name":"t1","from":"A","to":"B","length_m":2000}],"sections":[{"name":"s1","tracks":["t1"]}]}"#;

/// One train, which has to arrive.
pub(super) const ALONE: Documents = Documents {
    network: LINE,
    timetable: r#"{"space_step_m":500,"time_step_s":60,"horizon_s":600,"trains":[{"name":"X","length_m":400,"speed_kmh":30,"from":"A","to":"B","entry_s":0,"arrive_s":180}]}"#,
};

/// A train of 2,500 m, and a horizon of two steps.
pub(super) const TOO_FAR: Documents = Documents {
    network: LINE,
    timetable: r#"{"space_step_m":500,"time_step_s":60,"horizon_s":120,"trains":[{"name":"Z","length_m":2500,"speed_kmh":30,"from":"A","to":"B","entry_s":0}]}"#,
};

/// The second train enters two steps behind the first.
pub(super) const FOLLOWING: Documents = Documents {
    network: LINE,
    timetable: r#"{"space_step_m":500,"time_step_s":60,"horizon_s":600,"trains":[{"name":"X","length_m":400,"speed_kmh":30,"from":"A","to":"B","entry_s":0,"arrive_s":180},{"name":"Y","length_m":400,"speed_kmh":30,"from":"A","to":"B","entry_s":120}]}"#,
};

/// It enters three steps behind, when the first one has left.
pub(super) const LATER: Documents = Documents {
    network: LINE,
    timetable: r#"{"space_step_m":500,"time_step_s":60,"horizon_s":600,"trains":[{"name":"X","length_m":400,"speed_kmh":30,"from":"A","to":"B","entry_s":0,"arrive_s":180},{"name":"Y","length_m":400,"speed_kmh":30,"from":"A","to":"B","entry_s":180}]}"#,
};

/// It enters one step behind, and has to arrive.
pub(super) const SOONER: Documents = Documents {
    network: LINE,
    timetable: r#"{"space_step_m":500,"time_step_s":60,"horizon_s":600,"trains":[{"name":"X","length_m":400,"speed_kmh":30,"from":"A","to":"B","entry_s":0,"arrive_s":180},{"name":"Y","length_m":400,"speed_kmh":30,"from":"A","to":"B","entry_s":60,"arrive_s":300}]}"#,
};

/// It has to arrive a step sooner than it can.
pub(super) const TOO_SOON: Documents = Documents {
    network: LINE,
    timetable: r#"{"space_step_m":500,"time_step_s":60,"horizon_s":600,"trains":[{"name":"X","length_m":400,"speed_kmh":30,"from":"A","to":"B","entry_s":0,"arrive_s":180},{"name":"Y","length_m":400,"speed_kmh":30,"from":"A","to":"B","entry_s":60,"arrive_s":240}]}"#,
};

/// The trains meet.
pub(super) const HEAD_ON: Documents = Documents {
    network: LINE,
    timetable: r#"{"space_step_m":500,"time_step_s":60,"horizon_s":600,"trains":[{"name":"X","length_m":400,"speed_kmh":30,"from":"A","to":"B","entry_s":0},{"name":"Y","length_m":400,"speed_kmh":30,"from":"B","to":"A","entry_s":0}]}"#,
};

/// The second train may enter one or two steps behind the first.
pub(super) const WINDOW: Documents = Documents {
    network: LINE,
    timetable: r#"{"space_step_m":500,"time_step_s":60,"horizon_s":600,"trains":[{"name":"X","length_m":400,"speed_kmh":30,"from":"A","to":"B","entry_s":0,"arrive_s":180},{"name":"Y","length_m":400,"speed_kmh":30,"from":"A","to":"B","entry_s":60,"entry_until_s":120}]}"#,
};

/// It may enter when the first one has left.
pub(super) const WIDE_WINDOW: Documents = Documents {
    network: LINE,
    timetable: r#"{"space_step_m":500,"time_step_s":60,"horizon_s":600,"trains":[{"name":"X","length_m":400,"speed_kmh":30,"from":"A","to":"B","entry_s":0,"arrive_s":180},{"name":"Y","length_m":400,"speed_kmh":30,"from":"A","to":"B","entry_s":60,"entry_until_s":180}]}"#,
};

/// A border is kept, and there are no trains.
pub(super) const KEPT: Documents = Documents {
    network: r#"{"nodes":[{"name":"A","kind":"end"},{"name":"B","kind":"end"}],"tracks":[{"name":"t1","from":"A","to":"B","length_m":2000}],"sections":[{"name":"s1","tracks":["t1"]}],"borders":[{"track":"t1","at_m":1000}]}"#,
    timetable: r#"{"space_step_m":500,"time_step_s":60,"horizon_s":600,"trains":[]}"#,
};

/// A train stops at a station.
pub(super) const STOP: Documents = Documents {
    network: r#"{"nodes":[{"name":"A","kind":"end"},{"name":"J","kind":"joint"},{"name":"B","kind":"end"}],"tracks":[{"name":"t1","from":"A","to":"J","length_m":1000},{"name":"t2","from":"J","to":"B","length_m":1000}],"sections":[{"name":"s1","tracks":["t1","t2"]}],"stations":[{"name":"S","tracks":["t2"]}]}"#,
    timetable: r#"{"space_step_m":500,"time_step_s":60,"horizon_s":600,"trains":[{"name":"X","length_m":400,"speed_kmh":30,"from":"A","to":"B","entry_s":0,"arrive_s":240,"stops":[{"station":"S","dwell_s":60}]}]}"#,
};

/// Two trains meet on one cell.
pub(super) const SHORT: Documents = Documents {
    network: r#"{"nodes":[{"name":"A","kind":"end"},{"name":"B","kind":"end"}],"tracks":[{"name":"t1","from":"A","to":"B","length_m":500}],"sections":[{"name":"s1","tracks":["t1"]}]}"#,
    timetable: r#"{"space_step_m":500,"time_step_s":60,"horizon_s":60,"trains":[{"name":"X","length_m":400,"speed_kmh":30,"from":"A","to":"B","entry_s":0},{"name":"Y","length_m":400,"speed_kmh":30,"from":"B","to":"A","entry_s":0}]}"#,
};

/// A train follows another one up to a point, and leaves it there.
pub(super) const JUNCTION: Documents = Documents {
    network: r#"{"nodes":[{"name":"A","kind":"end"},{"name":"P","kind":"point","tip":"t1"},{"name":"B","kind":"end"},{"name":"C","kind":"end"}],"tracks":[{"name":"t1","from":"A","to":"P","length_m":2000},{"name":"t2","from":"P","to":"B","length_m":1500},{"name":"t3","from":"P","to":"C","length_m":1500}],"sections":[{"name":"s1","tracks":["t1","t2","t3"]}]}"#,
    timetable: r#"{"space_step_m":500,"time_step_s":60,"horizon_s":600,"trains":[{"name":"X","length_m":400,"speed_kmh":60,"entry_s":0,"from":"A","to":"B","arrive_s":180},{"name":"Y","length_m":400,"speed_kmh":60,"entry_s":60,"from":"A","to":"C","arrive_s":360}]}"#,
};

/// Two trains meet at a crossing, and one may wait outside.
pub(super) const CROSSING: Documents = Documents {
    network: r#"{"nodes":[{"name":"A","kind":"end"},{"name":"B","kind":"end"},{"name":"C","kind":"end"},{"name":"D","kind":"end"},{"name":"X","kind":"crossing","pairs":[["a","b"],["c","d"]]}],"tracks":[{"name":"a","from":"A","to":"X","length_m":1000},{"name":"b","from":"X","to":"B","length_m":1000},{"name":"c","from":"C","to":"X","length_m":1000},{"name":"d","from":"X","to":"D","length_m":1000}],"sections":[{"name":"s1","tracks":["a","b","c","d"]}]}"#,
    timetable: r#"{"space_step_m":500,"time_step_s":60,"horizon_s":600,"trains":[{"name":"P","length_m":400,"speed_kmh":60,"entry_s":0,"from":"A","to":"B","arrive_s":120},{"name":"Q","length_m":400,"speed_kmh":60,"entry_s":0,"from":"C","to":"D","arrive_s":240,"entry_until_s":120}]}"#,
};

/// Two tracks side by side close a ring in one section.
pub(super) const RING: Documents = Documents {
    network: r#"{"nodes":[{"name":"A","kind":"end"},{"name":"P","kind":"point","tip":"t1"},{"name":"Q","kind":"point","tip":"t2"},{"name":"B","kind":"end"}],"tracks":[{"name":"t1","from":"A","to":"P","length_m":500},{"name":"n","from":"P","to":"Q","length_m":1500},{"name":"s","from":"P","to":"Q","length_m":1500},{"name":"t2","from":"Q","to":"B","length_m":500}],"sections":[{"name":"s1","tracks":["t1","n","s","t2"]}]}"#,
    timetable: r#"{"space_step_m":500,"time_step_s":60,"horizon_s":600,"trains":[{"name":"X","length_m":400,"speed_kmh":60,"entry_s":0,"from":"A","to":"B","arrive_s":240},{"name":"Y","length_m":400,"speed_kmh":60,"entry_s":60,"from":"B","to":"A","arrive_s":180}]}"#,
};

/// Trains meet at a station.
pub(super) const PASSING: Documents = Documents {
    network: r#"{"nodes":[{"name":"W","kind":"end"},{"name":"J","kind":"joint"},{"name":"P","kind":"point","tip":"a"},{"name":"U1","kind":"joint"},{"name":"U2","kind":"joint"},{"name":"L1","kind":"joint"},{"name":"L2","kind":"joint"},{"name":"Q","kind":"point","tip":"b"},{"name":"K","kind":"joint"},{"name":"E","kind":"end"}],"tracks":[{"name":"w","from":"W","to":"J","length_m":1000},{"name":"a","from":"J","to":"P","length_m":500},{"name":"u1","from":"P","to":"U1","length_m":500},{"name":"l1","from":"P","to":"L1","length_m":500},{"name":"u","from":"U1","to":"U2","length_m":1000},{"name":"l","from":"L1","to":"L2","length_m":1000},{"name":"u2","from":"U2","to":"Q","length_m":500},{"name":"l2","from":"L2","to":"Q","length_m":500},{"name":"b","from":"Q","to":"K","length_m":500},{"name":"e","from":"K","to":"E","length_m":1000}],"sections":[{"name":"west","tracks":["w"]},{"name":"west_points","tracks":["a","u1","l1"]},{"name":"upper","tracks":["u"]},{"name":"lower","tracks":["l"]},{"name":"east_points","tracks":["u2","l2","b"]},{"name":"east","tracks":["e"]}],"stations":[{"name":"S","tracks":["u","l"]}]}"#,
    timetable: r#"{"space_step_m":500,"time_step_s":60,"horizon_s":600,"trains":[{"name":"X","length_m":400,"speed_kmh":120,"entry_s":0,"from":"W","to":"E","arrive_s":300,"stops":[{"station":"S","dwell_s":60}]},{"name":"Y","length_m":400,"speed_kmh":120,"entry_s":0,"from":"E","to":"W","arrive_s":240}]}"#,
};

/// Two trains follow each other through a ring.
pub(super) const LOOP: Documents = Documents {
    network: r#"{"nodes":[{"name":"A","kind":"end"},{"name":"P","kind":"point","tip":"a"},{"name":"Q","kind":"point","tip":"b"},{"name":"B","kind":"end"}],"tracks":[{"name":"a","from":"A","to":"P","length_m":500},{"name":"u","from":"P","to":"Q","length_m":1000},{"name":"w","from":"P","to":"Q","length_m":1000},{"name":"b","from":"Q","to":"B","length_m":500}],"sections":[{"name":"s1","tracks":["a","u","w","b"]}]}"#,
    timetable: r#"{"space_step_m":500,"time_step_s":60,"horizon_s":600,"trains":[{"name":"X","length_m":400,"speed_kmh":30,"from":"A","to":"B","entry_s":0,"arrive_s":180},{"name":"Y","length_m":400,"speed_kmh":30,"from":"A","to":"B","entry_s":120}]}"#,
};
