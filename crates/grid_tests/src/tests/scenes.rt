//! What is made of a network and a timetable.

use super::texts::{LINE, TIMES, changed, scene};
use cell_net::{CandidateId, NodeId};
use std::test::Fail;

/// Two tracks that meet at a point with a third one, a joint that parts two sections, and a station over two tracks.
const FORK: &str =
    r#"{"nodes":[{"name":"A","kind":"end"},{"name":"J","kind":"joint"},{"name":"P","kind":"point","tip":"b"},{"name":"K","kind":"joint"},{"name":"B","kind":"end"},{"name":"C","kind":"end"}],"tracks":[{"name":"a","from":"A","to":"J","length_m":1000},{"name":"b","from":"J","to":"P","length_m":501},{"name":"c","from":"P","to":"K","length_m":500},{"name":"d","from":"K","to":"B","length_m":500},{"name":"e","from":"P","to":"C","length_m":1500,"virtual":false}],"sections":[{"name":"s","tracks":["a"]},{"name":"r","tracks":["b","c","d","e"]}],"borders":[{"joint":"K"}],"stations":[{"name":"S","tracks":["d","c","d"]}]}"#;

#[test]
fn tracks_become_cells(rt: HostRuntime) -> Result<(), Fail> {
    let times = changed(rt.alloc(), TIMES, (r#""to":"B""#, r#""to":"C""#))?;
    let Ok(scene) = scene(rt.alloc(), FORK, &times)? else {
        return Err(Fail::from("refused"));
    };
    let parts = scene.inst.parts();
    // two cells of a and two of b, one of c, one of d and three of e
    assert_eq!(rt; parts.cells.len(), 9);
    assert_eq!(rt; scene.labels.cells.len(), 9);
    // six nodes, and a cut of a, one of b and two of e
    assert_eq!(rt; parts.nodes, 10);
    assert_eq!(rt; parts.sections, 2);
    // at four cuts, at J and K, and from the point's tip to both legs
    assert_eq!(rt; parts.joins.len(), 8);
    // the joint K and the cuts of a and b: J parts two sections, and e has no borders within it
    assert_eq!(rt; parts.candidates.len(), 3);
    assert_eq!(rt; parts.kept.len(), 1);
    assert_eq!(rt; parts.stations.len(), 1);
    assert_eq!(rt; parts.trains.len(), 1);
    assert_eq!(rt; parts.steps, 10);
    Ok(())
}

// The low node, the high node and the section of each cell: the network's nodes come first, then the cuts by track.
static CELLS: [(u32, u32, u32); 9] = [
    (0, 6, 0),
    (6, 1, 0),
    (1, 7, 1),
    (7, 2, 1),
    (2, 3, 1),
    (3, 4, 1),
    (2, 8, 1),
    (8, 9, 1),
    (9, 5, 1),
];

#[test]
fn nodes_and_candidates_have_their_numbers(rt: HostRuntime) -> Result<(), Fail> {
    let Ok(scene) = scene(rt.alloc(), FORK, TIMES)? else {
        return Err(Fail::from("refused"));
    };
    let parts = scene.inst.parts();
    assert_eq!(rt; parts.cells.len(), CELLS.len());
    for (cell, (low, high, section)) in parts.cells.as_slice().iter().zip(&CELLS) {
        assert_eq!(rt; cell.low.0, *low);
        assert_eq!(rt; cell.high.0, *high);
        assert_eq!(rt; cell.section.0, *section);
    }
    let candidates = [NodeId(3), NodeId(6), NodeId(7)];
    assert_eq!(rt; parts.candidates.as_slice(), candidates.as_slice());
    assert_eq!(rt; parts.kept.as_slice(), [CandidateId(0)].as_slice());
    Ok(())
}

#[test]
fn a_station_has_each_cell_once(rt: HostRuntime) -> Result<(), Fail> {
    let Ok(scene) = scene(rt.alloc(), FORK, TIMES)? else {
        return Err(Fail::from("refused"));
    };
    for station in scene.inst.parts().stations.as_slice() {
        assert_eq!(rt; station.len(), 2);
        assert!(rt; station.as_slice()[0].0 == 4 && station.as_slice()[1].0 == 5);
    }
    Ok(())
}

#[test]
fn times_become_steps(rt: HostRuntime) -> Result<(), Fail> {
    let change = (
        r#""entry_s":0"#,
        r#""entry_s":61,"arrive_s":299,"entry_until_s":239"#,
    );
    let times = changed(rt.alloc(), TIMES, change)?;
    let Ok(scene) = scene(rt.alloc(), LINE, &times)? else {
        return Err(Fail::from("refused"));
    };
    for train in scene.inst.parts().trains.as_slice() {
        // 400 m are one cell; 120 km/h are 2,000 m in a minute
        assert_eq!(rt; train.length, 1);
        assert_eq!(rt; train.advance, 4);
        // in from second 120 on, by second 180 at the latest, there by second 240
        assert_eq!(rt; train.start, 2);
        assert_eq!(rt; train.latest, 3);
        assert_eq!(rt; train.by, 3);
    }
    Ok(())
}
