//! Tests of sections and passages, on a network with every kind of node.

use net_reader::read_net;
use rail_net::Net;
use std::test::Fail;

/// A network with every kind of node and two sections.
static YARD: &str =
    r#"{"nodes":[{"name":"A","kind":"end"},{"name":"J","kind":"joint"},{"name":"P","kind":"point","tip":"t2"},{"name":"K","kind":"joint"},{"name":"B","kind":"end"},{"name":"X","kind":"crossing","pairs":[["t4","t5"],["t6","t7"]]},{"name":"C","kind":"end"},{"name":"D","kind":"end"},{"name":"E","kind":"end"}],"tracks":[{"name":"t1","from":"A","to":"J","length_m":1000},{"name":"t2","from":"J","to":"P","length_m":900,"limit_kmh":80},{"name":"t3","from":"P","to":"K","length_m":800},{"name":"t4","from":"P","to":"X","length_m":700,"virtual":false},{"name":"t5","from":"X","to":"C","length_m":600},{"name":"t6","from":"D","to":"X","length_m":550},{"name":"t7","from":"X","to":"E","length_m":400},{"name":"t8","from":"K","to":"B","length_m":300}],"sections":[{"name":"s1","tracks":["t1"]},{"name":"s2","tracks":["t2","t3","t4","t5","t6","t7","t8"]}],"borders":[{"track":"t1","at_m":500},{"joint":"K"}],"stations":[{"name":"S","tracks":["t3"]}]}"#;

// A node, two tracks, and whether a passage leads between them; None where a track has no end there.
static PASSAGES: [(u32, u32, u32, Option<bool>); 15] = [
    (0, 0, 0, Some(false)),
    (1, 0, 1, Some(true)),
    (1, 0, 0, Some(false)),
    (2, 1, 2, Some(true)),
    (2, 3, 1, Some(true)),
    (2, 2, 3, Some(false)),
    (2, 1, 1, Some(false)),
    (5, 3, 4, Some(true)),
    (5, 6, 5, Some(true)),
    (5, 3, 6, Some(false)),
    (5, 4, 5, Some(false)),
    (5, 5, 5, Some(false)),
    (2, 0, 1, None),
    (9, 0, 1, None),
    (1, 0, 8, None),
];

#[test]
fn passages_lead_as_the_kind_of_the_node_says(rt: HostRuntime) -> Result<(), Fail> {
    let net = read_net(rt.alloc(), YARD.as_bytes()).ok().ok_or("refused")?;
    for (node, one, other, leads) in &PASSAGES {
        let got = passage(&net, *node, *one, *other);
        assert_eq!(rt; got, *leads, "{node}: {one} to {other}");
    }
    Ok(())
}

/// Whether a passage leads between the tracks, if both have an end at the node.
fn passage(net: &Net, node: u32, one: u32, other: u32) -> Option<bool> {
    if net.is_at(node, one) && net.is_at(node, other) {
        Some(net.passage(node, one, other))
    } else {
        None
    }
}

// A track, and its section; None where there is no such track.
static SECTIONS: [(u32, Option<u32>); 4] = [(0, Some(0)), (1, Some(1)), (7, Some(1)), (8, None)];

#[test]
fn a_track_is_of_the_section_that_lists_it(rt: HostRuntime) -> Result<(), Fail> {
    let net = read_net(rt.alloc(), YARD.as_bytes()).ok().ok_or("refused")?;
    for (track, section) in &SECTIONS {
        let got = section_of(&net, *track);
        assert_eq!(rt; got, *section, "{track}");
    }
    Ok(())
}

/// The section of the track, if there is one of that number.
fn section_of(net: &Net, track: u32) -> Option<u32> {
    let tracks = net.parts().tracks.len();
    if (track as usize) < tracks {
        Some(net.section_of(track))
    } else {
        None
    }
}
