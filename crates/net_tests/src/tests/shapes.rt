//! Faults of shape: each member, its first item, and which of two faults comes first.

use super::texts::{YARD, answer, changed};
use net_reader::{Member, ReadRefusal};
use std::test::Fail;

// What is changed, what it becomes, and the member and the item that are told.
static SHAPES: [(&str, &str, Member, u32); 40] = [
    (r#""nodes":["#, r#""nodes":{},"x":["#, Member::Nodes, 0),
    (r#"{"name":"A","kind":"end"},"#, r#"7,"#, Member::Nodes, 0),
    (r#""name":"J""#, r#""name":7"#, Member::NodesName, 1),
    (r#""kind":"end""#, r#""kind":"ends""#, Member::NodesKind, 0),
    (
        r#""kind":"joint""#,
        r#""kin":"joint""#,
        Member::NodesKind,
        1,
    ),
    (r#""tip":"t2""#, r#""tip":null"#, Member::NodesTip, 2),
    (r#"[["t4","t5"],"#, r#"[["t4"],"#, Member::NodesPairs, 5),
    (
        r#"[["t4","t5"],"#,
        r#"[["t4","t5","t3"],"#,
        Member::NodesPairs,
        5,
    ),
    (
        r#"["t6","t7"]]"#,
        r#"["t6","t7"],["t1","t2"]]"#,
        Member::NodesPairs,
        5,
    ),
    (r#"["t6","t7"]]"#, r#""t6"]"#, Member::NodesPairs, 5),
    (r#""tracks":[{"#, r#""tracks":7,"x":[{"#, Member::Tracks, 0),
    (r#"{"name":"t2","#, r#"[],{"name":"t2","#, Member::Tracks, 1),
    (r#""name":"t1""#, r#""nam":"t1""#, Member::TracksName, 0),
    (r#""from":"A""#, r#""from":[]"#, Member::TracksFrom, 0),
    (r#""to":"P""#, r#""to":{}"#, Member::TracksTo, 1),
    (r#"1000"#, r#"2000.0"#, Member::TracksLengthM, 0),
    (r#"1000"#, r#"-1"#, Member::TracksLengthM, 0),
    (r#"1000"#, r#""2000""#, Member::TracksLengthM, 0),
    (
        r#"1000"#,
        r#"18446744073709551616"#,
        Member::TracksLengthM,
        0,
    ),
    (r#"1000"#, r#"1e3"#, Member::TracksLengthM, 0),
    (r#"1000"#, r#"-0"#, Member::TracksLengthM, 0),
    (r#"1000"#, r#"null"#, Member::TracksLengthM, 0),
    (r#"80"#, r#"null"#, Member::TracksLimitKmh, 1),
    (r#"80"#, r#""80""#, Member::TracksLimitKmh, 1),
    (r#"false"#, r#"null"#, Member::TracksVirtual, 3),
    (r#"false"#, r#"0"#, Member::TracksVirtual, 3),
    (r#""sections""#, r#""sektions""#, Member::Sections, 0),
    (
        r#"{"name":"s2","#,
        r#""s2",{"name":"s2","#,
        Member::Sections,
        1,
    ),
    (r#""name":"s1""#, r#""name":true"#, Member::SectionsName, 0),
    (
        r#""tracks":["t1"]"#,
        r#""tracks":[]"#,
        Member::SectionsTracks,
        0,
    ),
    (
        r#""tracks":["t1"]"#,
        r#""tracks":[1]"#,
        Member::SectionsTracks,
        0,
    ),
    (
        r#""borders":["#,
        r#""borders":null,"x":["#,
        Member::Borders,
        0,
    ),
    (r#"{"joint":"K"}"#, r#""K""#, Member::Borders, 1),
    (
        r#"{"track":"t1","at_m":500}"#,
        r#"{"at_m":500}"#,
        Member::BordersTrack,
        0,
    ),
    (
        r#"{"track":"t1","at_m":500}"#,
        r#"{"track":"t1"}"#,
        Member::BordersAtM,
        0,
    ),
    (
        r#"{"joint":"K"}"#,
        r#"{"joint":null,"track":"t1","at_m":5}"#,
        Member::BordersJoint,
        1,
    ),
    (
        r#""stations":["#,
        r#""stations":null,"x":["#,
        Member::Stations,
        0,
    ),
    (
        r#"{"name":"S","tracks":["t3"]}"#,
        r#"{"name":"S","tracks":["t3"]},7"#,
        Member::Stations,
        1,
    ),
    (r#""name":"S""#, r#""name":0"#, Member::StationsName, 0),
    (
        r#""tracks":["t3"]"#,
        r#""tracks":[]"#,
        Member::StationsTracks,
        0,
    ),
];

#[test]
fn the_first_fault_of_shape_is_told(rt: HostRuntime) -> Result<(), Fail> {
    for (old, new, member, item) in &SHAPES {
        let text = changed(rt.alloc(), YARD, old, new)?;
        let told = ReadRefusal::Shape {
            member: *member,
            item: *item,
        };
        let got = answer(rt.alloc(), text.as_bytes());
        assert_eq!(rt; got, Err(told), "{old} to {new}");
    }
    Ok(())
}

// Two changes, and the member and the item that are told.
static TWO_SHAPES: [(&str, &str, &str, &str, Member, u32); 6] = [
    (
        r#""kind":"joint""#,
        r#""kind":7"#,
        r#""from":"A""#,
        r#""from":7"#,
        Member::NodesKind,
        1,
    ),
    (
        r#""name":"P""#,
        r#""nam":"P""#,
        r#""tip":"t2""#,
        r#""tip":7"#,
        Member::NodesName,
        2,
    ),
    (
        r#""tip":"t2""#,
        r#""tip":7"#,
        r#""pairs""#,
        r#""pair""#,
        Member::NodesTip,
        2,
    ),
    (
        r#"1000"#,
        r#"-1"#,
        r#""name":"t2""#,
        r#""name":7"#,
        Member::TracksLengthM,
        0,
    ),
    (
        r#"80"#,
        r#"-1"#,
        r#""to":"P""#,
        r#""to":7"#,
        Member::TracksTo,
        1,
    ),
    (
        r#""borders":["#,
        r#""borders":7,"x":["#,
        r#""sections""#,
        r#""sektions""#,
        Member::Sections,
        0,
    ),
];

#[test]
fn members_are_walked_in_their_order(rt: HostRuntime) -> Result<(), Fail> {
    for (old, new, old_too, new_too, member, item) in &TWO_SHAPES {
        let once = changed(rt.alloc(), YARD, old, new)?;
        let text = changed(rt.alloc(), once.as_str(), old_too, new_too)?;
        let told = ReadRefusal::Shape {
            member: *member,
            item: *item,
        };
        let got = answer(rt.alloc(), text.as_bytes());
        assert_eq!(rt; got, Err(told), "{new} and {new_too}");
    }
    Ok(())
}
