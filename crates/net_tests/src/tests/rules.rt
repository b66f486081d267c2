//! The rules of networks, each at its edge.

use super::texts::{LOOP, YARD, answer, changed, refused};
use rail_net::{ListKind, NetFault};
use std::test::Fail;

// The rule, the list and the item that are told; what is changed, and what it becomes.
static RULES: [(NetFault, ListKind, u32, &str, &str); 33] = [
    (
        NetFault::DuplicateName,
        ListKind::Nodes,
        4,
        r#""name":"B""#,
        r#""name":"A""#,
    ),
    (
        NetFault::DuplicateName,
        ListKind::Tracks,
        1,
        r#""name":"t2""#,
        r#""name":"t1""#,
    ),
    (
        NetFault::DuplicateName,
        ListKind::Sections,
        1,
        r#""name":"s2""#,
        r#""name":"s1""#,
    ),
    (
        NetFault::DuplicateName,
        ListKind::Stations,
        1,
        r#"{"name":"S","tracks":["t3"]}"#,
        r#"{"name":"S","tracks":["t3"]},{"name":"S","tracks":["t1"]}"#,
    ),
    (
        NetFault::UnknownName,
        ListKind::Nodes,
        2,
        r#""tip":"t2""#,
        r#""tip":"t9""#,
    ),
    (
        NetFault::UnknownName,
        ListKind::Nodes,
        5,
        r#"["t6","t7"]]"#,
        r#"["t6","t9"]]"#,
    ),
    (
        NetFault::UnknownName,
        ListKind::Tracks,
        0,
        r#""from":"A""#,
        r#""from":"Q""#,
    ),
    (
        NetFault::UnknownName,
        ListKind::Tracks,
        1,
        r#""to":"P""#,
        r#""to":"t1""#,
    ),
    (
        NetFault::UnknownName,
        ListKind::Sections,
        1,
        r#""t8"]"#,
        r#""t8","t9"]"#,
    ),
    (
        NetFault::UnknownName,
        ListKind::Borders,
        0,
        r#"{"track":"t1""#,
        r#"{"track":"A""#,
    ),
    (
        NetFault::UnknownName,
        ListKind::Borders,
        1,
        r#"{"joint":"K"}"#,
        r#"{"joint":"t1"}"#,
    ),
    (
        NetFault::UnknownName,
        ListKind::Stations,
        0,
        r#""tracks":["t3"]"#,
        r#""tracks":["t3","S"]"#,
    ),
    (
        NetFault::NodeDegree,
        ListKind::Nodes,
        8,
        r#"{"name":"E","kind":"end"}"#,
        r#"{"name":"E","kind":"joint"}"#,
    ),
    (
        NetFault::NodeDegree,
        ListKind::Nodes,
        6,
        r#""to":"E""#,
        r#""to":"C""#,
    ),
    (
        NetFault::TipNotHere,
        ListKind::Nodes,
        2,
        r#""tip":"t2""#,
        r#""tip":"t1""#,
    ),
    (
        NetFault::PairsNotHere,
        ListKind::Nodes,
        5,
        r#"["t6","t7"]]"#,
        r#"["t6","t6"]]"#,
    ),
    (
        NetFault::PairsNotHere,
        ListKind::Nodes,
        5,
        r#"[["t4","t5"],"#,
        r#"[["t4","t3"],"#,
    ),
    (
        NetFault::TrackInNoSection,
        ListKind::Tracks,
        0,
        r#""tracks":["t1"]"#,
        r#""tracks":["t2"]"#,
    ),
    (
        NetFault::TrackInTwoSections,
        ListKind::Tracks,
        1,
        r#""tracks":["t1"]"#,
        r#""tracks":["t1","t2"]"#,
    ),
    (
        NetFault::TrackInTwoSections,
        ListKind::Tracks,
        0,
        r#""tracks":["t1"]"#,
        r#""tracks":["t1","t1"]"#,
    ),
    (
        NetFault::SplitSection,
        ListKind::Nodes,
        2,
        r#""tracks":["t1"]},{"name":"s2","tracks":["t2","t3","#,
        r#""tracks":["t1","t3"]},{"name":"s2","tracks":["t2","#,
    ),
    (
        NetFault::SplitSection,
        ListKind::Nodes,
        5,
        r#""tracks":["t1"]},{"name":"s2","tracks":["t2","t3","t4","t5","t6","t7","t8"]"#,
        r#""tracks":["t1","t7"]},{"name":"s2","tracks":["t2","t3","t4","t5","t6","t8"]"#,
    ),
    (
        NetFault::SectionApart,
        ListKind::Sections,
        0,
        r#""tracks":["t1"]},{"name":"s2","tracks":["t2","t3","t4","t5","t6","t7","t8"]"#,
        r#""tracks":["t1","t8"]},{"name":"s2","tracks":["t2","t3","t4","t5","t6","t7"]"#,
    ),
    (
        NetFault::BorderPlace,
        ListKind::Borders,
        0,
        r#"500"#,
        r#"0"#,
    ),
    (
        NetFault::BorderPlace,
        ListKind::Borders,
        0,
        r#"500"#,
        r#"1000"#,
    ),
    (
        NetFault::BorderPlace,
        ListKind::Borders,
        0,
        r#"{"track":"t1""#,
        r#"{"track":"t4""#,
    ),
    (
        NetFault::BorderPlace,
        ListKind::Borders,
        1,
        r#"{"joint":"K"}"#,
        r#"{"joint":"J"}"#,
    ),
    (
        NetFault::BorderPlace,
        ListKind::Borders,
        1,
        r#"{"joint":"K"}"#,
        r#"{"joint":"P"}"#,
    ),
    (
        NetFault::BorderPlace,
        ListKind::Borders,
        1,
        r#"300"#,
        r#"300,"virtual":false"#,
    ),
    (NetFault::LengthRange, ListKind::Tracks, 4, r#"600"#, r#"0"#),
    (
        NetFault::LengthRange,
        ListKind::Tracks,
        4,
        r#"600"#,
        r#"1000001"#,
    ),
    (NetFault::LimitRange, ListKind::Tracks, 1, r#"80"#, r#"0"#),
    (NetFault::LimitRange, ListKind::Tracks, 1, r#"80"#, r#"501"#),
];

#[test]
fn the_first_broken_rule_is_told(rt: HostRuntime) -> Result<(), Fail> {
    assert_eq!(rt; answer(rt.alloc(), YARD.as_bytes()), Ok(()));
    for (kind, list, item, old, new) in &RULES {
        let text = changed(rt.alloc(), YARD, old, new)?;
        let got = answer(rt.alloc(), text.as_bytes());
        assert_eq!(rt; got, refused(*kind, *list, *item), "{old} to {new}");
    }
    Ok(())
}

#[test]
fn a_track_that_ends_where_it_begins_is_told_before_its_sections(
    rt: HostRuntime,
) -> Result<(), Fail> {
    let told = refused(NetFault::LoopTrack, ListKind::Tracks, 0);
    assert_eq!(rt; answer(rt.alloc(), LOOP.as_bytes()), told);
    Ok(())
}
