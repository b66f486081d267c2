//! Networks that break two rules: which of the two is told.

use super::texts::{YARD, answer, changed, refused};
use rail_net::{ListKind, NetFault};
use std::test::Fail;

// The rule, the list and the item that are told, and two changes.
static TWO_RULES: [(NetFault, ListKind, u32, &str, &str, &str, &str); 14] = [
    (
        NetFault::DuplicateName,
        ListKind::Sections,
        1,
        r#""name":"s2""#,
        r#""name":"s1""#,
        r#""from":"A""#,
        r#""from":"Q""#,
    ),
    (
        NetFault::UnknownName,
        ListKind::Stations,
        0,
        r#""tracks":["t3"]"#,
        r#""tracks":["t9"]"#,
        r#""tip":"t2""#,
        r#""tip":"t1""#,
    ),
    (
        NetFault::NodeDegree,
        ListKind::Nodes,
        8,
        r#"{"name":"E","kind":"end"}"#,
        r#"{"name":"E","kind":"joint"}"#,
        r#""tip":"t2""#,
        r#""tip":"t1""#,
    ),
    (
        NetFault::TipNotHere,
        ListKind::Nodes,
        2,
        r#""tip":"t2""#,
        r#""tip":"t1""#,
        r#"["t6","t7"]]"#,
        r#"["t6","t6"]]"#,
    ),
    (
        NetFault::PairsNotHere,
        ListKind::Nodes,
        5,
        r#"["t6","t7"]]"#,
        r#"["t6","t6"]]"#,
        r#""tracks":["t1"]"#,
        r#""tracks":["t2"]"#,
    ),
    (
        NetFault::TrackInNoSection,
        ListKind::Tracks,
        0,
        r#""tracks":["t1"]"#,
        r#""tracks":["t2"]"#,
        r#"500"#,
        r#"0"#,
    ),
    (
        NetFault::TrackInTwoSections,
        ListKind::Tracks,
        0,
        r#""tracks":["t1"]"#,
        r#""tracks":["t1","t1"]"#,
        r#""t3","t4""#,
        r#""t4","t3","t3""#,
    ),
    (
        NetFault::SplitSection,
        ListKind::Nodes,
        2,
        r#""tracks":["t1"]},{"name":"s2","tracks":["t2","t3","#,
        r#""tracks":["t1","t3"]},{"name":"s2","tracks":["t2","#,
        r#"500"#,
        r#"0"#,
    ),
    (
        NetFault::BorderPlace,
        ListKind::Borders,
        0,
        r#"500"#,
        r#"0"#,
        r#"600"#,
        r#"0"#,
    ),
    (
        NetFault::BorderPlace,
        ListKind::Borders,
        0,
        r#"500"#,
        r#"0"#,
        r#"{"joint":"K"}"#,
        r#"{"joint":"J"}"#,
    ),
    (
        NetFault::LengthRange,
        ListKind::Tracks,
        4,
        r#"600"#,
        r#"0"#,
        r#"80"#,
        r#"0"#,
    ),
    (
        NetFault::DuplicateName,
        ListKind::Nodes,
        4,
        r#""name":"B""#,
        r#""name":"A""#,
        r#""name":"t2""#,
        r#""name":"t1""#,
    ),
    (
        NetFault::UnknownName,
        ListKind::Nodes,
        5,
        r#"["t6","t7"]]"#,
        r#"["t6","t9"]]"#,
        r#""to":"P""#,
        r#""to":"Q""#,
    ),
    (
        NetFault::LengthRange,
        ListKind::Tracks,
        4,
        r#"600"#,
        r#"0"#,
        r#"400"#,
        r#"0"#,
    ),
];

#[test]
fn of_two_broken_rules_the_first_is_told(rt: HostRuntime) -> Result<(), Fail> {
    for (kind, list, item, old, new, old_too, new_too) in &TWO_RULES {
        let once = changed(rt.alloc(), YARD, old, new)?;
        let text = changed(rt.alloc(), once.as_str(), old_too, new_too)?;
        let got = answer(rt.alloc(), text.as_bytes());
        assert_eq!(rt; got, refused(*kind, *list, *item), "{new} and {new_too}");
    }
    Ok(())
}
