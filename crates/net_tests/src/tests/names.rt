//! Names that are none, and what is just in range.

use super::texts::{YARD, answer, changed};
use net_reader::ReadRefusal;
use rail_net::{ListKind, Spot};
use std::test::Fail;

// The list and the item whose name is none; what is changed, and what it becomes.
static NAMES: [(ListKind, u32, &str, &str); 5] = [
    (ListKind::Nodes, 0, r#""name":"A""#, r#""name":"""#),
    (
        ListKind::Nodes,
        0,
        r#""name":"A""#,
        r#""name":"aaaaaaaaaaaaaaaaaaaaaaaaaaaaaaaaa""#,
    ),
    (ListKind::Tracks, 0, r#""name":"t1""#, r#""name":"t 1""#),
    (ListKind::Sections, 1, r#""name":"s2""#, r#""name":"s.2""#),
    (ListKind::Stations, 0, r#""name":"S""#, r#""name":"Ü""#),
];

#[test]
fn a_name_has_1_to_32_plain_characters(rt: HostRuntime) -> Result<(), Fail> {
    for (list, item, old, new) in &NAMES {
        let text = changed(rt.alloc(), YARD, old, new)?;
        let told = ReadRefusal::BadName(Spot {
            list: *list,
            item: *item,
        });
        let got = answer(rt.alloc(), text.as_bytes());
        assert_eq!(rt; got, Err(told), "{new}");
    }
    Ok(())
}

// What is changed in a document that stays one.
static NETWORKS: [(&str, &str); 9] = [
    ("s1", "aaaaaaaaaaaaaaaaaaaaaaaaaaaaaaaa"),
    ("1000", "1000000"),
    ("600", "1"),
    ("80", "500"),
    ("80", "1"),
    ("500", "999"),
    ("false", "true"),
    (r#"{"joint":"K"}"#, r#"{"joint":"K"},{"joint":"K"}"#),
    (r#"{"joint":"K"}"#, r#"{"joint":"K","track":7,"at_m":null}"#),
];

#[test]
fn what_is_just_in_range_is_read(rt: HostRuntime) -> Result<(), Fail> {
    for (old, new) in &NETWORKS {
        let text = changed(rt.alloc(), YARD, old, new)?;
        let got = answer(rt.alloc(), text.as_bytes());
        assert_eq!(rt; got, Ok(()), "{old} to {new}");
    }
    Ok(())
}
