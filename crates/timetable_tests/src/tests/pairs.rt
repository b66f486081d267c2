//! Timetables that break two rules: which of them is told.

use super::texts::{DAY, answer, changed};
use rail_net::{ListKind, Spot};
use std::test::Fail;
use timetable::{TimeFault, TimeRefusal};

// The rule, the list and the item that are told, and two changes.
static TWO_RULES: [(TimeFault, ListKind, u32, &str, &str, &str, &str); 12] = [
    (
        TimeFault::BadName,
        ListKind::Trains,
        1,
        r#""T1""#,
        r#""""#,
        r#""from":"A""#,
        r#""legs":[],"from":"A""#,
    ),
    (
        TimeFault::ReverseNotYet,
        ListKind::Trains,
        1,
        r#""from":"D""#,
        r#""legs":[],"from":"D""#,
        r#""T1""#,
        r#""T0""#,
    ),
    (
        TimeFault::DuplicateName,
        ListKind::Trains,
        1,
        r#""T1""#,
        r#""T0""#,
        r#""from":"A""#,
        r#""from":"Q""#,
    ),
    (
        TimeFault::UnknownName,
        ListKind::Trains,
        1,
        r#""to":"D""#,
        r#""to":"Q""#,
        r#""from":"A""#,
        r#""from":"J""#,
    ),
    (
        TimeFault::EndWanted,
        ListKind::Trains,
        1,
        r#""to":"D""#,
        r#""to":"P""#,
        r#""space_step_m":500"#,
        r#""space_step_m":0"#,
    ),
    (
        TimeFault::StepRange,
        ListKind::Document,
        0,
        r#""space_step_m":500"#,
        r#""space_step_m":0"#,
        r#""length_m":400"#,
        r#""length_m":0"#,
    ),
    (
        TimeFault::UnknownName,
        ListKind::Trains,
        0,
        r#"{"station":"S","dwell_s":61}"#,
        r#"{"station":"T","dwell_s":61}"#,
        r#""from":"D""#,
        r#""from":"Q""#,
    ),
    (
        TimeFault::EndWanted,
        ListKind::Trains,
        0,
        r#""to":"B""#,
        r#""to":"J""#,
        r#""from":"D""#,
        r#""from":"J""#,
    ),
    (
        TimeFault::TrainRange,
        ListKind::Trains,
        0,
        r#""until_s":700"#,
        r#""until_s":10000001"#,
        r#""speed_kmh":90"#,
        r#""speed_kmh":0"#,
    ),
    (
        TimeFault::BadName,
        ListKind::Trains,
        0,
        r#""T0""#,
        r#""T.0""#,
        r#""T1""#,
        r#""T.1""#,
    ),
    (
        TimeFault::ReverseNotYet,
        ListKind::Trains,
        0,
        r#""from":"A""#,
        r#""legs":7,"from":"A""#,
        r#""from":"D""#,
        r#""legs":7,"from":"D""#,
    ),
    (
        TimeFault::UnknownName,
        ListKind::Trains,
        0,
        r#""station":"S""#,
        r#""station":"Q""#,
        r#""horizon_s":1800"#,
        r#""horizon_s":59"#,
    ),
];

#[test]
fn of_two_broken_rules_the_first_is_told(rt: HostRuntime) -> Result<(), Fail> {
    for (kind, list, item, old, new, old_too, new_too) in &TWO_RULES {
        let once = changed(rt.alloc(), DAY, old, new)?;
        let text = changed(rt.alloc(), once.as_str(), old_too, new_too)?;
        let told = TimeRefusal::Named {
            kind: *kind,
            spot: Spot {
                list: *list,
                item: *item,
            },
        };
        let got = answer(rt.alloc(), text.as_bytes())?;
        assert_eq!(rt; got, Err(told), "{new} and {new_too}");
    }
    Ok(())
}
