//! What `run` says of logs: of a train that is too long for the line, whose entry clause is the empty clause 7.

use super::asking::{expect_run, shelf_of};
use crate::texts::LINE;
use std::test::Fail;

/// A train of 2,500 m, which has no sweep.
const LONG: &str =
    r#"{"space_step_m":500,"time_step_s":60,"horizon_s":120,"trains":[{"name":"Z","length_m":2500,"speed_kmh":30,"from":"A","to":"B","entry_s":0}]}"#;

// The bound, the log, what is printed, and the status.
static LOGS: [(&str, &str, &str, u8); 14] = [
    ("3", "a 28 0 7 0\n", "proved most 3", 0),
    ("3", "a 27 0 7 0\n", "not proved 4 IdOrder", 9),
    ("3", "a 28 25 0 7 0\n", "not proved 4 UnknownVariable", 9),
    ("3", "a 28 5 -5 0 7 0\n", "not proved 4 Twofold", 9),
    ("3", "a 28 0 40 0\n", "not proved 4 UnknownClause", 9),
    ("3", "a 28 0 6 0\n", "not proved 4 HintNotUnit", 9),
    ("3", "a 28 0 0\n", "not proved 4 NoConflict", 9),
    ("3", "a 28 0 7 7 0\n", "not proved 4 HintsAfterConflict", 9),
    ("3", "a 28 5 0 7 0\n", "not proved 5 NoEmptyClause", 9),
    ("3", "", "not proved 4 NoEmptyClause", 9),
    ("3", "d 7 0\na 28 0 7 0\n", "not proved 5 UnknownClause", 9),
    ("2", "a 28 0 7 0\n", "not proved 4 IdOrder", 9),
    ("2", "a 29 0 7 0\n", "proved most 2", 0),
    ("given", "a 11 0 10 0\n", "proved given", 0),
];

#[test]
fn logs_are_checked(rt: HostRuntime) -> Result<(), Fail> {
    for (bound, log, line, status) in &LOGS {
        let report = format!(in rt.alloc();
            "vssplan report 1\nverdict impossible\nrefutes {bound}\n{log}end\n"
        )?;
        let mut shelf = shelf_of(rt.alloc(), LINE, LONG, report.as_str())?;
        expect_run(
            &rt,
            rt.alloc(),
            "check net times plan",
            &mut shelf,
            line,
            *status,
        )?;
    }
    Ok(())
}
