//! Texts that tests begin with, and changes of them.

use std::alloc::Global;
use std::test::Fail;

/// One track of 2,000 m.
pub const LINE: &str =
    r#"{"nodes":[{"name":"A","kind":"end"},{"name":"B","kind":"end"}],"tracks":[{"name":"t1","from":"A","to":"B","length_m":2000}],"sections":[{"name":"s1","tracks":["t1"]}]}"#;

/// Two trains that follow each other, on cells of 500 m and in steps of 60 s.
pub const XY: &str =
    r#"{"space_step_m":500,"time_step_s":60,"horizon_s":600,"trains":[{"name":"X","length_m":400,"speed_kmh":30,"from":"A","to":"B","entry_s":0,"arrive_s":180},{"name":"Y","length_m":400,"speed_kmh":30,"from":"A","to":"B","entry_s":120}]}"#;

/// The first of the two trains alone.
pub const X: &str =
    r#"{"space_step_m":500,"time_step_s":60,"horizon_s":600,"trains":[{"name":"X","length_m":400,"speed_kmh":30,"from":"A","to":"B","entry_s":0,"arrive_s":180}]}"#;

/// The text with the first place of `old` changed; an error where there is none.
pub fn changed(alloc: Global, text: &str, old: &str, new: &str) -> Result<String, Fail> {
    let (before, after) = text.split_once(old).ok_or("nothing to change")?;
    Ok(format!(in alloc; "{before}{new}{after}")?)
}

/// A report with the run of the first train, and no border.
pub const X_ALONE: &str =
    "vssplan report 1\nverdict done\ndesign 0\nrun X 0\nsweep t1:0+ t1:1+\nsweep t1:1+ t1:2+\nsweep t1:2+ t1:3+\nend\n";

/// A report with the runs of both trains, and no border.
pub const FOLLOWING: &str =
    "vssplan report 1\nverdict done\ndesign 0\nrun X 0\nsweep t1:0+ t1:1+\nsweep t1:1+ t1:2+\nsweep t1:2+ t1:3+\nrun Y 2\nsweep t1:0+\nsweep t1:0+ t1:1+\nsweep t1:1+ t1:2+\nsweep t1:2+ t1:3+\nend\n";

/// A report with the runs of both trains, and a border at 500 m.
pub const BORDERED: &str =
    "vssplan report 1\nverdict done\ndesign 1\nborder cut t1 500\nrun X 0\nsweep t1:0+ t1:1+\nsweep t1:1+ t1:2+\nsweep t1:2+ t1:3+\nrun Y 2\nsweep t1:0+\nsweep t1:0+ t1:1+\nsweep t1:1+ t1:2+\nsweep t1:2+ t1:3+\nend\n";
