//! The documents that tests begin with, and changes of them.

use net_reader::read_net;
use std::alloc::Global;
use std::test::Fail;
use timetable::{TimeRefusal, read_timetable};

/// A line with a joint, a branch at a point, and a station.
pub static LINE: &str =
    r#"{"nodes":[{"name":"A","kind":"end"},{"name":"J","kind":"joint"},{"name":"P","kind":"point","tip":"t2"},{"name":"B","kind":"end"},{"name":"D","kind":"end"}],"tracks":[{"name":"t1","from":"A","to":"J","length_m":1000},{"name":"t2","from":"J","to":"P","length_m":900},{"name":"t3","from":"P","to":"B","length_m":800},{"name":"t4","from":"D","to":"P","length_m":700}],"sections":[{"name":"s1","tracks":["t1","t2","t3","t4"]}],"stations":[{"name":"S","tracks":["t3"]}]}"#;

/// Two trains on the line, one with every member, one with none that may be missing.
pub static DAY: &str =
    r#"{"space_step_m":500,"time_step_s":60,"horizon_s":1800,"trains":[{"name":"T0","length_m":400,"speed_kmh":120,"entry_s":0,"from":"A","to":"B","arrive_s":900,"entry_until_s":120,"stops":[{"station":"S","dwell_s":60,"from_s":100,"until_s":700},{"station":"S","dwell_s":61}]},{"name":"T1","length_m":350,"speed_kmh":90,"entry_s":30,"from":"D","to":"D"}]}"#;

/// How the bytes are answered, as a timetable of the line.
pub fn answer(alloc: Global, bytes: &[u8]) -> Result<Result<(), TimeRefusal>, Fail> {
    let net = read_net(alloc, LINE.as_bytes()).ok().ok_or("no line")?;
    match read_timetable(alloc, bytes, &net) {
        Ok(_timetable) => Ok(Ok(())),
        Err(refusal) => Ok(Err(refusal)),
    }
}

/// The text with the first place of `old` changed; an error where there is none.
pub fn changed(alloc: Global, text: &str, old: &str, new: &str) -> Result<String, Fail> {
    let (before, after) = text.split_once(old).ok_or("nothing to change")?;
    Ok(format!(in alloc; "{before}{new}{after}")?)
}
