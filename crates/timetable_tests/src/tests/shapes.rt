//! Faults of shape: each member, and which of two faults comes first.

use super::texts::{DAY, answer, changed};
use std::test::Fail;
use timetable::{TimeMember, TimeRefusal};

// What is changed, what it becomes, and the member and the item that are told.
static SHAPES: [(&str, &str, TimeMember, u32); 33] = [
    (
        r#""space_step_m":500"#,
        r#""space_step_m":"500""#,
        TimeMember::SpaceStepM,
        0,
    ),
    (
        r#""space_step_m":500"#,
        r#""space_step":500"#,
        TimeMember::SpaceStepM,
        0,
    ),
    (
        r#""space_step_m":500"#,
        r#""space_step_m":500.0"#,
        TimeMember::SpaceStepM,
        0,
    ),
    (
        r#""time_step_s":60"#,
        r#""time_step_s":-60"#,
        TimeMember::TimeStepS,
        0,
    ),
    (
        r#""horizon_s":1800"#,
        r#""horizon_s":null"#,
        TimeMember::HorizonS,
        0,
    ),
    (
        r#""trains":["#,
        r#""trains":{},"x":["#,
        TimeMember::Trains,
        0,
    ),
    (r#""trains":["#, r#""train":["#, TimeMember::Trains, 0),
    (
        r#"{"name":"T1","#,
        r#"7,{"name":"T1","#,
        TimeMember::Trains,
        1,
    ),
    (r#""name":"T1""#, r#""name":1"#, TimeMember::TrainsName, 1),
    (
        r#""length_m":400"#,
        r#""length_m":4e2"#,
        TimeMember::TrainsLengthM,
        0,
    ),
    (
        r#""speed_kmh":120"#,
        r#""speed_kmh":18446744073709551616"#,
        TimeMember::TrainsSpeedKmh,
        0,
    ),
    (
        r#""entry_s":30"#,
        r#""entry":30"#,
        TimeMember::TrainsEntryS,
        1,
    ),
    (r#""from":"A""#, r#""from":7"#, TimeMember::TrainsFrom, 0),
    (r#""to":"D""#, r#""to":{}"#, TimeMember::TrainsTo, 1),
    (
        r#""arrive_s":900"#,
        r#""arrive_s":null"#,
        TimeMember::TrainsArriveS,
        0,
    ),
    (
        r#""arrive_s":900"#,
        r#""arrive_s":"900""#,
        TimeMember::TrainsArriveS,
        0,
    ),
    (
        r#""entry_until_s":120"#,
        r#""entry_until_s":null"#,
        TimeMember::TrainsEntryUntilS,
        0,
    ),
    (
        r#""entry_until_s":120"#,
        r#""entry_until_s":true"#,
        TimeMember::TrainsEntryUntilS,
        0,
    ),
    (
        r#""stops":["#,
        r#""stops":7,"x":["#,
        TimeMember::TrainsStops,
        0,
    ),
    (
        r#""stops":["#,
        r#""stops":null,"x":["#,
        TimeMember::TrainsStops,
        0,
    ),
    (
        r#"{"station":"S","dwell_s":61}"#,
        r#"61"#,
        TimeMember::TrainsStops,
        0,
    ),
    (
        r#""from":"D""#,
        r#""stops":[[]],"from":"D""#,
        TimeMember::TrainsStops,
        1,
    ),
    (
        r#""station":"S""#,
        r#""station":0"#,
        TimeMember::StopsStation,
        0,
    ),
    (
        r#""dwell_s":61"#,
        r#""dwell":61"#,
        TimeMember::StopsDwellS,
        0,
    ),
    (
        r#""from_s":100"#,
        r#""from_s":null"#,
        TimeMember::StopsFromS,
        0,
    ),
    (
        r#""until_s":700"#,
        r#""until_s":-1"#,
        TimeMember::StopsUntilS,
        0,
    ),
    (
        r#"500,"time_step_s":60"#,
        r#"null,"time_step_s":null"#,
        TimeMember::SpaceStepM,
        0,
    ),
    (
        r#"1800,"trains":["#,
        r#"null,"trains":[7,"#,
        TimeMember::HorizonS,
        0,
    ),
    (
        r#"900,"entry_until_s":120"#,
        r#"null,"entry_until_s":null"#,
        TimeMember::TrainsArriveS,
        0,
    ),
    (
        r#"120,"stops":["#,
        r#"null,"stops":[7,"#,
        TimeMember::TrainsEntryUntilS,
        0,
    ),
    (
        r#""T0","length_m":400"#,
        r#""","length_m":null"#,
        TimeMember::TrainsLengthM,
        0,
    ),
    (
        r#""station":"S","dwell_s":60"#,
        r#""station":7,"dwell_s":7.5"#,
        TimeMember::StopsStation,
        0,
    ),
    (
        r#"61}]},{"name":"T1""#,
        r#"6.1}]},{"name":1"#,
        TimeMember::StopsDwellS,
        0,
    ),
];

#[test]
fn the_first_fault_of_shape_is_told(rt: HostRuntime) -> Result<(), Fail> {
    for (old, new, member, item) in &SHAPES {
        let text = changed(rt.alloc(), DAY, old, new)?;
        let told = TimeRefusal::Shape {
            member: *member,
            item: *item,
        };
        let got = answer(rt.alloc(), text.as_bytes())?;
        assert_eq!(rt; got, Err(told), "{old} to {new}");
    }
    Ok(())
}
