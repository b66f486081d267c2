//! The texts of made cases, with ample memory.
use crate::make_case;
use std::test::Fail;

static NETWORK: &[u8] =
    b"{\"nodes\":[{\"name\":\"W\",\"kind\":\"end\"},{\"name\":\"x1\",\"kind\":\"joint\"},{\"name\":\"p1\",\"kind\":\"point\",\"tip\":\"u1\"},{\"name\":\"a1\",\"kind\":\"joint\"},{\"name\":\"b1\",\"kind\":\"joint\"},{\"name\":\"c1\",\"kind\":\"joint\"},{\"name\":\"d1\",\"kind\":\"joint\"},{\"name\":\"q1\",\"kind\":\"point\",\"tip\":\"v1\"},{\"name\":\"y1\",\"kind\":\"joint\"},{\"name\":\"E\",\"kind\":\"end\"}],\"tracks\":[{\"name\":\"l0\",\"from\":\"W\",\"to\":\"x1\",\"length_m\":2500},{\"name\":\"u1\",\"from\":\"x1\",\"to\":\"p1\",\"length_m\":500,\"virtual\":false},{\"name\":\"e1\",\"from\":\"p1\",\"to\":\"a1\",\"length_m\":500,\"virtual\":false},{\"name\":\"f1\",\"from\":\"p1\",\"to\":\"c1\",\"length_m\":500,\"virtual\":false},{\"name\":\"m1\",\"from\":\"a1\",\"to\":\"b1\",\"length_m\":1000},{\"name\":\"n1\",\"from\":\"c1\",\"to\":\"d1\",\"length_m\":1000},{\"name\":\"g1\",\"from\":\"b1\",\"to\":\"q1\",\"length_m\":500,\"virtual\":false},{\"name\":\"h1\",\"from\":\"d1\",\"to\":\"q1\",\"length_m\":500,\"virtual\":false},{\"name\":\"v1\",\"from\":\"q1\",\"to\":\"y1\",\"length_m\":500,\"virtual\":false},{\"name\":\"l1\",\"from\":\"y1\",\"to\":\"E\",\"length_m\":3000}],\"sections\":[{\"name\":\"L0\",\"tracks\":[\"l0\"]},{\"name\":\"P1\",\"tracks\":[\"u1\",\"e1\",\"f1\"]},{\"name\":\"M1\",\"tracks\":[\"m1\"]},{\"name\":\"N1\",\"tracks\":[\"n1\"]},{\"name\":\"Q1\",\"tracks\":[\"g1\",\"h1\",\"v1\"]},{\"name\":\"L1\",\"tracks\":[\"l1\"]}],\"stations\":[{\"name\":\"S1\",\"tracks\":[\"m1\",\"n1\"]}]}\n";

static TIMETABLE: &[u8] =
    b"{\"space_step_m\":500,\"time_step_s\":60,\"horizon_s\":900,\"trains\":[{\"name\":\"T0\",\"length_m\":500,\"speed_kmh\":120,\"from\":\"W\",\"to\":\"E\",\"entry_s\":0,\"arrive_s\":900,\"stops\":[{\"station\":\"S1\",\"dwell_s\":60}]},{\"name\":\"T1\",\"length_m\":400,\"speed_kmh\":120,\"from\":\"W\",\"to\":\"E\",\"entry_s\":60,\"arrive_s\":900,\"stops\":[{\"station\":\"S1\",\"dwell_s\":60}]}]}\n";

#[test]
fn the_smallest_case_is_made(rt: HostRuntime) -> Result<(), Fail> {
    let (network, timetable) = make_case(rt.alloc(), 1, 1)?;
    assert_eq!(rt; network.as_slice(), NETWORK);
    assert_eq!(rt; timetable.as_slice(), TIMETABLE);
    Ok(())
}
