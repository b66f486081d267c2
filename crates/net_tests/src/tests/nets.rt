//! What a network answers.

use super::texts::YARD;
use net_reader::read_net;
use std::test::Fail;

#[test]
fn names_have_the_numbers_of_their_lists(rt: HostRuntime) -> Result<(), Fail> {
    let net = read_net(rt.alloc(), YARD.as_bytes()).ok().ok_or("refused")?;
    assert_eq!(rt; net.node_named("X"), Some(5));
    assert_eq!(rt; net.node_named("t1"), None);
    assert_eq!(rt; net.track_named("t8"), Some(7));
    assert_eq!(rt; net.track_named("t9"), None);
    assert_eq!(rt; net.station_named("S"), Some(0));
    assert_eq!(rt; net.station_named("s1"), None);
    Ok(())
}
