//! What `run` says of made cases.

use super::asking::{shelf_of, written_by};
use std::test::Fail;

#[test]
fn what_is_made_is_two_lines(rt: HostRuntime) -> Result<(), Fail> {
    let mut shelf = shelf_of(rt.alloc(), "", "", "")?;
    let (made, status) = written_by(rt.alloc(), "make 1 1", &mut shelf)?;
    assert_eq!(rt; status, 0);
    let (network, timetable) = made.as_str().split_once('\n').ok_or("no second line")?;
    assert!(rt; network.starts_with(r#"{"nodes":[{"name":"W","kind":"end"},"#));
    assert!(rt; timetable.starts_with(r#"{"space_step_m":500,"time_step_s":60,"#));
    Ok(())
}
