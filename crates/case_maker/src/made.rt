//! The two documents of a case.
ghost use Rattle.std.specs.Prelude.{◌≡◌, ◌≤◌, IfOk};
ghost use Rattle.case_maker.specs.Networks.{network_text};
ghost use Rattle.case_maker.specs.Timetables.{timetable_text};

use crate::network::put_network;
use crate::timetable::put_timetable;
use std::alloc::{AllocError, Global};

/// The network document and the timetable document of a case of that size: a line with so many stations of two tracks each, and
/// two trains and one group of two more for each two stations. Each is one line. Linear in the size.
pub fn make_case(alloc: Global, seed: u32, size: u32) -> Result<(Vec<u8>, Vec<u8>), AllocError>
    requires { (1 ≤ size) × (size ≤ 8) }
    ensures network { IfOk result (λ made. made.0.items ≡ network_text seed size) }
    ensures timetable { IfOk result (λ made. made.1.items ≡ timetable_text seed size) }
{
    let mut network = Vec::new(alloc);
    put_network(&mut network, seed, size)?;
    let mut timetable = Vec::new(alloc);
    put_timetable(&mut timetable, seed, size)?;
    Ok((network, timetable))
}
