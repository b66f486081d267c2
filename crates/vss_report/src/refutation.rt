//! The reader of a refutation.
ghost use Rattle.std.specs.Prelude.{◌≤◌, ◌^◌, IfOk, length};
ghost use Rattle.vss_report.specs.Refutations.{IsRefutationReading};

use crate::fault::ReportFault;
use crate::gathered::Gathered;
use crate::next_line::next_line;
use crate::place::Place;
use derivation_log::{Log, Refutation};
use std::alloc::Global;
use vss_lists::Items;

/// The refutation that the report states, and the number of its line `refutes`. Tests the whole text; one pass, with
/// memory for the steps alone.
///
/// `BadLine` at the first line at which the text goes wrong; `NoPart` where the report states no refutation.
pub fn read_refutation(alloc: Global, bytes: &[u8]) -> Result<(Refutation, u32), ReportFault>
    requires { length bytes.now ≤ 2 ^ 30 }
    ensures reading { IsRefutationReading bytes.now result }
    ensures line { IfOk result (λ found. found.1 ≤ length bytes.now) }
    ensures short { IfOk result (λ found. length found.0.log.steps ≤ length bytes.now) }
{
    let mut gathered = Gathered::new(alloc);
    let mut place = Place::Start;
    let mut rest = bytes;
    let mut number = 1;
    while !place.is_finished() {
        match next_line(place, number, rest) {
            Ok((line, behind)) => {
                if gathered.take(alloc, &line, number).is_err() {
                    return Err(ReportFault::Memory);
                }
                place = place.after(&line);
                rest = behind;
                number += 1;
            }
            Err(fault) => return Err(fault),
        }
    }
    if !rest.is_empty() {
        return Err(ReportFault::BadLine(number));
    }
    match gathered.bound {
        Some((bound, line)) => {
            let steps = Items::from_vec(gathered.steps);
            let log = Log { steps };
            Ok((Refutation { bound, log }, line))
        }
        None => Err(ReportFault::NoPart),
    }
}
