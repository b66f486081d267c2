//! Reads a timetable document.

ghost use Rattle.std.specs.Prelude.{IfOk};
ghost use Rattle.timetable.specs.Readings.{IsTimeReading};
ghost use Rattle.timetable.specs.Timetables.{IsTimetable};

use crate::document::Document;
use crate::parts::Timetable;
use crate::refusal::TimeRefusal;
use crate::rules::{RuleRefusal, test_rules};
use rail_net::Net;
use std::alloc::Global;
use vss_json::{DocumentFault, ShapeFault, read_document};

/// The timetable of a document's bytes for the network, or the first refusal in the order of their
/// kinds. Linear in the bytes but for hashed look-ups of names.
pub fn read_timetable(alloc: Global, bytes: &[u8], net: &Net) -> Result<Timetable, TimeRefusal>
    ensures reading { IsTimeReading net.now bytes.now result }
    ensures timetable { IfOk result (IsTimetable net.now) }
{
    let entries = match read_document(alloc, &Document, bytes) {
        Ok(entries) => entries,
        Err(DocumentFault::NotJson) => return Err(TimeRefusal::NotJson),
        Err(DocumentFault::Shape(ShapeFault { member, item })) => {
            return Err(TimeRefusal::Shape { member, item });
        }
        Err(DocumentFault::Memory) => return Err(TimeRefusal::Memory),
    };
    let _parts = net.parts();
    match test_rules(alloc, net, &entries) {
        Ok(trains) => Ok(Timetable {
            space_step_m: entries.space_step_m,
            time_step_s: entries.time_step_s,
            horizon_s: entries.horizon_s,
            trains,
        }),
        Err(RuleRefusal::Named { kind, spot }) => Err(TimeRefusal::Named { kind, spot }),
        Err(RuleRefusal::Memory) => Err(TimeRefusal::Memory),
    }
}
