//! The next line of a report, or the fault that stands there.
ghost use Rattle.std.specs.Prelude.{◌≢◌, ◌+◌, ◌^◌, ◌<◌, IfOk, IfErr};
ghost use Rattle.vss_report.specs.Faults.{IsWrongHere};
ghost use Rattle.vss_report.specs.Places.{MayStand};
ghost use Rattle.vss_report.specs.Readings.{IsFound};

use crate::fault::ReportFault;
use crate::line_reader::read_line;
use crate::place::Place;
use crate::read_line::ReadLine;
use vss_text::Miss;

/// The line at the front of the text, which has this number, and what follows it. A line is due at the place.
///
/// `BadLine` with this number where no line that may stand here stands there, and where the text ended with the line
/// before; with the next number where it ends within a line.
pub(crate) fn next_line(
    place: Place,
    number: u32,
    text: &[u8],
) -> Result<(ReadLine<'_>, &[u8]), ReportFault>
    requires due { place ≢ Place.Finished }
    requires few { number + 1 < 2 ^ 32 }
    ensures found { IfOk result (λ found. IsFound (MayStand place) text.now found.0 found.1.now) }
    ensures wrong { IfErr result (IsWrongHere place number text.now) }
{
    match read_line(place, text) {
        Ok((line, rest)) => Ok((line, rest)),
        Err(Miss::Wrong) => Err(ReportFault::BadLine(number)),
        Err(Miss::Short) => {
            if text.is_empty() {
                return Err(ReportFault::BadLine(number));
            }
            Err(ReportFault::BadLine(number + 1))
        }
    }
}
