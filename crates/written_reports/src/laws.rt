//! The law of written reports, for the proofs of callers.

ghost use Rattle.written_reports.specs.WrittenReports.{DesignsAreLawful, RefutationsAreProved};

use vss_report::{written_designs_are_read_back, written_refutations_are_read_back};

/// The report of how a search ended is read back over the same documents: a design in it is lawful, and a refutation is
/// proved. A call does nothing; it gives its caller's proof this law.
pub fn written_reports_are_right()
    ensures judged { DesignsAreLawful }
    ensures checked { RefutationsAreProved }
{
    written_designs_are_read_back();
    written_refutations_are_read_back();
}
