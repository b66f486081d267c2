//! How the refusals of readers end a call.

ghost use Rattle.std.specs.Prelude.{◌≡◌};
ghost use Rattle.vss_jobs.specs.Readings.{network_stop, timetable_stop, grid_stop, report_stop, size_stop};

use crate::refusal::Refusal;
use clause_encoder::EncodeRefusal;
use discretise::CutRefusal;
use net_reader::ReadRefusal;
use timetable::TimeRefusal;
use vss_report::ReportFault;
use vss_stages::Stop;

/// How a refusal of the network ends the call.
pub fn stop_of_network(why: ReadRefusal) -> Stop<Refusal>
    ensures { result ≡ network_stop why }
{
    match why {
        ReadRefusal::Memory => Stop::Memory,
        ReadRefusal::NotJson => Stop::Refused(Refusal::Network(why)),
        ReadRefusal::Shape { .. } => Stop::Refused(Refusal::Network(why)),
        ReadRefusal::BadName(_) => Stop::Refused(Refusal::Network(why)),
        ReadRefusal::Net { .. } => Stop::Refused(Refusal::Network(why)),
    }
}

/// How a refusal of the timetable ends the call.
pub fn stop_of_timetable(why: TimeRefusal) -> Stop<Refusal>
    ensures { result ≡ timetable_stop why }
{
    match why {
        TimeRefusal::Memory => Stop::Memory,
        TimeRefusal::NotJson => Stop::Refused(Refusal::Timetable(why)),
        TimeRefusal::Shape { .. } => Stop::Refused(Refusal::Timetable(why)),
        TimeRefusal::Named { .. } => Stop::Refused(Refusal::Timetable(why)),
    }
}

/// How a refusal of the grid ends the call.
pub fn stop_of_grid(why: CutRefusal) -> Stop<Refusal>
    ensures { result ≡ grid_stop why }
{
    match why {
        CutRefusal::Memory => Stop::Memory,
        CutRefusal::Named { .. } => Stop::Refused(Refusal::Grid(why)),
    }
}

/// How a fault of a report ends the call.
pub fn stop_of_report(fault: ReportFault) -> Stop<Refusal>
    ensures { result ≡ report_stop fault }
{
    match fault {
        ReportFault::Memory => Stop::Memory,
        ReportFault::BadLine(_) => Stop::Refused(Refusal::Report(fault)),
        ReportFault::UnknownName(_) => Stop::Refused(Refusal::Report(fault)),
        ReportFault::NoPart => Stop::Refused(Refusal::Report(fault)),
    }
}

/// How a refusal of size ends the call.
pub fn stop_of_size(why: EncodeRefusal) -> Stop<Refusal>
    ensures { result ≡ size_stop why }
{
    match why {
        EncodeRefusal::Memory => Stop::Memory,
        EncodeRefusal::TooManySweeps(_) => Stop::Refused(Refusal::Sizes(why)),
        EncodeRefusal::TooManyWalks(_) => Stop::Refused(Refusal::Sizes(why)),
        EncodeRefusal::TooManyVariables => Stop::Refused(Refusal::Sizes(why)),
        EncodeRefusal::TooManyClauses => Stop::Refused(Refusal::Sizes(why)),
        EncodeRefusal::TooManyLiterals => Stop::Refused(Refusal::Sizes(why)),
    }
}
