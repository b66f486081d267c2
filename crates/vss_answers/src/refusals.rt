//! The printed line of a refusal.

ghost use Rattle.vss_io.specs.Written.{Prints};
ghost use Rattle.vss_answers.specs.RefusalTexts.{refused_line, network_refusal_text, timetable_refusal_text, grid_refusal_text, report_refusal_text, sizes_refusal_text, refusal_text};

use crate::refusal_words::{
    word_of_cut_fault, word_of_list, word_of_net_fault, word_of_net_member, word_of_time_fault,
    word_of_time_member,
};
use clause_encoder::EncodeRefusal;
use discretise::CutRefusal;
use itoa::Buffer;
use net_reader::ReadRefusal;
use timetable::TimeRefusal;
use vss_io::{Sink, SinkFault, print_line};
use vss_jobs::Refusal;
use vss_report::ReportFault;

/// Prints the line of a refusal; nothing for want of memory.
pub fn print_refusal<K: Sink>(refusal: &Refusal, out: &mut K) -> Result<(), SinkFault>
    ensures { Prints (K.shown out.old) (K.shown out.new) (refusal_text refusal.now) result }
{
    match refusal {
        Refusal::Network(why) => print_network(*why, out),
        Refusal::Timetable(why) => print_timetable(*why, out),
        Refusal::Grid(why) => print_grid(*why, out),
        Refusal::Report(fault) => print_report(*fault, out),
        Refusal::Sizes(why) => print_sizes(*why, out),
    }
}

fn print_network<K: Sink>(why: ReadRefusal, out: &mut K) -> Result<(), SinkFault>
    ensures { Prints (K.shown out.old) (K.shown out.new) (network_refusal_text why) result }
{
    match why {
        ReadRefusal::NotJson => print_refused(b"network", b"NotJson", b"document", 0, out),
        ReadRefusal::Shape { member, item } => {
            print_refused(b"network", b"Shape", word_of_net_member(member), item, out)
        }
        ReadRefusal::BadName(spot) => {
            print_refused(
                b"network",
                b"BadName",
                word_of_list(spot.list),
                spot.item,
                out,
            )
        }
        ReadRefusal::Net { kind, spot } => print_refused(
            b"network",
            word_of_net_fault(kind),
            word_of_list(spot.list),
            spot.item,
            out,
        ),
        ReadRefusal::Memory => Ok(()),
    }
}

fn print_timetable<K: Sink>(why: TimeRefusal, out: &mut K) -> Result<(), SinkFault>
    ensures { Prints (K.shown out.old) (K.shown out.new) (timetable_refusal_text why) result }
{
    match why {
        TimeRefusal::NotJson => print_refused(b"timetable", b"NotJson", b"document", 0, out),
        TimeRefusal::Shape { member, item } => {
            print_refused(
                b"timetable",
                b"Shape",
                word_of_time_member(member),
                item,
                out,
            )
        }
        TimeRefusal::Named { kind, spot } => print_refused(
            b"timetable",
            word_of_time_fault(kind),
            word_of_list(spot.list),
            spot.item,
            out,
        ),
        TimeRefusal::Memory => Ok(()),
    }
}

fn print_grid<K: Sink>(why: CutRefusal, out: &mut K) -> Result<(), SinkFault>
    ensures { Prints (K.shown out.old) (K.shown out.new) (grid_refusal_text why) result }
{
    match why {
        CutRefusal::Named { kind, spot } => print_refused(
            b"grid",
            word_of_cut_fault(kind),
            word_of_list(spot.list),
            spot.item,
            out,
        ),
        CutRefusal::Memory => Ok(()),
    }
}

fn print_report<K: Sink>(fault: ReportFault, out: &mut K) -> Result<(), SinkFault>
    ensures { Prints (K.shown out.old) (K.shown out.new) (report_refusal_text fault) result }
{
    match fault {
        ReportFault::BadLine(line) => print_refused(b"report", b"BadLine", b"lines", line, out),
        ReportFault::UnknownName(line) => {
            print_refused(b"report", b"UnknownName", b"lines", line, out)
        }
        ReportFault::NoPart => print_refused(b"report", b"NoPart", b"document", 0, out),
        ReportFault::Memory => Ok(()),
    }
}

fn print_sizes<K: Sink>(why: EncodeRefusal, out: &mut K) -> Result<(), SinkFault>
    ensures { Prints (K.shown out.old) (K.shown out.new) (sizes_refusal_text why) result }
{
    match why {
        EncodeRefusal::TooManySweeps(train) => {
            print_refused(b"sizes", b"TooManySweeps", b"trains", train.0, out)
        }
        EncodeRefusal::TooManyWalks(section) => {
            print_refused(b"sizes", b"TooManyWalks", b"sections", section.0, out)
        }
        EncodeRefusal::TooManyVariables => {
            print_refused(b"sizes", b"TooManyVariables", b"document", 0, out)
        }
        EncodeRefusal::TooManyClauses => {
            print_refused(b"sizes", b"TooManyClauses", b"document", 0, out)
        }
        EncodeRefusal::TooManyLiterals => {
            print_refused(b"sizes", b"TooManyLiterals", b"document", 0, out)
        }
        EncodeRefusal::Memory => Ok(()),
    }
}

/// Prints the line of a file, a kind, a place and an item.
#[tactic(auto, unfolding(crate::specs::RefusalTexts::refused_line))]
fn print_refused<'a, K: Sink>(
    file: &'a [u8],
    kind: &'a [u8],
    place: &'a [u8],
    item: u32,
    out: &mut K,
) -> Result<(), SinkFault>
    ensures { Prints (K.shown out.old) (K.shown out.new) (refused_line file.now kind.now place.now item) result }
{
    let mut digits = Buffer::new();
    let item = digits.format(item).as_bytes();
    print_line(
        &[b"refused ", file, b" ", kind, b" ", place, b" ", item],
        out,
    )
}
