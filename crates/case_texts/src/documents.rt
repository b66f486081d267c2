//! The documents of a made case, as they are printed.

ghost use Rattle.std.specs.Prelude.{◌++◌};
ghost use Rattle.vss_io.specs.Written.{Prints};

use vss_io::{PIECE, Sink, SinkFault};

/// Prints the network document and then the timetable document. Each ends with its own line feed, and is put in pieces of
/// 4,096 bytes and a rest. Takes no memory.
pub fn print_case<K: Sink>(network: &[u8], timetable: &[u8], out: &mut K) -> Result<(), SinkFault>
    ensures { Prints (K.shown out.old) (K.shown out.new) (network.now ++ timetable.now) result }
{
    print_text(network, out)?;
    print_text(timetable, out)
}

/// Prints the text, in pieces of 4,096 bytes and a rest.
fn print_text<K: Sink>(text: &[u8], out: &mut K) -> Result<(), SinkFault>
    ensures { Prints (K.shown out.old) (K.shown out.new) text.now result }
{
    let mut rest = text;
    while rest.len() > PIECE {
        let (front, back) = rest.split_at(PIECE);
        out.put(front)?;
        rest = back;
    }
    out.put(rest)
}
