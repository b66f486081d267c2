//! The cells of a sweep.
ghost use Rattle.std.specs.Prelude.{◌≡◌, ◌++◌, IfOk, IfErr};
ghost use Rattle.vss_report.specs.Lines.{cell_text, IsSpelledCell};
ghost use Rattle.vss_report.specs.Readings.{AreSweepCells, cells_line, HasCells};
ghost use Rattle.vss_text.specs.Reading.{Misses};

use crate::parts::name;
use cell_net::End;
use vss_text::{Miss, begins_with, number};

/// A directed cell as it is named: its track, its number on the track, and the end that it heads to.
#[derive(Clone, Copy, Debug)]
pub(crate) struct NamedCell<'a> {
    pub track: &'a [u8],
    pub index: u32,
    pub end: End,
}

/// The cell at the front of the text, as `t1:0+`, and what follows it.
pub(crate) fn cell(text: &[u8]) -> Result<(NamedCell<'_>, &[u8]), Miss>
    ensures fits { IfOk result (λ found. IsSpelledCell (record { track = found.0.track.now; index = found.0.index; end = found.0.end })) }
    ensures found { IfOk result (λ found. text.now ≡ cell_text (record { track = found.0.track.now; index = found.0.index; end = found.0.end }) ++ found.1.now) }
    ensures missed { IfErr result (Misses IsSpelledCell cell_text text.now) }
{
    let (track, rest) = match name(text, b':') {
        Ok(found) => found,
        Err(miss) => return Err(miss),
    };
    match number(rest, b'+') {
        Ok((index, rest)) => {
            let end = End::High;
            return Ok((NamedCell { track, index, end }, rest));
        }
        Err(Miss::Short) => return Err(Miss::Short),
        Err(Miss::Wrong) => {}
    }
    match number(rest, b'-') {
        Ok((index, rest)) => {
            let end = End::Low;
            Ok((NamedCell { track, index, end }, rest))
        }
        Err(miss) => Err(miss),
    }
}

/// The cells that end a line, a blank before each, and what follows the line. There is at least one.
pub(crate) fn test_cells(text: &[u8]) -> Result<(&[u8], &[u8]), Miss>
    ensures found { IfOk result (λ found. HasCells text.now found.0.now found.1.now) }
    ensures missed { IfErr result (Misses AreSweepCells cells_line text.now) }
{
    let mut rest = text;
    while begins_with(rest, b' ') {
        match cell(&rest[1..]) {
            Ok((_, after)) => rest = after,
            Err(miss) => return Err(miss),
        }
    }
    if rest.is_empty() {
        return Err(Miss::Short);
    }
    if rest[0] != b'\n' || rest.len() == text.len() {
        return Err(Miss::Wrong);
    }
    let (cells, behind) = text.split_at(text.len() - rest.len());
    Ok((cells, &behind[1..]))
}
