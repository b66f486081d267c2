//! A line at the front of a text, of a kind or of those that may stand at a place.
ghost use Rattle.std.specs.Prelude.{◌≡◌, ◌++◌, IfOk, IfErr};
ghost use Rattle.vss_report.specs.Lines.{full_text};
ghost use Rattle.vss_report.specs.Places.{MayStand};
ghost use Rattle.vss_report.specs.Readings.{IsOfKind, IsFound};
ghost use Rattle.vss_report.specs.declared.kind.Kind.TheVariants as kinds;
ghost use Rattle.vss_text.specs.Reading.{Misses, MissesText};

use crate::cells::test_cells;
use crate::kind::Kind;
use crate::parts::{named_number, numbered, worded};
use crate::place::Place;
use crate::read_line::ReadLine;
use derivation_log::{Bound, test_step};
use vss_text::{Miss, after};

/// The line at the front of the text, one of those that may stand at the place, and what follows it. One pass over the
/// line for each kind of them, without memory.
pub(crate) fn read_line(place: Place, text: &[u8]) -> Result<(ReadLine<'_>, &[u8]), Miss>
    ensures found { IfOk result (λ found. IsFound (MayStand place) text.now found.0 found.1.now) }
    ensures missed { IfErr result (Misses (MayStand place) full_text text.now) }
{
    for kind in place.kinds() {
        match read_kind(*kind, text) {
            Ok((line, rest)) => return Ok((line, rest)),
            Err(Miss::Short) => return Err(Miss::Short),
            Err(Miss::Wrong) => {}
        }
    }
    Err(Miss::Wrong)
}

/// The line of the kind at the front of the text, and what follows it. One pass, without memory.
pub(crate) fn read_kind(kind: Kind, text: &[u8]) -> Result<(ReadLine<'_>, &[u8]), Miss>
    ensures found { IfOk result (λ found. IsFound (IsOfKind kind) text.now found.0 found.1.now) }
    ensures missed { IfErr result (Misses (IsOfKind kind) full_text text.now) }
{
    match kind {
        Kind::Header => fixed(text, b"vssplan report 1\n", ReadLine::Header),
        Kind::Done => fixed(text, b"verdict done\n", ReadLine::Done),
        Kind::Impossible => fixed(text, b"verdict impossible\n", ReadLine::Impossible),
        Kind::Spent => fixed(text, b"verdict spent\n", ReadLine::Spent),
        Kind::Conflicts => conflicts(text),
        Kind::BestNone => fixed(text, b"best none\n", ReadLine::BestNone),
        Kind::Count => count(text),
        Kind::Border => border(text),
        Kind::Run => run(text),
        Kind::Sweep => sweep(text),
        Kind::SmallerNone => fixed(text, b"smaller none\n", ReadLine::SmallerNone),
        Kind::Refutes => refutes(text),
        Kind::Step => step(text),
        Kind::End => fixed(text, b"end\n", ReadLine::End),
    }
}

/// The line of these words.
fn fixed<'a>(
    text: &'a [u8],
    words: &[u8],
    line: ReadLine<'a>,
) -> Result<(ReadLine<'a>, &'a [u8]), Miss>
    ensures same { IfOk result (λ found. found.0 ≡ line.entry) }
    ensures found { IfOk result (λ found. text.now ≡ words.now ++ found.1.now) }
    ensures missed { IfErr result (MissesText words.now text.now) }
{
    match after(text, words) {
        Ok(rest) => Ok((line, rest)),
        Err(miss) => Err(miss),
    }
}

/// The line of a number of conflicts, which may be 1,000,000,000.
fn conflicts(text: &[u8]) -> Result<(ReadLine<'_>, &[u8]), Miss>
    ensures found { IfOk result (λ found. IsFound (IsOfKind kinds.Conflicts) text.now found.0 found.1.now) }
    ensures missed { IfErr result (Misses (IsOfKind kinds.Conflicts) full_text text.now) }
{
    match numbered(text, b"conflicts ") {
        Ok((number, rest)) => return Ok((ReadLine::Conflicts(number), rest)),
        Err(Miss::Short) => return Err(Miss::Short),
        Err(Miss::Wrong) => {}
    }
    match after(text, b"conflicts 1000000000\n") {
        Ok(rest) => Ok((ReadLine::Conflicts(1_000_000_000), rest)),
        Err(miss) => Err(miss),
    }
}

/// The line of a number of borders.
fn count(text: &[u8]) -> Result<(ReadLine<'_>, &[u8]), Miss>
    ensures found { IfOk result (λ found. IsFound (IsOfKind kinds.Count) text.now found.0 found.1.now) }
    ensures missed { IfErr result (Misses (IsOfKind kinds.Count) full_text text.now) }
{
    match numbered(text, b"design ") {
        Ok((number, rest)) => Ok((ReadLine::Count(number), rest)),
        Err(miss) => Err(miss),
    }
}

/// The line of a border: a cut or a joint.
fn border(text: &[u8]) -> Result<(ReadLine<'_>, &[u8]), Miss>
    ensures found { IfOk result (λ found. IsFound (IsOfKind kinds.Border) text.now found.0 found.1.now) }
    ensures missed { IfErr result (Misses (IsOfKind kinds.Border) full_text text.now) }
{
    match named_number(text, b"border cut ") {
        Ok((cut, rest)) => {
            let track = cut.name;
            let at_m = cut.number;
            return Ok((ReadLine::Cut { track, at_m }, rest));
        }
        Err(Miss::Short) => return Err(Miss::Short),
        Err(Miss::Wrong) => {}
    }
    match worded(text, b"border joint ") {
        Ok((name, rest)) => Ok((ReadLine::Joint { name }, rest)),
        Err(miss) => Err(miss),
    }
}

/// The first line of a run.
fn run(text: &[u8]) -> Result<(ReadLine<'_>, &[u8]), Miss>
    ensures found { IfOk result (λ found. IsFound (IsOfKind kinds.Run) text.now found.0 found.1.now) }
    ensures missed { IfErr result (Misses (IsOfKind kinds.Run) full_text text.now) }
{
    match named_number(text, b"run ") {
        Ok((run, rest)) => {
            let train = run.name;
            let start = run.number;
            Ok((ReadLine::Run { train, start }, rest))
        }
        Err(miss) => Err(miss),
    }
}

/// The line of a sweep.
fn sweep(text: &[u8]) -> Result<(ReadLine<'_>, &[u8]), Miss>
    ensures found { IfOk result (λ found. IsFound (IsOfKind kinds.Sweep) text.now found.0 found.1.now) }
    ensures missed { IfErr result (Misses (IsOfKind kinds.Sweep) full_text text.now) }
{
    let rest = match after(text, b"sweep") {
        Ok(rest) => rest,
        Err(miss) => return Err(miss),
    };
    match test_cells(rest) {
        Ok((cells, rest)) => Ok((ReadLine::Sweep { cells }, rest)),
        Err(miss) => Err(miss),
    }
}

/// The first line of a refutation.
fn refutes(text: &[u8]) -> Result<(ReadLine<'_>, &[u8]), Miss>
    ensures found { IfOk result (λ found. IsFound (IsOfKind kinds.Refutes) text.now found.0 found.1.now) }
    ensures missed { IfErr result (Misses (IsOfKind kinds.Refutes) full_text text.now) }
{
    match after(text, b"refutes given\n") {
        Ok(rest) => return Ok((ReadLine::Refutes(Bound::Given), rest)),
        Err(Miss::Short) => return Err(Miss::Short),
        Err(Miss::Wrong) => {}
    }
    match numbered(text, b"refutes ") {
        Ok((number, rest)) => Ok((ReadLine::Refutes(Bound::AtMost(number)), rest)),
        Err(miss) => Err(miss),
    }
}

/// The line of a step.
fn step(text: &[u8]) -> Result<(ReadLine<'_>, &[u8]), Miss>
    ensures found { IfOk result (λ found. IsFound (IsOfKind kinds.Step) text.now found.0 found.1.now) }
    ensures missed { IfErr result (Misses (IsOfKind kinds.Step) full_text text.now) }
{
    let (step, behind) = match test_step(text) {
        Ok(found) => found,
        Err(miss) => return Err(miss),
    };
    match after(behind, b"\n") {
        Ok(rest) => Ok((ReadLine::Step(step), rest)),
        Err(miss) => Err(miss),
    }
}
