//! The printed line of a breach.

ghost use Rattle.std.specs.Prelude.{◌≡◌, [], ◌∷◌, ◌++◌, Some, codes};
ghost use Rattle.vss_io.specs.Written.{Prints};
ghost use Rattle.vss_io.specs.Line.{flat, line};
ghost use Rattle.vss_answers.specs.PrintedNames.{cell_name, place_name, place_label_text};
ghost use Rattle.vss_answers.specs.Texts.{apart_text, breach_text, train_text};

use cell_net::{CandidateId, CellId, Labels, PlaceLabel, TrainId};
use itoa::Buffer;
use plan_checker::Breach;
use vss_io::{Sink, SinkFault, print_line};
use vss_report::{name_of_track, name_of_train};

/// The pieces of a cell's name, as `t1`, `:` and `0`.
#[derive(Drop)]
struct CellPieces<'l, 'd> {
    track: &'l [u8],
    colon: &'l [u8],
    index: &'d [u8],
}

impl<'l, 'd> CellPieces<'l, 'd> {
    /// The pieces of the cell's name; nothing where there is no such cell.
    fn new(labels: &'l Labels, cell: CellId, digits: &'d mut Buffer) -> CellPieces<'l, 'd>
        ensures { flat (result.track.now ∷ result.colon.now ∷ result.index.now ∷ []) ≡ cell_name labels.now cell }
    {
        match labels.cells.get(cell.0 as usize) {
            Some(label) => CellPieces {
                track: name_of_track(labels, label.track),
                colon: b":",
                index: digits.format(label.index).as_bytes(),
            },
            None => CellPieces {
                track: b"",
                colon: b"",
                index: b"",
            },
        }
    }
}

/// Prints the line of a breach.
#[tactic(auto, unfolding(crate::specs::Texts::breach_text))]
pub fn print_breach<K: Sink>(labels: &Labels, breach: &Breach, out: &mut K) -> Result<(), SinkFault>
    ensures { Prints (K.shown out.old) (K.shown out.new) (line (breach_text labels.now breach.now)) result }
{
    match *breach {
        Breach::Border { candidate } => print_border(labels, candidate, out),
        Breach::Entry { train } => {
            print_line(&[b"breach entry ", name_of_train(labels, train)], out)
        }
        Breach::Path { train, step } => print_step(labels, b"path", train, step, out),
        Breach::Length { train, step } => print_step(labels, b"length", train, step, out),
        Breach::Speed { train, step } => print_step(labels, b"speed", train, step, out),
        Breach::Join { train, step } => print_step(labels, b"join", train, step, out),
        Breach::Late { train, step } => print_step(labels, b"late", train, step, out),
        Breach::Stop { train, stop } => print_step(labels, b"stop", train, stop, out),
        Breach::Apart { a, b, step, e, f } => print_apart(labels, a, b, step, e, f, out),
    }
}

/// Prints that the layout lacks a kept border.
fn print_border<K: Sink>(
    labels: &Labels,
    candidate: CandidateId,
    out: &mut K,
) -> Result<(), SinkFault>
    ensures { Prints (K.shown out.old) (K.shown out.new) (line (codes "breach border " ++ place_name labels.now candidate)) result }
{
    match labels.places.get(candidate.0 as usize) {
        Some(place) => print_place(labels, place, out),
        None => print_line(&[b"breach border "], out),
    }
}

/// Prints where the kept border stands that the layout lacks.
fn print_place<K: Sink>(labels: &Labels, place: &PlaceLabel, out: &mut K) -> Result<(), SinkFault>
    ensures { Prints (K.shown out.old) (K.shown out.new) (line (codes "breach border " ++ place_label_text labels.now (Some place.now))) result }
{
    match place {
        PlaceLabel::Cut { track, at_m } => {
            let track = name_of_track(labels, *track);
            let mut digits = Buffer::new();
            let at_m = digits.format(*at_m).as_bytes();
            print_line(&[b"breach border cut ", track, b" ", at_m], out)
        }
        PlaceLabel::Joint { name } => print_line(&[b"breach border joint ", name.as_bytes()], out),
    }
}

/// Prints a breach of one train's run: its kind, the train, and a step or the number of a stop.
#[tactic(auto, unfolding(crate::specs::Texts::train_text))]
fn print_step<K: Sink>(
    labels: &Labels,
    kind: &[u8],
    train: TrainId,
    number: u32,
    out: &mut K,
) -> Result<(), SinkFault>
    ensures { Prints (K.shown out.old) (K.shown out.new) (line (train_text labels.now kind.now train number)) result }
{
    let mut digits = Buffer::new();
    let number = digits.format(number).as_bytes();
    let train = name_of_train(labels, train);
    print_line(&[b"breach ", kind, b" ", train, b" ", number], out)
}

/// Prints that two trains are not apart at a step: a cell of the one is linked to a cell of the other.
#[tactic(auto, unfolding(crate::specs::Texts::apart_text))]
fn print_apart<K: Sink>(
    labels: &Labels,
    a: TrainId,
    b: TrainId,
    step: u32,
    e: CellId,
    f: CellId,
    out: &mut K,
) -> Result<(), SinkFault>
    ensures { Prints (K.shown out.old) (K.shown out.new) (line (apart_text labels.now a b step e f)) result }
{
    let mut step_digits = Buffer::new();
    let mut e_digits = Buffer::new();
    let mut f_digits = Buffer::new();
    let step = step_digits.format(step).as_bytes();
    let e = CellPieces::new(labels, e, &mut e_digits);
    let f = CellPieces::new(labels, f, &mut f_digits);
    let a = name_of_train(labels, a);
    let b = name_of_train(labels, b);
    let (e_track, e_colon, e_index) = (e.track, e.colon, e.index);
    let (f_track, f_colon, f_index) = (f.track, f.colon, f.index);
    print_line(
        &[
            b"breach apart ",
            a,
            b" ",
            b,
            b" ",
            step,
            b" ",
            e_track,
            e_colon,
            e_index,
            b" ",
            f_track,
            f_colon,
            f_index,
        ],
        out,
    )
}
