//! The lines of a design, printed without memory.
ghost use Rattle.std.specs.Prelude.{◌≡◌, ◌++◌, ◌∷◌, [], Some, codes, decimal, map};
ghost use Rattle.std.specs.List.{flat_map};
ghost use Rattle.vss_io.specs.Line.{flat, joined, line};
ghost use Rattle.vss_io.specs.Written.{Prints, PrintsAllBut};
ghost use Rattle.vss_report.specs.Designs.{lines_of_run, lines_of_runs, sweep_line};
ghost use Rattle.vss_report.specs.Found.{name_of_cell};
ghost use Rattle.vss_report.specs.Lines.{full_text, text_of_lines, spaced, sign, border, sweep};
ghost use Rattle.vss_report.specs.Names.{cell_named, labelled_place};
ghost use Rattle.vss_report.specs.Outcomes.{border_line, lines_of_design};

use crate::cells::NamedCell;
use crate::names::{name_at, name_of_track};
use cell_net::{CandidateId, DirCell, End, Labels, PlaceLabel, Plan, Sweep, TrainRun};
use itoa::Buffer;
use vss_io::{LineBuf, Sink, SinkFault, print_line};

/// Puts the count of borders, the borders and the runs of the trains in turn.
pub(crate) fn write_design<K: Sink>(
    labels: &Labels,
    borders: &[CandidateId],
    plan: &Plan,
    out: &mut K,
) -> Result<(), SinkFault>
    ensures { Prints (K.shown out.old) (K.shown out.new) (text_of_lines (lines_of_design labels.now borders.now plan.now)) result }
{
    write_count(borders.len(), out)?;
    write_borders(labels, borders, out)?;
    write_runs(labels, plan.runs.as_slice(), out)
}

fn write_count<K: Sink>(count: usize, out: &mut K) -> Result<(), SinkFault>
    ensures { Prints (K.shown out.old) (K.shown out.new) (line (flat (codes "design " ∷ decimal count ∷ []))) result }
{
    print_line(&[b"design ", Buffer::new().format(count).as_bytes()], out)
}

fn write_borders<K: Sink>(
    labels: &Labels,
    borders: &[CandidateId],
    out: &mut K,
) -> Result<(), SinkFault>
    ensures { Prints (K.shown out.old) (K.shown out.new) (text_of_lines (map (border_line labels.now) borders.now)) result }
{
    for border in borders {
        write_border(labels, border, out)?;
    }
    Ok(())
}

fn write_border<K: Sink>(
    labels: &Labels,
    border: &CandidateId,
    out: &mut K,
) -> Result<(), SinkFault>
    ensures { Prints (K.shown out.old) (K.shown out.new) (full_text (border_line labels.now border.now)) result }
{
    match labels.places.get(border.0 as usize) {
        Some(place) => write_place(labels, place, out),
        None => print_line(&[b"border joint "], out),
    }
}

fn write_place<K: Sink>(labels: &Labels, place: &PlaceLabel, out: &mut K) -> Result<(), SinkFault>
    ensures { Prints (K.shown out.old) (K.shown out.new) (full_text (border (labelled_place labels.now (Some place.now)))) result }
{
    match place {
        PlaceLabel::Cut { track, at_m } => { write_cut(name_of_track(labels, *track), *at_m, out) }
        PlaceLabel::Joint { name } => print_line(&[b"border joint ", name.as_bytes()], out),
    }
}

fn write_cut<K: Sink>(track: &[u8], at_m: u64, out: &mut K) -> Result<(), SinkFault>
    ensures { Prints (K.shown out.old) (K.shown out.new) (line (flat (codes "border cut " ∷ track.now ∷ codes " " ∷ decimal at_m ∷ []))) result }
{
    let mut digits = Buffer::new();
    let at_m = digits.format(at_m).as_bytes();
    print_line(&[b"border cut ", track, b" ", at_m], out)
}

fn write_runs<K: Sink>(labels: &Labels, runs: &[TrainRun], out: &mut K) -> Result<(), SinkFault>
    ensures { Prints (K.shown out.old) (K.shown out.new) (text_of_lines (lines_of_runs labels.now 0 runs.now)) result }
{
    for place in 0..runs.len() {
        write_run(labels, place, &runs[place], out)?;
    }
    Ok(())
}

fn write_run<K: Sink>(
    labels: &Labels,
    train: usize,
    run: &TrainRun,
    out: &mut K,
) -> Result<(), SinkFault>
    ensures { Prints (K.shown out.old) (K.shown out.new) (text_of_lines (lines_of_run labels.now train run.now)) result }
{
    write_start(name_at(labels, train), run.start, out)?;
    write_sweeps(labels, run.sweeps.as_slice(), out)
}

/// Puts the first line of a run.
fn write_start<K: Sink>(train: &[u8], start: u32, out: &mut K) -> Result<(), SinkFault>
    ensures { Prints (K.shown out.old) (K.shown out.new) (line (flat (codes "run " ∷ train.now ∷ codes " " ∷ decimal start ∷ []))) result }
{
    let mut digits = Buffer::new();
    let start = digits.format(start).as_bytes();
    print_line(&[b"run ", train, b" ", start], out)
}

fn write_sweeps<K: Sink>(labels: &Labels, sweeps: &[Sweep], out: &mut K) -> Result<(), SinkFault>
    ensures { Prints (K.shown out.old) (K.shown out.new) (text_of_lines (map (sweep_line labels.now) sweeps.now)) result }
{
    for sweep in sweeps {
        write_sweep(labels, sweep.cells.as_slice(), out)?;
    }
    Ok(())
}

/// Puts the line of a sweep.
fn write_sweep<K: Sink>(labels: &Labels, cells: &[DirCell], out: &mut K) -> Result<(), SinkFault>
    ensures { Prints (K.shown out.old) (K.shown out.new) (full_text (sweep (map (cell_named labels.now) cells.now))) result }
{
    let mut text = LineBuf::new();
    text.add(b"sweep", out)?;
    add_cells(labels, cells, &mut text, out)?;
    text.finish(out)
}

/// Adds the cells to a line, a blank before each.
fn add_cells<K: Sink>(
    labels: &Labels,
    cells: &[DirCell],
    text: &mut LineBuf,
    out: &mut K,
) -> Result<(), SinkFault>
    ensures { PrintsAllBut (K.shown out.old) (K.shown out.new) text.new (text.old ++ flat_map spaced (map (cell_named labels.now) cells.now)) result }
{
    for cell in cells {
        add_cell(labels, cell, text, out)?;
    }
    Ok(())
}

/// Adds a directed cell to a line, behind a blank.
fn add_cell<K: Sink>(
    labels: &Labels,
    cell: &DirCell,
    text: &mut LineBuf,
    out: &mut K,
) -> Result<(), SinkFault>
    ensures { PrintsAllBut (K.shown out.old) (K.shown out.new) text.new (text.old ++ spaced (cell_named labels.now cell.now)) result }
{
    let named = name_cell(labels, *cell);
    add_named(named.track, named.index, named.end, text, out)
}

/// Adds the name of a directed cell to a line, behind a blank.
fn add_named<K: Sink>(
    track: &[u8],
    index: u32,
    end: End,
    text: &mut LineBuf,
    out: &mut K,
) -> Result<(), SinkFault>
    ensures { PrintsAllBut (K.shown out.old) (K.shown out.new) text.new (text.old ++ flat (codes " " ∷ track.now ∷ codes ":" ∷ decimal index ∷ sign end ∷ [])) result }
{
    let mut digits = Buffer::new();
    let index = digits.format(index).as_bytes();
    match end {
        End::High => add_pieces(&[b" ", track, b":", index, b"+"], text, out),
        End::Low => add_pieces(&[b" ", track, b":", index, b"-"], text, out),
    }
}

/// The name of a directed cell; nothing stands for its track where it has none.
fn name_cell(labels: &Labels, cell: DirCell) -> NamedCell<'_>
    ensures { name_of_cell result ≡ cell_named labels.now cell }
{
    match labels.cells.get(cell.cell.0 as usize) {
        Some(label) => NamedCell {
            track: name_of_track(labels, label.track),
            index: label.index,
            end: cell.end,
        },
        None => NamedCell {
            track: b"",
            index: 0,
            end: cell.end,
        },
    }
}

/// Adds the pieces to a line, one after another.
fn add_pieces<K: Sink>(pieces: &[&[u8]], text: &mut LineBuf, out: &mut K) -> Result<(), SinkFault>
    ensures { PrintsAllBut (K.shown out.old) (K.shown out.new) text.new (text.old ++ joined pieces.now) result }
{
    for piece in pieces {
        text.add(piece, out)?;
    }
    Ok(())
}
