//! The places of a report: which lines may stand there.
ghost use Rattle.std.specs.Prelude.{◌≡◌, ◌↔◌, IsTrue};
ghost use Rattle.vss_report.specs.Lines.{ReportLine};
ghost use Rattle.vss_report.specs.Places.{kinds_at, is_done, left_at, place_after};
ghost use Rattle.vss_report.specs.Readings.{SaysLine};

use crate::kind::Kind;
use crate::read_line::ReadLine;

/// A place between two lines of a report.
#[derive(Clone, Copy, Debug)]
pub(crate) enum Place {
    /// Before the first line.
    Start,
    /// Behind the first line.
    Verdict,
    /// Where the conflicts of a spent budget are due.
    Conflicts,
    /// Behind the conflicts: the best design, or none.
    Best,
    /// Where the design of an ended search is due.
    Design,
    /// Behind the count of a design or one of its borders, with so many borders left. `done`: the search ended.
    Borders { left: u32, done: bool },
    /// Behind the first line of a run.
    FirstSweep { done: bool },
    /// Behind a sweep.
    Sweeps { done: bool },
    /// Where a refutation is due.
    Bound,
    /// Within a log.
    Log,
    /// Where the last line is due.
    End,
    /// Behind the last line.
    Finished,
}

impl Place {
    /// The kinds of line that may stand here.
    pub(crate) fn kinds(&self) -> &'static [Kind]
        ensures { result.now ≡ kinds_at self.now }
    {
        match self {
            Place::Start => &[Kind::Header],
            Place::Verdict => &[Kind::Done, Kind::Impossible, Kind::Spent],
            Place::Conflicts => &[Kind::Conflicts],
            Place::Best => &[Kind::BestNone, Kind::Count],
            Place::Design => &[Kind::Count],
            Place::Borders { left, done } => {
                if *left > 0 {
                    &[Kind::Border]
                } else if *done {
                    &[Kind::Run, Kind::SmallerNone, Kind::Refutes, Kind::End]
                } else {
                    &[Kind::Run, Kind::End]
                }
            }
            Place::FirstSweep { .. } => &[Kind::Sweep],
            Place::Sweeps { done } => {
                if *done {
                    &[
                        Kind::Sweep,
                        Kind::Run,
                        Kind::SmallerNone,
                        Kind::Refutes,
                        Kind::End,
                    ]
                } else {
                    &[Kind::Sweep, Kind::Run, Kind::End]
                }
            }
            Place::Bound => &[Kind::Refutes],
            Place::Log => &[Kind::Step, Kind::End],
            Place::End => &[Kind::End],
            Place::Finished => &[],
        }
    }

    /// The place behind a line that may stand here.
    pub(crate) fn after(&self, line: &ReadLine<'_>) -> Place
        ensures { (l : ReportLine) → SaysLine line.now l → result ≡ place_after self.now l }
    {
        let done = self.is_done();
        match line {
            ReadLine::Header => Place::Verdict,
            ReadLine::Done => Place::Design,
            ReadLine::Impossible => Place::Bound,
            ReadLine::Spent => Place::Conflicts,
            ReadLine::Conflicts(_) => Place::Best,
            ReadLine::BestNone => Place::End,
            ReadLine::Count(left) => Place::Borders { left: *left, done },
            ReadLine::Cut { .. } => self.behind_border(),
            ReadLine::Joint { .. } => self.behind_border(),
            ReadLine::Run { .. } => Place::FirstSweep { done },
            ReadLine::Sweep { .. } => Place::Sweeps { done },
            ReadLine::SmallerNone => Place::End,
            ReadLine::Refutes(_) => Place::Log,
            ReadLine::Step(_) => Place::Log,
            ReadLine::End => Place::Finished,
        }
    }

    /// Whether nothing may stand here.
    pub(crate) fn is_finished(&self) -> bool
        ensures { IsTrue result ↔ (self.now ≡ Place.Finished) }
    {
        matches!(self, Place::Finished)
    }

    /// Whether this is within the design of a search that ended.
    fn is_done(&self) -> bool
        ensures { result ≡ is_done self.now }
    {
        match self {
            Place::Design => true,
            Place::Borders { done, .. } => *done,
            Place::FirstSweep { done } => *done,
            Place::Sweeps { done } => *done,
            _ => false,
        }
    }

    /// The place behind a border.
    fn behind_border(&self) -> Place
        ensures { result ≡ Place.Borders (left_at self.now) (is_done self.now) }
    {
        let done = self.is_done();
        match self {
            Place::Borders { left, .. } if *left > 0 => Place::Borders {
                left: *left - 1,
                done,
            },
            _ => Place::Borders { left: 0, done },
        }
    }
}
