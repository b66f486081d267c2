//! What is taken of the lines of a report for a design.
ghost use Rattle.std.specs.Prelude.{◌≡◌, ◌↔◌, Some, Contains, IsTrue, OnOk, slice_get};
ghost use Rattle.vss_report.specs.Taken.{AddsSweep};

use crate::cell_finder::CellFinder;
use crate::fault::ReportFault;
use crate::place_finder::{NamedPlace, find_place};
use crate::read_line::ReadLine;
use crate::sweep_reader::read_sweep;
use cell_net::{CandidateId, Labels, Scene, Sweep, TrainRun};
use std::alloc::{AllocError, Global};
use vss_lists::{Items, Text};

/// The borders and the runs that were read so far.
#[derive(Drop)]
pub(crate) struct DesignParts {
    /// Whether the count of a design was read.
    pub begun: bool,
    pub borders: Vec<CandidateId>,
    /// One above the last border.
    from: u32,
    pub runs: Vec<TrainRun>,
    finder: CellFinder,
}

impl DesignParts {
    ghost use Rattle.std.specs.Prelude.{◌≡◌, ◌<◌, ◌≤◌, ◌↔◌, [], ℕ, List, Some, OnOk, IfErr, IsTrue, length, slice_get};
    ghost use Rattle.cell_net.specs.declared.labels.Labels.{Labels};
    ghost use Rattle.vss_report.specs.Found.{name_of_place, IsCellsText, IsTextOfCells};
    ghost use Rattle.vss_report.specs.Gathered.{IsGood};
    ghost use Rattle.vss_report.specs.Lines.{ReportLine, CellName, border, run, sweep};
    ghost use Rattle.vss_report.specs.Readings.{SaysLine};
    ghost use Rattle.vss_report.specs.Taken.{AreTaken, TakesLine, RefusesLine};

    /// Nothing yet; takes no memory.
    pub(crate) fn new(alloc: Global) -> DesignParts
        ensures { (labels : Labels) → AreTaken labels [] result }
    {
        DesignParts {
            begun: false,
            borders: Vec::new(alloc),
            from: 0,
            runs: Vec::new(alloc),
            finder: CellFinder::new(),
        }
    }

    /// Takes the line of that number, if it fits the scene behind those that were taken.
    ///
    /// `BadLine` where it breaks the order of borders or of runs; `UnknownName` where it names what the scene doesn't have.
    pub(crate) fn take(
        &mut self,
        alloc: Global,
        scene: &Scene,
        line: &ReadLine<'_>,
        number: u32,
    ) -> Result<(), ReportFault>
        requires { IsGood line.now }
        ensures ok { (l : ReportLine) → SaysLine line.now l → OnOk result (TakesLine scene.now.labels self.old self.new l) }
        ensures err { (l : ReportLine) → SaysLine line.now l → IfErr result (RefusesLine scene.now.labels self.old l number) }
    {
        match *line {
            ReadLine::Count(_) => {
                self.begun = true;
                Ok(())
            }
            ReadLine::Cut { track, at_m } => {
                self.take_border(scene, &NamedPlace::Cut { track, at_m }, number)
            }
            ReadLine::Joint { name } => {
                self.take_border(scene, &NamedPlace::Joint { name }, number)
            }
            ReadLine::Run { train, start } => self.take_run(alloc, scene, train, start, number),
            ReadLine::Sweep { cells } => self.take_sweep(alloc, scene, cells, number),
            ReadLine::SmallerNone => self.end_runs(scene, number),
            ReadLine::Refutes(_) => self.end_runs(scene, number),
            ReadLine::End => self.end_runs(scene, number),
            _ => Ok(()),
        }
    }

    /// Takes a border, which has to be above the last one.
    fn take_border(
        &mut self,
        scene: &Scene,
        name: &NamedPlace<'_>,
        number: u32,
    ) -> Result<(), ReportFault>
        ensures ok { OnOk result (TakesLine scene.now.labels self.old self.new (border (name_of_place name.now))) }
        ensures err { IfErr result (RefusesLine scene.now.labels self.old (border (name_of_place name.now)) number) }
    {
        match find_place(scene, self.from, name) {
            Some(candidate) => match self.borders.push(candidate) {
                Ok(()) => {
                    self.from = candidate.0 + 1;
                    Ok(())
                }
                Err(_) => Err(ReportFault::Memory),
            },
            None => match find_place(scene, 0, name) {
                Some(_) => Err(ReportFault::BadLine(number)),
                None => Err(ReportFault::UnknownName(number)),
            },
        }
    }

    /// Begins a run, which has to be that of the next train.
    fn take_run(
        &mut self,
        alloc: Global,
        scene: &Scene,
        train: &[u8],
        start: u32,
        number: u32,
    ) -> Result<(), ReportFault>
        ensures ok { OnOk result (TakesLine scene.now.labels self.old self.new (run train.now start)) }
        ensures err { IfErr result (RefusesLine scene.now.labels self.old (run train.now start) number) }
    {
        let trains = scene.labels.trains.as_slice();
        if is_due(&scene.labels, self.runs.as_slice().len(), train) {
            match self.begin_run(alloc, start) {
                Ok(()) => return Ok(()),
                Err(_) => return Err(ReportFault::Memory),
            }
        }
        if self.has_all_runs(trains) {
            return Err(ReportFault::BadLine(number));
        }
        if is_train(trains, train) {
            return Err(ReportFault::BadLine(number));
        }
        Err(ReportFault::UnknownName(number))
    }

    /// Whether each train has its run.
    fn has_all_runs(&self, trains: &[Text]) -> bool
        ensures { IsTrue result ↔ (length trains.now ≤ length self.now.runs.items) }
    {
        trains.len() <= self.runs.as_slice().len()
    }

    /// Begins the run of the next train.
    fn begin_run(&mut self, alloc: Global, start: u32) -> Result<(), AllocError>
        ensures { OnOk result ((labels : Labels) (train : List ℕ) → slice_get labels.trains (length self.old.runs.items) ≡ Some train → TakesLine labels self.old self.new (run train start)) }
    {
        let sweeps = Items::new(alloc);
        self.runs.push(TrainRun { start, sweeps })?;
        Ok(())
    }

    /// Takes a sweep of the last run.
    fn take_sweep(
        &mut self,
        alloc: Global,
        scene: &Scene,
        cells: &[u8],
        number: u32,
    ) -> Result<(), ReportFault>
        requires { IsCellsText cells.now }
        ensures ok { (named : List CellName) → IsTextOfCells cells.now named → OnOk result (TakesLine scene.now.labels self.old self.new (sweep named)) }
        ensures err { (named : List CellName) → IsTextOfCells cells.now named → IfErr result (RefusesLine scene.now.labels self.old (sweep named) number) }
    {
        match read_sweep(alloc, scene, &mut self.finder, cells) {
            Ok(Some(sweep)) => match add_sweep(&mut self.runs, sweep) {
                Ok(()) => Ok(()),
                Err(_) => Err(ReportFault::Memory),
            },
            Ok(None) => Err(ReportFault::UnknownName(number)),
            Err(_) => Err(ReportFault::Memory),
        }
    }

    /// Tests that no run is missing where a design ends.
    fn end_runs(&self, scene: &Scene, number: u32) -> Result<(), ReportFault>
        ensures ok { OnOk result (IsTrue self.now.begun → length scene.now.labels.trains ≤ length self.now.runs.items) }
        ensures err { IfErr result (λ fault. (fault ≡ ReportFault.BadLine number) × IsTrue self.now.begun × (length self.now.runs.items < length scene.now.labels.trains)) }
    {
        if self.begun && !self.has_all_runs(scene.labels.trains.as_slice()) {
            return Err(ReportFault::BadLine(number));
        }
        Ok(())
    }
}

/// Adds a sweep to the last run, if there is one.
fn add_sweep(runs: &mut Vec<TrainRun>, sweep: Sweep) -> Result<(), AllocError>
    ensures { OnOk result (AddsSweep runs.old.items runs.new.items sweep) }
{
    let Some(TrainRun { start, sweeps }) = runs.pop() else {
        return Ok(());
    };
    let mut sweeps = sweeps.into_vec();
    sweeps.push(sweep)?;
    let sweeps = Items::from_vec(sweeps);
    runs.push(TrainRun { start, sweeps })?;
    Ok(())
}

/// Whether the name is that of a train. Linear in the trains.
fn is_train(trains: &[Text], name: &[u8]) -> bool
    ensures { IsTrue result ↔ Contains trains.now name.now }
{
    trains.iter().any(|train| train.as_bytes() == name)
}

/// Whether the train of that number has this name.
fn is_due(labels: &Labels, number: usize, name: &[u8]) -> bool
    ensures { IsTrue result ↔ (slice_get labels.now.trains number ≡ Some name.now) }
{
    match labels.trains.get(number) {
        Some(due) => is_same(due.as_bytes(), name),
        None => false,
    }
}

fn is_same(one: &[u8], other: &[u8]) -> bool
    ensures { IsTrue result ↔ (one.now ≡ other.now) }
{
    one == other
}
