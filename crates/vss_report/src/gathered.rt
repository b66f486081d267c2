//! What is gathered of the lines of a report for a refutation.
use crate::read_line::ReadLine;
use derivation_log::{Bound, Step};
use std::alloc::{AllocError, Global};

/// The bound that was read, with the number of its line, and the steps so far.
#[derive(Drop)]
pub(crate) struct Gathered {
    pub bound: Option<(Bound, u32)>,
    pub steps: Vec<Step>,
}

impl Gathered {
    ghost use Rattle.std.specs.Prelude.{◌≡◌, ◌+◌, ◌<◌, ◌++◌, ◌∷◌, [], List, length, OnOk, OnErr};
    ghost use Rattle.vss_report.specs.Gathered.{AreGathered, IsGood};
    ghost use Rattle.vss_report.specs.Lines.{ReportLine, IsSpelled};
    ghost use Rattle.vss_report.specs.Readings.{SaysLine};
    ghost use Rattle.vss_report.specs.Refutations.{steps_of_lines};

    /// Nothing yet; takes no memory.
    pub(crate) fn new(alloc: Global) -> Gathered
        ensures { AreGathered [] result }
    {
        Gathered {
            bound: None,
            steps: Vec::new(alloc),
        }
    }

    /// Takes the line of that number. Memory is taken for a step alone.
    pub(crate) fn take(
        &mut self,
        alloc: Global,
        line: &ReadLine<'_>,
        number: u32,
    ) -> Result<(), AllocError>
        requires { IsGood line.now }
        ensures ok { OnOk result ((lines : List ReportLine) (l : ReportLine) → AreGathered lines self.old → IsSpelled l → SaysLine line.now l → number ≡ length lines + 1 → AreGathered (lines ++ l ∷ []) self.new) }
        ensures err { OnErr result ((lines : List ReportLine) (l : ReportLine) → SaysLine line.now l → 0 < length (steps_of_lines (lines ++ l ∷ []))) }
    {
        match line {
            ReadLine::Refutes(bound) => self.bound = Some((*bound, number)),
            ReadLine::Step(text) => {
                let step = text.read(alloc)?;
                self.steps.push(step)?;
            }
            _ => return Ok(()),
        }
        Ok(())
    }
}
