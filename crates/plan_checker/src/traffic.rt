//! The runs of all trains, under the classes of a layout.

ghost use Rattle.std.specs.Prelude.{MatchOption};
ghost use Rattle.cell_net.specs.Runs.{IsSweepAt};
ghost use Rattle.cell_net.specs.declared.plans.Sweep.{Sweep};

use cell_net::{Instance, Layout, Sweep, TrainRun};
use layout_rules::Classes;

/// The runs of the trains of an instance, and the classes of the cells that are linked under a
/// layout.
#[derive(Clone, Copy)]
pub(crate) struct Traffic<'a> {
    pub inst: &'a Instance,
    pub layout: &'a Layout,
    pub classes: &'a Classes,
    pub runs: &'a [TrainRun],
}

/// The sweep of the run at the step, if it has one.
pub(crate) fn sweep_at(run: &TrainRun, step: u32) -> Option<&Sweep>
    ensures { MatchOption result ((w : Sweep) → ¬ IsSweepAt run.now step w) (λ w. IsSweepAt run.now step w.now) }
{
    let place = step.checked_sub(run.start)?;
    run.sweeps.get(place as usize)
}
