//! The first clash of two trains, step by step.

ghost use Rattle.std.specs.Prelude.{◌≡◌, ◌+◌, ◌<◌, IfOk, MatchOption, length, ℕ};
ghost use Rattle.std.specs.List.{AllZip};
ghost use Rattle.cell_net.specs.Runs.{IsRun};
ghost use Rattle.layout_rules.specs.Classes.{AreClasses};
ghost use Rattle.plan_checker.specs.Clashes.{AreApartAt, IsFirstClash};
ghost use Rattle.plan_checker.specs.ClassMarks.{AreEarlier};
ghost use Rattle.plan_checker.specs.ClashSearch.{AreAllApart, AreTrainsApart, IsFirstClashAt, IsGoodTraffic};

use crate::clash::Clash;
use crate::marks::{Mark, are_all_apart, no_marks};
use crate::pairs::first_clash_at;
use crate::traffic::Traffic;
use cell_net::{Instance, Layout, Plan};
use layout_rules::Classes;
use std::alloc::{AllocError, Global};

/// The first clash of two trains: at the first step, there of the first pair of trains, by the first
/// linked cells of their sweeps. Takes memory linear in the cells of the instance, and where no two
/// trains clash, time linear in the cells of all sweeps and in the trains at each step.
pub(crate) fn first_clash(
    alloc: Global,
    inst: &Instance,
    layout: &Layout,
    classes: &Classes,
    plan: &Plan,
) -> Result<Option<Clash>, AllocError>
    requires classes { AreClasses inst.now layout.now classes.now }
    requires runs { AllZip (IsRun inst.now) inst.now.trains plan.now.runs }
    ensures { IfOk result (λ found. MatchOption found
        ((step x y : ℕ) → x < y → AreApartAt inst.now layout.now plan.now.runs step x y)
        (λ k. IsFirstClash inst.now layout.now plan.now.runs k.a.0 k.b.0 k.step k.e k.f)) }
{
    let traffic = Traffic {
        inst,
        layout,
        classes,
        runs: plan.runs.as_slice(),
    };
    let mut marks = no_marks(alloc, inst.parts().cells.len())?;
    Ok(first_clash_in(&traffic, &mut marks))
}

/// The first clash, with a mark for each cell.
fn first_clash_in(traffic: &Traffic, marks: &mut [Option<Mark>]) -> Option<Clash>
    requires sound { IsGoodTraffic traffic.now }
    requires marks { length marks.old ≡ length traffic.now.inst.now.cells }
    requires none { AreEarlier 0 marks.old }
    ensures { MatchOption result
        ((step x y : ℕ) → x < y → AreTrainsApart traffic.now step x y)
        (λ k. IsFirstClash traffic.now.inst.now traffic.now.layout.now traffic.now.runs.now k.a.0 k.b.0 k.step k.e k.f) }
{
    for step in 0..traffic.inst.steps() {
        match clash_at(traffic, step, marks) {
            Some(clash) => return Some(clash),
            None => {}
        }
    }
    None
}

/// The clash of the first pair of trains at the step. Compares pairs only where two trains aren't apart.
fn clash_at(traffic: &Traffic, step: u32, marks: &mut [Option<Mark>]) -> Option<Clash>
    requires sound { IsGoodTraffic traffic.now }
    requires marks { length marks.old ≡ length traffic.now.inst.now.cells }
    requires earlier { AreEarlier step marks.old }
    ensures clash { MatchOption result (AreAllApart traffic.now step) (IsFirstClashAt traffic.now step) }
    ensures earlier { AreEarlier (step + 1) marks.new }
{
    if are_all_apart(traffic, step, marks) {
        return None;
    }
    first_clash_at(traffic, step)
}
