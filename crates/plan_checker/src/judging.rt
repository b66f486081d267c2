//! The judge: whether a plan is lawful, or its first breach.

ghost use Rattle.std.specs.Prelude.{◌≡◌, ◌<◌, ℕ, All, IfOk, MatchOption, OnErr, Some, length, slice_get};
ghost use Rattle.vss_lists.specs.Breaks.{HoldsOfEach, BreaksFirstAt};
ghost use Rattle.cell_net.specs.Borders.{IsBorderSet, IsLayout};
ghost use Rattle.plan_checker.specs.Verdicts.{HaveRunsBelow, IsHeld, IsPlanVerdict, rule_of_runs};

use crate::breach::Breach;
use crate::clash::Clash;
use crate::clashes::first_clash;
use crate::runs::run_breach;
use cell_net::{CandidateId, Instance, Layout, Plan, TrainId, TrainRun};
use layout_rules::classes_of;
use std::alloc::{AllocError, Global};

/// The judge's answer.
#[derive(Clone, Copy, Debug, PartialEq, Eq)]
pub enum Verdict {
    /// The layout holds every kept border, and the plan is lawful under it.
    Lawful,
    /// The plan isn't lawful: this is wrong first.
    Breach(Breach),
}

/// Whether the layout holds the kept borders and the plan is lawful under it, or else the first breach.
/// A lawful plan takes time linear in the cells of all its sweeps and, for each stop, in the cells of
/// the instance, beside the time of [`classes_of`]; memory is linear in the cells of the instance. Want of
/// memory is answered only where the layout holds the kept borders.
pub fn judge(
    alloc: Global,
    inst: &Instance,
    layout: &Layout,
    plan: &Plan,
) -> Result<Verdict, AllocError>
    requires layout { IsBorderSet inst.now layout.now }
    requires runs { length plan.now.runs ≡ length inst.now.trains }
    requires short { All (λ r. length r.sweeps < 2000000000) plan.now.runs }
    ensures verdict { IfOk result (IsPlanVerdict inst.now layout.now plan.now) }
    ensures memory { OnErr result (IsLayout inst.now layout.now) }
{
    if let Some(candidate) = first_missing(inst.kept(), layout) {
        return Ok(Verdict::Breach(Breach::Border { candidate }));
    }
    if let Some(breach) = first_bad_run(alloc, inst, plan.runs.as_slice())? {
        return Ok(Verdict::Breach(breach));
    }
    let classes = classes_of(alloc, inst, layout)?;
    match first_clash(alloc, inst, layout, &classes, plan)? {
        None => Ok(Verdict::Lawful),
        Some(clash) => Ok(Verdict::Breach(breach_of_clash(clash))),
    }
}

/// The first kept border that the layout lacks; logarithmic in the borders for each kept one.
fn first_missing(kept: &[CandidateId], layout: &Layout) -> Option<CandidateId>
    ensures { MatchOption result (HoldsOfEach (IsHeld layout.now) kept.now)
        (λ c. (place : ℕ) × BreaksFirstAt (IsHeld layout.now) kept.now place × (slice_get kept.now place ≡ Some c)) }
{
    for place in 0..kept.len() {
        if !layout.has(kept[place]) {
            return Some(kept[place]);
        }
    }
    None
}

/// The first breach of the first train whose run isn't one of it.
fn first_bad_run(
    alloc: Global,
    inst: &Instance,
    runs: &[TrainRun],
) -> Result<Option<Breach>, AllocError>
    requires each { length runs.now ≡ length inst.now.trains }
    requires short { All (λ r. length r.sweeps < 2000000000) runs.now }
    ensures { IfOk result (λ found. MatchOption found (HaveRunsBelow inst.now runs.now (length runs.now))
        (rule_of_runs inst.now runs.now).told) }
{
    for number in 0..inst.train_count() {
        let train = TrainId(number);
        if let Some(breach) = run_breach(alloc, inst, train, &runs[number as usize])? {
            return Ok(Some(breach));
        }
    }
    Ok(None)
}

fn breach_of_clash(clash: Clash) -> Breach
    ensures { result ≡ Breach.Apart clash.a clash.b clash.step clash.e clash.f }
{
    Breach::Apart {
        a: clash.a,
        b: clash.b,
        step: clash.step,
        e: clash.e,
        f: clash.f,
    }
}
