//! The answer of the checker of logs.

ghost use Rattle.std.specs.Prelude.{◌≡◌, ◌≤◌, ◌^◌, length};
ghost use Rattle.vss_stages.specs.Stages.{Ends};
ghost use Rattle.vss_jobs.specs.Jobs.{IsReadyJob};
ghost use Rattle.vss_jobs.specs.Settings.{setting_of};
ghost use Rattle.vss_jobs.specs.Readings.{checking};
ghost use Rattle.vss_answers.specs.Answers.{IsRightAnswer, checked_answer};

use crate::answer::Answer;
use cell_net::Scene;
use derivation_log::Refutation;
use log_checker::LogVerdict;
use std::alloc::Global;
use task_driver::check;
use vss_jobs::{Refusal, stop_of_size};
use vss_stages::Stop;

/// Whether the log refutes the formula of its bound, or else its first step that isn't accepted.
pub fn checked(
    alloc: Global,
    scene: &Scene,
    refutation: &Refutation,
    line: u32,
) -> Result<Answer, Stop<Refusal>>
    requires { IsReadyJob (checking (setting_of scene.now) refutation.now line) }
    ensures { Ends (IsRightAnswer (checking (setting_of scene.now) refutation.now line)) (λ answer. answer) result }
{
    // for the proof alone: the parts of an instance keep its rules
    let _parts = scene.inst.parts();
    match check(alloc, &scene.inst, refutation) {
        Ok(verdict) => Ok(answer_of(verdict, refutation, line)),
        Err(why) => Err(stop_of_size(why)),
    }
}

/// The answer that tells the verdict; the log begins behind the line.
fn answer_of(verdict: LogVerdict, refutation: &Refutation, line: u32) -> Answer
    requires line { line ≤ 2 ^ 30 }
    requires steps { length refutation.now.log.steps ≤ 2 ^ 30 }
    ensures { result ≡ checked_answer refutation.now line verdict }
{
    let first = u64::from(line) + 1;
    match verdict {
        LogVerdict::Refutes => Answer::Proved {
            bound: refutation.bound,
        },
        LogVerdict::Bad { index, fault } => Answer::NotProved {
            line: first + u64::from(index),
            fault,
        },
        LogVerdict::NoEmptyClause => Answer::NoEmptyClause {
            line: first + refutation.log.steps.len() as u64,
        },
    }
}
