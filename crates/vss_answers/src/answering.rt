//! The answer to a job.

ghost use Rattle.std.specs.Prelude.{◌≡◌};
ghost use Rattle.vss_stages.specs.Stages.{Ends};
ghost use Rattle.vss_jobs.specs.Held.{job_in};
ghost use Rattle.vss_jobs.specs.Jobs.{IsReadyJob};
ghost use Rattle.vss_jobs.specs.Settings.{setting_of};
ghost use Rattle.vss_jobs.specs.Readings.{judging};
ghost use Rattle.vss_answers.specs.Answers.{IsRightAnswer, judged_answer};

use crate::answer::Answer;
use crate::checking::checked;
use crate::searching::{found, tried};
use cell_net::{Labels, Layout, Plan, Scene};
use plan_checker::{Verdict, judge};
use solver_face::Solver;
use std::alloc::Global;
use vss_jobs::{Job, Refusal};
use vss_stages::Stop;

/// The answer to the job. A search is made by the solver `S`.
pub fn answer_to<S: Solver>(alloc: Global, job: Job) -> Result<Answer, Stop<Refusal>>
    requires { IsReadyJob (job_in job) }
    ensures { Ends (IsRightAnswer (job_in job)) (λ answer. answer) result }
{
    match job {
        Job::Judge {
            scene,
            layout,
            plan,
        } => judged(alloc, scene, &layout, &plan),
        Job::Check {
            scene,
            refutation,
            line,
        } => checked(alloc, &scene, &refutation, line),
        Job::Search {
            scene,
            search,
            budget,
        } => found::<S>(alloc, scene, search, budget),
        Job::Make { network, timetable } => Ok(Answer::Made { network, timetable }),
        Job::Trial { scene, budget } => tried::<S>(alloc, scene, budget),
    }
}

/// Whether the plan is lawful for the layout, or else its first breach.
fn judged(
    alloc: Global,
    scene: Scene,
    layout: &Layout,
    plan: &Plan,
) -> Result<Answer, Stop<Refusal>>
    requires { IsReadyJob (judging (setting_of scene) layout.now plan.now) }
    ensures { Ends (IsRightAnswer (judging (setting_of scene) layout.now plan.now)) (λ answer. answer) result }
{
    let Scene { inst, labels } = scene;
    match judge(alloc, &inst, layout, plan) {
        Ok(verdict) => Ok(answer_of(verdict, layout, labels)),
        Err(_) => Err(Stop::Memory),
    }
}

/// The answer that tells the verdict.
fn answer_of(verdict: Verdict, layout: &Layout, labels: Labels) -> Answer
    ensures { result ≡ judged_answer labels layout.now verdict }
{
    let borders = layout.borders().len();
    match verdict {
        Verdict::Lawful => Answer::Lawful { borders },
        Verdict::Breach(breach) => Answer::Breach { breach, labels },
    }
}
