//! The answers of searches.

ghost use Rattle.std.specs.Prelude.{◌≡◌};
ghost use Rattle.cell_net.specs.Rules.{IsInstance};
ghost use Rattle.task_driver.specs.TaskEnds.{IsSearchEnd};
ghost use Rattle.vss_stages.specs.Stages.{Ends};
ghost use Rattle.vss_words.specs.Commands.{IsBudget};
ghost use Rattle.vss_jobs.specs.Settings.{setting_of};
ghost use Rattle.vss_jobs.specs.Readings.{searching, trying};
ghost use Rattle.vss_answers.specs.Answers.{IsRightAnswer, question_of};

use crate::answer::Answer;
use cell_net::{Instance, Scene};
use clause_encoder::EncodeRefusal;
use solver_face::Solver;
use std::alloc::Global;
use std::marker::Brand;
use std::sync::ledger::{Blank, Ledger};
use task_driver::{generate, optimise, verify};
use vss_jobs::{Refusal, Search, stop_of_size};
use vss_report::Outcome;
use vss_stages::Stop;
use vss_steps::Steps;

/// How the search of the scene ends.
pub fn found<S: Solver>(
    alloc: Global,
    scene: Scene,
    search: Search,
    budget: u32,
) -> Result<Answer, Stop<Refusal>>
    requires { IsBudget budget }
    ensures { Ends (IsRightAnswer (searching (setting_of scene) search budget)) (λ answer. answer) result }
{
    let Scene { inst, labels } = scene;
    match search_end::<S, Brand>(alloc, &inst, search, budget, Blank::new(1)) {
        Ok(outcome) => Ok(Answer::Found { outcome, labels }),
        Err(why) => Err(stop_of_size(why)),
    }
}

/// How the search for the fewest borders of a made scene ends.
pub fn tried<S: Solver>(alloc: Global, scene: Scene, budget: u32) -> Result<Answer, Stop<Refusal>>
    requires { IsBudget budget }
    ensures { Ends (IsRightAnswer (trying (setting_of scene) budget)) (λ answer. answer) result }
{
    let Scene { inst, labels: _ } = scene;
    match search_end::<S, Brand>(alloc, &inst, Search::Optimise, budget, Blank::new(1)) {
        Ok(outcome) => Ok(Answer::Tried { outcome, inst }),
        Err(why) => Err(stop_of_size(why)),
    }
}

/// How a search ends. Steps are counted for nobody.
fn search_end<S: Solver, L: Ledger>(
    alloc: Global,
    inst: &Instance,
    search: Search,
    budget: u32,
    blank: Blank,
) -> Result<Outcome, EncodeRefusal>
    requires budget { IsBudget budget }
    requires name { blank.name ≡ L.name }
    requires parts { blank.parts ≡ L.parts }
    requires one { blank.parts ≡ 1 }
    ensures instance { IsInstance inst.now }
    ensures ends { IsSearchEnd inst.now (question_of inst.now search) budget result }
{
    // for the proof alone: the parts of an instance keep its rules
    let _parts = inst.parts();
    let mut steps = Steps::<L>::new(blank);
    match search {
        Search::Verify => verify::<S, L>(alloc, inst, budget, &mut steps),
        Search::Generate { most: None } => {
            generate::<S, L>(alloc, inst, inst.candidate_count(), budget, &mut steps)
        }
        Search::Generate { most: Some(most) } => {
            generate::<S, L>(alloc, inst, most, budget, &mut steps)
        }
        Search::Optimise => optimise::<S, L>(alloc, inst, budget, &mut steps),
    }
}
