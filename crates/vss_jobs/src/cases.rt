//! The jobs over made cases, which read no file.

ghost use Rattle.std.specs.Prelude.{IfOk};
ghost use Rattle.vss_stages.specs.Stages.{Ends};
ghost use Rattle.vss_words.specs.Commands.{IsBudget, IsSize};
ghost use Rattle.vss_jobs.specs.Held.{job_in};
ghost use Rattle.vss_jobs.specs.Jobs.{IsCaseJob, IsTrialJob, IsReadyJob};

use crate::documents::scene_of_texts;
use crate::job::Job;
use crate::refusal::Refusal;
use case_maker::make_case;
use std::alloc::Global;
use vss_lists::Items;
use vss_stages::Stop;

/// The job to print the documents of a made case.
pub fn making_case(alloc: Global, seed: u32, size: u32) -> Result<Job, Stop<Refusal>>
    requires { IsSize size }
    ensures job { Ends (IsCaseJob seed size) job_in result }
    ensures ready { IfOk result (λ job. IsReadyJob (job_in job)) }
{
    match make_case(alloc, seed, size) {
        Ok(made) => Ok(Job::Make {
            network: Items::from_vec(made.0),
            timetable: Items::from_vec(made.1),
        }),
        Err(_) => Err(Stop::Memory),
    }
}

/// The job to find the fewest borders for a made case.
pub fn trying_case(alloc: Global, seed: u32, size: u32, budget: u32) -> Result<Job, Stop<Refusal>>
    requires size { IsSize size }
    requires budget { IsBudget budget }
    ensures job { Ends (IsTrialJob seed size budget) job_in result }
    ensures ready { IfOk result (λ job. IsReadyJob (job_in job)) }
{
    let made = match make_case(alloc, seed, size) {
        Ok(made) => made,
        Err(_) => return Err(Stop::Memory),
    };
    match scene_of_texts(alloc, made.0.as_slice(), made.1.as_slice()) {
        Ok(scene) => Ok(Job::Trial { scene, budget }),
        Err(stop) => Err(stop),
    }
}
