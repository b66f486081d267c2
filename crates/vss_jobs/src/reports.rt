//! The jobs over both documents and a report.

ghost use Rattle.std.specs.Prelude.{◌≤◌, ◌^◌, [], ◌∷◌, ◌++◌, IfOk, length};
ghost use Rattle.vss_io.specs.Reading.{Keeps};
ghost use Rattle.vss_stages.specs.Stages.{Ends};
ghost use Rattle.vss_stages.specs.Inputs.{ThenFile};
ghost use Rattle.vss_stages.specs.declared.input.Input.TheVariants.{Report as report_file};
ghost use Rattle.vss_jobs.specs.Asked.{names_of_documents};
ghost use Rattle.vss_jobs.specs.Held.{job_in};
ghost use Rattle.vss_jobs.specs.Settings.{setting_of};
ghost use Rattle.vss_jobs.specs.Readings.{ReadsDesign, ReadsRefutation};
ghost use Rattle.vss_jobs.specs.Jobs.{IsSettingOf, IsReadyJob};

use crate::documents::read_documents;
use crate::job::Job;
use crate::refusal::Refusal;
use crate::stops::stop_of_report;
use cell_net::Scene;
use std::alloc::Global;
use vss_io::Shelf;
use vss_report::{read_design, read_refutation};
use vss_stages::{Input, Stop, read_input};
use vss_words::DocumentNames;

/// Reads the documents and the report whose plan is to be judged.
pub fn judging<H: Shelf>(
    alloc: Global,
    names: &DocumentNames,
    report: &str,
    shelf: &mut H,
) -> Result<Job, Stop<Refusal>>
    ensures kept { Keeps (H.shown shelf.old) (H.shown shelf.new) (names_of_documents names.now ++ report.now ∷ []) }
    ensures job { Ends (ThenFile (λ from to. IsSettingOf from to names.now) (H.shown shelf.old) (H.shown shelf.new) report_file report.now ReadsDesign) job_in result }
    ensures ready { IfOk result (λ job. IsReadyJob (job_in job)) }
{
    let scene = match read_documents(alloc, names, shelf) {
        Ok(scene) => scene,
        Err(stop) => return Err(stop),
    };
    match read_input(shelf, Input::Report, report) {
        Ok(bytes) => design_of(alloc, scene, bytes.as_slice()),
        Err(stop) => Err(stop),
    }
}

/// Reads the documents and the report whose refutation is to be checked.
pub fn checking<H: Shelf>(
    alloc: Global,
    names: &DocumentNames,
    report: &str,
    shelf: &mut H,
) -> Result<Job, Stop<Refusal>>
    ensures kept { Keeps (H.shown shelf.old) (H.shown shelf.new) (names_of_documents names.now ++ report.now ∷ []) }
    ensures job { Ends (ThenFile (λ from to. IsSettingOf from to names.now) (H.shown shelf.old) (H.shown shelf.new) report_file report.now ReadsRefutation) job_in result }
    ensures ready { IfOk result (λ job. IsReadyJob (job_in job)) }
{
    let scene = match read_documents(alloc, names, shelf) {
        Ok(scene) => scene,
        Err(stop) => return Err(stop),
    };
    match read_input(shelf, Input::Report, report) {
        Ok(bytes) => refutation_of(alloc, scene, bytes.as_slice()),
        Err(stop) => Err(stop),
    }
}

/// The job to judge the design of a report for the scene.
fn design_of(alloc: Global, scene: Scene, bytes: &[u8]) -> Result<Job, Stop<Refusal>>
    requires { length bytes.now ≤ 2 ^ 30 }
    ensures job { Ends (ReadsDesign (setting_of scene) bytes.now) job_in result }
    ensures ready { IfOk result (λ job. IsReadyJob (job_in job)) }
{
    match read_design(alloc, bytes, &scene) {
        Ok(design) => Ok(Job::Judge {
            scene,
            layout: design.0,
            plan: design.1,
        }),
        Err(fault) => Err(stop_of_report(fault)),
    }
}

/// The job to check the refutation of a report over the scene.
fn refutation_of(alloc: Global, scene: Scene, bytes: &[u8]) -> Result<Job, Stop<Refusal>>
    requires { length bytes.now ≤ 2 ^ 30 }
    ensures job { Ends (ReadsRefutation (setting_of scene) bytes.now) job_in result }
    ensures ready { IfOk result (λ job. IsReadyJob (job_in job)) }
{
    match read_refutation(alloc, bytes) {
        Ok(found) => Ok(Job::Check {
            scene,
            refutation: found.0,
            line: found.1,
        }),
        Err(fault) => Err(stop_of_report(fault)),
    }
}
