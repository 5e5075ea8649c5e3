//! The warnings of a job.
ghost use Rattle.std.specs.Prelude.{◌≡◌, ◌++◌, OnOk};
ghost use Rattle.std.specs.List.{flat_map};
ghost use Rattle.up_lint.specs.Events.{scene_of};
ghost use Rattle.up_lint.specs.Lint.{circle_warnings, event_warnings, export_warning, export_warnings, is_crash_loop, is_never_started, job_warnings, life_warnings, respawn_warnings, sheet_warnings, start_warnings, stop_warnings};

use crate::exports::is_unset;
use crate::head::Head;
use crate::names::Names;
use crate::question::{Question, Side, push_condition};
use crate::sheet::{Spot, is_manual, sheet_of, spot_of};
use crate::stop::is_never_stopped;
use crate::warning::{Kind, Warning, push_warning};
use crate::world::World;
use std::alloc::AllocError;
use up_conf::{File, JobDef};
use up_text::Text;

// Appends the warnings about the events of both expressions.
fn push_events(
    warnings: &mut Vec<Warning>,
    world: &World<'_>,
    question: Question,
    job: &JobDef,
    sheet: &[Head],
) -> Result<(), AllocError>
    ensures { OnOk result (warnings.new.items
        ≡ warnings.old.items ++ event_warnings (scene_of world.now) question job.now sheet.now) }
{
    let name = job.name.as_str();
    push_condition(
        warnings,
        world,
        name,
        sheet,
        question,
        Side::Start,
        &job.start_on,
    )?;
    push_condition(
        warnings,
        world,
        name,
        sheet,
        question,
        Side::Stop,
        &job.stop_on,
    )
}

fn is_never_started(commanded: &Names<'_>, job: &JobDef, sheet: &[Head]) -> bool
    ensures { result ≡ is_never_started commanded.now job.now sheet.now }
{
    job.start_on.is_none() && !is_manual(sheet) && !commanded.has(job.name.as_str().as_bytes())
}

fn push_start(
    warnings: &mut Vec<Warning>,
    commanded: &Names<'_>,
    job: &JobDef,
    sheet: &[Head],
) -> Result<(), AllocError>
    ensures { OnOk result (warnings.new.items ≡ warnings.old.items ++ start_warnings commanded.now job.now sheet.now) }
{
    if !is_never_started(commanded, job, sheet) {
        return Ok(());
    }
    let name = job.name.as_str();
    let spot = Spot {
        over: false,
        line: 1,
    };
    push_warning(warnings, name, spot, Kind::NeverStarted, name)
}

fn push_export(
    warnings: &mut Vec<Warning>,
    set: &Names<'_>,
    job: &str,
    sheet: &[Head],
    key: &str,
) -> Result<(), AllocError>
    ensures { OnOk result (warnings.new.items
        ≡ warnings.old.items ++ export_warning set.now job.now sheet.now key.now) }
{
    if !is_unset(set, key) {
        return Ok(());
    }
    let spot = spot_of(sheet, "export", key);
    push_warning(warnings, job, spot, Kind::UnsetExport, key)
}

fn push_keys(
    warnings: &mut Vec<Warning>,
    set: &Names<'_>,
    job: &str,
    sheet: &[Head],
    keys: &[Text],
) -> Result<(), AllocError>
    ensures { OnOk result (warnings.new.items
        ≡ warnings.old.items ++ flat_map (export_warning set.now job.now sheet.now) keys.now) }
{
    for key in keys {
        push_export(warnings, set, job, sheet, key.as_str())?;
    }
    Ok(())
}

fn push_exports(
    warnings: &mut Vec<Warning>,
    set: &Names<'_>,
    job: &JobDef,
    sheet: &[Head],
) -> Result<(), AllocError>
    ensures { OnOk result (warnings.new.items ≡ warnings.old.items ++ export_warnings set.now job.now sheet.now) }
{
    let name = job.name.as_str();
    push_keys(warnings, set, name, sheet, job.export.as_slice())
}

fn is_crash_loop(job: &JobDef) -> bool
    ensures { result ≡ is_crash_loop job.now }
{
    job.respawn && (job.limit.count == 0 || job.limit.interval == 0)
}

fn push_respawn(warnings: &mut Vec<Warning>, job: &JobDef, sheet: &[Head]) -> Result<(), AllocError>
    ensures { OnOk result (warnings.new.items ≡ warnings.old.items ++ respawn_warnings job.now sheet.now) }
{
    if !is_crash_loop(job) {
        return Ok(());
    }
    let name = job.name.as_str();
    let spot = spot_of(sheet, "respawn", "limit");
    push_warning(warnings, name, spot, Kind::CrashLoop, name)
}

fn push_circle(
    warnings: &mut Vec<Warning>,
    started: &Names<'_>,
    job: &JobDef,
    sheet: &[Head],
) -> Result<(), AllocError>
    ensures { OnOk result (warnings.new.items ≡ warnings.old.items ++ circle_warnings started.now job.now sheet.now) }
{
    let name = job.name.as_str();
    if started.has(name.as_bytes()) {
        return Ok(());
    }
    let spot = spot_of(sheet, "start", "on");
    push_warning(warnings, name, spot, Kind::StartCircle, name)
}

fn push_stop(
    warnings: &mut Vec<Warning>,
    world: &World<'_>,
    job: &JobDef,
    sheet: &[Head],
) -> Result<(), AllocError>
    ensures { OnOk result (warnings.new.items
        ≡ warnings.old.items ++ stop_warnings (scene_of world.now) job.now sheet.now) }
{
    if !is_never_stopped(world, job) {
        return Ok(());
    }
    let name = job.name.as_str();
    let spot = spot_of(sheet, "stop", "on");
    push_warning(warnings, name, spot, Kind::NeverStopped, name)
}

fn push_life(
    warnings: &mut Vec<Warning>,
    world: &World<'_>,
    job: &JobDef,
    sheet: &[Head],
) -> Result<(), AllocError>
    ensures { OnOk result (warnings.new.items
        ≡ warnings.old.items ++ life_warnings (scene_of world.now) job.now sheet.now) }
{
    push_circle(warnings, &world.started, job, sheet)?;
    push_stop(warnings, world, job, sheet)
}

// Appends the warnings of a job, given its stanzas.
fn push_sheet(
    warnings: &mut Vec<Warning>,
    world: &World<'_>,
    job: &JobDef,
    sheet: &[Head],
) -> Result<(), AllocError>
    ensures { OnOk result (warnings.new.items
        ≡ warnings.old.items ++ sheet_warnings (scene_of world.now) job.now sheet.now) }
{
    push_events(warnings, world, Question::UnknownEvent, job, sheet)?;
    push_events(warnings, world, Question::UnknownJob, job, sheet)?;
    push_start(warnings, &world.commanded, job, sheet)?;
    push_exports(warnings, &world.keys, job, sheet)?;
    push_respawn(warnings, job, sheet)?;
    push_events(warnings, world, Question::BlocksItself, job, sheet)?;
    push_life(warnings, world, job, sheet)
}

pub(crate) fn push_job(
    warnings: &mut Vec<Warning>,
    world: &World<'_>,
    files: &[File],
    job: &JobDef,
) -> Result<(), AllocError>
    ensures { OnOk result (warnings.new.items
        ≡ warnings.old.items ++ job_warnings (scene_of world.now) files.now job.now) }
{
    let sheet = sheet_of(*warnings.allocator(), files, job.name.as_str())?;
    push_sheet(warnings, world, job, sheet.as_slice())
}
