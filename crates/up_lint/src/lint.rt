//! The warnings of a folder.
ghost use Rattle.std.specs.Prelude.{◌≡◌, ◌++◌, IfOk, OnOk};
ghost use Rattle.std.specs.List.{flat_map, list_any};
ghost use Rattle.up_lint.specs.Events.{scene_of};
ghost use Rattle.up_lint.specs.Lint.{job_warnings, line_unless, lint_by, lint_of, ordered};
ghost use Rattle.up_lint.specs.Warnings.{same_kind};

use crate::gather::world_of;
use crate::job::push_job;
use crate::order::sort;
use crate::warning::{Kind, Warning, push_line, same_kind};
use crate::world::{World, declared_in};
use std::alloc::{AllocError, Global};
use up_conf::{File, JobDef};
use up_text::Text;

fn push_jobs(
    warnings: &mut Vec<Warning>,
    world: &World<'_>,
    files: &[File],
    jobs: &[JobDef],
) -> Result<(), AllocError>
    ensures { OnOk result (warnings.new.items
        ≡ warnings.old.items ++ flat_map (job_warnings (scene_of world.now) files.now) jobs.now) }
{
    for job in jobs {
        push_job(warnings, world, files, job)?;
    }
    Ok(())
}

// The warnings of all jobs, sorted.
fn warnings_of(
    alloc: Global,
    world: &World<'_>,
    files: &[File],
    jobs: &[JobDef],
) -> Result<Vec<Warning>, AllocError>
    ensures { IfOk result (λ warnings. warnings.items
        ≡ ordered (flat_map (job_warnings (scene_of world.now) files.now) jobs.now)) }
{
    let mut warnings: Vec<Warning> = Vec::new(alloc);
    push_jobs(&mut warnings, world, files, jobs)?;
    sort(&mut warnings)?;
    Ok(warnings)
}

fn has_kind(kinds: &[Kind], kind: Kind) -> bool
    ensures { result ≡ list_any (same_kind kind) kinds.now }
{
    kinds.iter().any(|other| same_kind(kind, *other))
}

// Appends the line of a warning, unless its kind is left out.
fn push_unless(text: &mut Vec<u8>, left_out: &[Kind], warning: &Warning) -> Result<(), AllocError>
    ensures { OnOk result (text.new.items ≡ text.old.items ++ line_unless left_out.now warning.now) }
{
    if has_kind(left_out, warning.kind) {
        return Ok(());
    }
    push_line(text, warning)
}

fn push_lines(text: &mut Vec<u8>, left_out: &[Kind], warnings: &[Warning]) -> Result<(), AllocError>
    ensures { OnOk result (text.new.items ≡ text.old.items ++ flat_map (line_unless left_out.now) warnings.now) }
{
    for warning in warnings {
        push_unless(text, left_out, warning)?;
    }
    Ok(())
}

// Appends the lines of the warnings, `declared` being the events that jobs declare by `emits`.
#[tactic(auto, unfolding(crate::specs::Lint::lint_by))]
fn push_by<'a>(
    text: &mut Vec<u8>,
    files: &[File],
    jobs: &'a [JobDef],
    left_out: &[Kind],
    outside: &'a [Text],
    declared: &'a [Text],
) -> Result<(), AllocError>
    ensures { OnOk result (text.new.items
        ≡ text.old.items ++ lint_by files.now jobs.now left_out.now outside.now declared.now) }
{
    let alloc = *text.allocator();
    let world = world_of(alloc, jobs, outside, declared)?;
    let warnings = warnings_of(alloc, &world, files, jobs)?;
    drop(world);
    push_lines(text, left_out, warnings.as_slice())
}

/// Appends a line for each warning of these jobs, which the files of a folder define, except those of the kinds that are left out.
/// `outside` contains the names of the events that come from outside.
#[tactic(auto, unfolding(crate::specs::Lint::lint_of))]
pub fn push_lint(
    text: &mut Vec<u8>,
    files: &[File],
    jobs: &[JobDef],
    left_out: &[Kind],
    outside: &[Text],
) -> Result<(), AllocError>
    ensures { OnOk result (text.new.items
        ≡ text.old.items ++ lint_of files.now jobs.now left_out.now outside.now) }
{
    let declared = declared_in(*text.allocator(), files, jobs)?;
    push_by(text, files, jobs, left_out, outside, declared.as_slice())
}
