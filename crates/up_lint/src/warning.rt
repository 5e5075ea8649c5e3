//! Warnings: their kinds, positions, and printed lines.
ghost use Rattle.std.specs.Prelude.{◌≡◌, ◌++◌, ◌∷◌, [], IfOk, OnOk, map};
ghost use Rattle.up_lint.specs.Warnings.{before_about, kind_in, kinds, line_of, name_of, place_text, same_kind, warning_of};

use crate::push::{push, push_decimal};
use crate::sheet::{Spot, path_of};
use std::alloc::{AllocError, Global};
use up_text::Text;

/// A kind of likely mistake.
#[derive(Clone, Copy, PartialEq, Eq)]
pub enum Kind {
    /// An expression waits for an event that nothing emits.
    UnknownEvent,
    /// An expression waits for an event of a job that doesn't exist.
    UnknownJob,
    /// No event and no command starts a job.
    NeverStarted,
    /// A job exports a variable that nothing sets.
    UnsetExport,
    /// A job is respawned without a limit.
    CrashLoop,
    /// A job waits for its own event.
    BlocksItself,
    /// A job waits for jobs that wait for one another.
    StartCircle,
    /// No event stops a job, once its `start on` has started it.
    NeverStopped,
}

/// A warning.
#[derive(Drop)]
pub struct Warning {
    /// The path of the file.
    pub path: Text,
    /// The line, counted from 1.
    pub line: u32,
    pub kind: Kind,
    /// The name of the event, the job or the variable concerned.
    pub about: Text,
}

pub fn name_of(kind: Kind) -> &'static str
    ensures { result.now ≡ name_of kind }
{
    match kind {
        Kind::UnknownEvent => "unknown-event",
        Kind::UnknownJob => "unknown-job",
        Kind::NeverStarted => "never-started",
        Kind::UnsetExport => "unset-export",
        Kind::CrashLoop => "crash-loop",
        Kind::BlocksItself => "blocks-itself",
        Kind::StartCircle => "start-circle",
        Kind::NeverStopped => "never-stopped",
    }
}

pub fn kind_named(name: &str) -> Option<Kind>
    ensures { result ≡ kind_in name.now kinds }
{
    match name {
        "unknown-event" => Some(Kind::UnknownEvent),
        "unknown-job" => Some(Kind::UnknownJob),
        "never-started" => Some(Kind::NeverStarted),
        "unset-export" => Some(Kind::UnsetExport),
        "crash-loop" => Some(Kind::CrashLoop),
        "blocks-itself" => Some(Kind::BlocksItself),
        "start-circle" => Some(Kind::StartCircle),
        "never-stopped" => Some(Kind::NeverStopped),
        _ => None,
    }
}

pub(crate) fn same_kind(kind: Kind, other: Kind) -> bool
    ensures { result ≡ same_kind kind other }
{
    name_of(kind) == name_of(other)
}

// The message up to the name concerned.
fn before_about(kind: Kind) -> &'static str
    ensures { result.now ≡ before_about kind }
{
    match kind {
        Kind::UnknownEvent => "nothing gives the event `",
        Kind::UnknownJob => "there is no job `",
        Kind::NeverStarted => "nothing starts the job `",
        Kind::UnsetExport => "nothing sets the variable `",
        Kind::CrashLoop => "nothing limits the respawns of the job `",
        Kind::BlocksItself => "the job waits for its own event `",
        Kind::StartCircle => "only jobs that wait for one another start the job `",
        Kind::NeverStopped => "no event that still comes stops the job `",
    }
}

pub(crate) fn warning_of(
    alloc: Global,
    job: &str,
    spot: Spot,
    kind: Kind,
    about: &str,
) -> Result<Warning, AllocError>
    ensures { IfOk result (λ warning. warning ≡ warning_of job.now spot kind about.now) }
{
    let path = path_of(alloc, job, spot.over)?;
    let about = Text::from_str(alloc, about)?;
    Ok(Warning {
        path,
        line: spot.line,
        kind,
        about,
    })
}

pub(crate) fn push_warning(
    warnings: &mut Vec<Warning>,
    job: &str,
    spot: Spot,
    kind: Kind,
    about: &str,
) -> Result<(), AllocError>
    ensures { OnOk result (warnings.new.items
        ≡ warnings.old.items ++ warning_of job.now spot kind about.now ∷ []) }
{
    let warning = warning_of(*warnings.allocator(), job, spot, kind, about)?;
    warnings.push(warning)?;
    Ok(())
}

/// Appends a warning for each of these names.
pub(crate) fn push_warnings(
    warnings: &mut Vec<Warning>,
    job: &str,
    spot: Spot,
    kind: Kind,
    names: &[Text],
) -> Result<(), AllocError>
    ensures { OnOk result (warnings.new.items
        ≡ warnings.old.items ++ map (warning_of job.now spot kind) names.now) }
{
    for name in names {
        push_warning(warnings, job, spot, kind, name.as_str())?;
    }
    Ok(())
}

// Appends the part of the line before the message: `PATH:LINE: warning: KIND: `.
#[tactic(auto, unfolding(crate::specs::Warnings::place_text))]
fn push_place(text: &mut Vec<u8>, warning: &Warning) -> Result<(), AllocError>
    ensures { OnOk result (text.new.items ≡ text.old.items ++ place_text warning.now) }
{
    push(text, warning.path.as_str())?;
    push(text, ":")?;
    push_decimal(text, u64::from(warning.line))?;
    push(text, ": warning: ")?;
    push(text, name_of(warning.kind))?;
    push(text, ": ")
}

#[tactic(auto, unfolding(crate::specs::Warnings::line_of))]
pub(crate) fn push_line(text: &mut Vec<u8>, warning: &Warning) -> Result<(), AllocError>
    ensures { OnOk result (text.new.items ≡ text.old.items ++ line_of warning.now) }
{
    push_place(text, warning)?;
    push(text, before_about(warning.kind))?;
    push(text, warning.about.as_str())?;
    push(text, "`\n")
}
