//! The parts of a job in which two jobs may differ.
ghost use Rattle.std.specs.Prelude.{◌≡◌};
ghost use Rattle.up_tools.specs.Parts.{name_of, parts, same_part};

use crate::changes::same::{
    same_exits, same_flag, same_limit, same_process, same_settings, same_texts,
};
use crate::changes::tree::same_condition;
use up_conf::JobDef;

/// A part of a job, set by a stanza: a field of `JobDef`, in its order there.
#[derive(Clone, Copy, Debug, PartialEq, Eq)]
pub enum Part {
    Task,
    Respawn,
    Console,
    Instance,
    Chdir,
    RespawnLimit,
    KillSignal,
    KillTimeout,
    ReloadSignal,
    Env,
    Export,
    NormalExit,
    Exec,
    PreStart,
    PostStart,
    PreStop,
    PostStop,
    StartOn,
    StopOn,
}

/// All parts, in order.
pub(crate) const PARTS: [Part; 19] = [
    Part::Task,
    Part::Respawn,
    Part::Console,
    Part::Instance,
    Part::Chdir,
    Part::RespawnLimit,
    Part::KillSignal,
    Part::KillTimeout,
    Part::ReloadSignal,
    Part::Env,
    Part::Export,
    Part::NormalExit,
    Part::Exec,
    Part::PreStart,
    Part::PostStart,
    Part::PreStop,
    Part::PostStop,
    Part::StartOn,
    Part::StopOn,
];

/// The stanza that sets the part. That of the main process is `exec`, also if it is written as a script.
pub(crate) fn name_of(part: Part) -> &'static str
    ensures { result.now ≡ name_of part }
{
    match part {
        Part::Task => "task",
        Part::Respawn => "respawn",
        Part::Console => "console",
        Part::Instance => "instance",
        Part::Chdir => "chdir",
        Part::RespawnLimit => "respawn limit",
        Part::KillSignal => "kill signal",
        Part::KillTimeout => "kill timeout",
        Part::ReloadSignal => "reload signal",
        Part::Env => "env",
        Part::Export => "export",
        Part::NormalExit => "normal exit",
        Part::Exec => "exec",
        Part::PreStart => "pre-start",
        Part::PostStart => "post-start",
        Part::PreStop => "pre-stop",
        Part::PostStop => "post-stop",
        Part::StartOn => "start on",
        Part::StopOn => "stop on",
    }
}

/// Whether two jobs are equal in this part.
pub(crate) fn same_part(part: Part, job: &JobDef, other: &JobDef) -> bool
    ensures { result ≡ same_part part job.now other.now }
{
    match part {
        Part::Task => same_flag(job.task, other.task),
        Part::Respawn => same_flag(job.respawn, other.respawn),
        Part::Console => same_flag(job.silent, other.silent),
        Part::Instance => job.instance.as_str() == other.instance.as_str(),
        Part::Chdir => job.dir.as_str() == other.dir.as_str(),
        Part::RespawnLimit => same_limit(&job.limit, &other.limit),
        Part::KillSignal => job.kill_signal.number() == other.kill_signal.number(),
        Part::KillTimeout => job.kill_timeout == other.kill_timeout,
        Part::ReloadSignal => job.reload_signal.number() == other.reload_signal.number(),
        Part::Env => same_settings(job.env.as_slice(), other.env.as_slice()),
        Part::Export => same_texts(job.export.as_slice(), other.export.as_slice()),
        Part::NormalExit => same_exits(job.normal.as_slice(), other.normal.as_slice()),
        Part::Exec => same_process(&job.main, &other.main),
        Part::PreStart => same_process(&job.pre_start, &other.pre_start),
        Part::PostStart => same_process(&job.post_start, &other.post_start),
        Part::PreStop => same_process(&job.pre_stop, &other.pre_stop),
        Part::PostStop => same_process(&job.post_stop, &other.post_stop),
        Part::StartOn => same_condition(&job.start_on, &other.start_on),
        Part::StopOn => same_condition(&job.stop_on, &other.stop_on),
    }
}
