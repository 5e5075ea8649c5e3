//! How a process ended, and what that means for its instance.
use crate::process::How;
use up_conf::Process;

/// Why an instance failed: one of its processes, or too many respawns.
#[derive(Clone, Copy, Debug)]
pub enum Cause {
    Process(Process),
    Respawn,
}

/// A failure of an instance. `how` is how the process ended; `None` if it couldn't be started, and for too many respawns.
#[derive(Clone, Copy, Debug)]
pub struct Failure {
    pub cause: Cause,
    pub how: Option<How>,
}

/// The end of an ordered process: it couldn't be started, or it ran and ended.
#[derive(Clone, Copy, Debug)]
pub enum End {
    Refused,
    Ended(How),
}

/// What decides on the end of main, beside its instance's goal and state (init(5)).
#[derive(Clone, Copy)]
pub struct EndRules {
    /// Whether the job is a `task`.
    pub is_task: bool,
    /// Whether it has `respawn`.
    pub respawns: bool,
    /// Whether its `normal exit` lists the end.
    pub is_normal: bool,
    /// Whether its `respawn limit` allows one more.
    pub may_respawn: bool,
}

/// What the end of a process does to its instance.
#[derive(Clone, Copy, Debug)]
pub enum Verdict {
    /// It is only noted.
    Note,
    /// Main is respawned.
    Respawn,
    /// The goal becomes stop.
    Stop,
    /// The instance fails.
    Fail(Failure),
}
