//! What entering a state does.
use up_conf::Process;

/// An event of an instance's life (starting(7), started(7), stopping(7), stopped(7)).
#[derive(Clone, Copy, Debug)]
pub enum JobEvent {
    Starting,
    Started,
    Stopping,
    Stopped,
}

/// What entering a state does (the Upstart Cookbook's table of states).
#[derive(Clone, Copy, Debug)]
pub struct EntryActions {
    /// The process that is ordered, if the job has it.
    pub orders: Option<Process>,
    /// The event that the instance emits.
    pub emits: Option<JobEvent>,
    /// Whether the holders are released as not failed.
    pub releases: bool,
    /// Whether the pending environment comes into force, and a failure is forgotten.
    pub refreshes: bool,
    /// Whether a living main process is sent the kill signal.
    pub kills: bool,
    /// Whether the instance is removed.
    pub removes: bool,
}
