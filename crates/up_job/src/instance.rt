//! An instance, and what is kept of its life.
ghost use Rattle.std.specs.Prelude.{◌≡◌, IfOk};
ghost use Rattle.up_job.specs.InstanceLists.{new_instance};

use crate::child::{Children, idle};
use crate::holder::Holder;
use crate::moments::Moments;
use std::alloc::{AllocError, Global};
use up_image::JobFile;
use up_marks::Trigger;
use up_model::{EventId, Failure, Goal, State};
use up_text::{Env, Items, Text};

/// An instance of a job.
pub struct Instance {
    pub name: Text,
    /// The job file from which it was made.
    pub file: JobFile,
    pub goal: Goal,
    pub state: State,
    /// Whether a restart was taken since the state was entered.
    pub restarted: bool,
    /// The environment of the last start, unless it is in force.
    pub pending: Option<Env>,
    /// The environment in force, if starting was entered.
    pub env: Option<Env>,
    /// What the last stop adds, if the goal is stop.
    pub stop_env: Option<Env>,
    /// The first failure since starting was entered.
    pub failure: Option<Failure>,
    pub holders: Items<Holder>,
    /// Its own event for which it waits.
    pub blocker: Option<EventId>,
    pub children: Children,
    /// What the clock read when main was sent its signal, until the timer has sent KILL.
    pub kill_moment: Option<u64>,
    /// The last respawns, as many as the limit counts.
    pub moments: Moments,
    /// What its `stop on` remembers.
    pub stop_on: Trigger,
}

// Written out, so that what drops an instance is proved here once, and not in each crate above.
impl Drop for Instance {
    fn drop(self) {
        let Instance {
            name: _,
            file: _,
            goal: _,
            state: _,
            restarted: _,
            pending: _,
            env: _,
            stop_env: _,
            failure: _,
            holders: _,
            blocker: _,
            children: _,
            kill_moment: _,
            moments: _,
            stop_on: _,
        } = self;
    }
}

pub(crate) fn new_instance(
    alloc: Global,
    name: &str,
    file: JobFile,
    stop_on: Trigger,
) -> Result<Instance, AllocError>
    ensures { IfOk result (λ instance. instance ≡ new_instance name.now file stop_on) }
{
    let name = Text::from_str(alloc, name)?;
    let moments = Moments::new(alloc, file.job().limit)?;
    Ok(Instance {
        name,
        file,
        goal: Goal::Stop,
        state: State::Waiting,
        restarted: false,
        pending: None,
        env: None,
        stop_env: None,
        failure: None,
        holders: Items::new(Vec::new(alloc)),
        blocker: None,
        children: idle(),
        kill_moment: None,
        moments,
        stop_on,
    })
}
