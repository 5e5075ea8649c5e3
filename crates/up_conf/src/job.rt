//! The definition of a job by its files.
ghost use Rattle.std.specs.Prelude.{◌≡◌, IfOk};

use crate::copies::{copy_exits, copy_settings};
use crate::outline::outline_of;
use std::alloc::{AllocError, Global};
use up_expr::Condition;
use up_stanza::{Action, Exit, Limit, Setting, Signal};
use up_text::{Items, Name, Text, copy_texts};

/// A job (init(5)).
#[derive(Debug)]
pub struct JobDef {
    pub name: Name,
    /// Whether it counts as started only once its main process has ended.
    pub task: bool,
    /// Whether its main process is started again when it ends.
    pub respawn: bool,
    /// Whether its processes' output is dropped: `console none`.
    pub silent: bool,
    /// The name of an instance, before it is expanded. Empty if the job has only one instance.
    pub instance: Text,
    /// The folder in which its processes run (`chdir`), as it is written; `/` if it is empty.
    pub dir: Text,
    /// How often it is respawned.
    pub limit: Limit,
    /// The signal that ends its main process.
    pub kill_signal: Signal,
    /// The seconds from that signal until the main process is killed.
    pub kill_timeout: u32,
    /// The signal by which its main process is asked to read its configuration again; HUP without the stanza.
    pub reload_signal: Signal,
    /// The variables that it sets in its environment; the keys are distinct.
    pub env: Items<Setting>,
    /// The keys of the variables that its events carry; they are distinct.
    pub export: Items<Text>,
    /// The ends of its main process that aren't failures; they are distinct.
    pub normal: Items<Exit>,
    pub main: Option<Action>,
    pub pre_start: Option<Action>,
    pub post_start: Option<Action>,
    pub pre_stop: Option<Action>,
    pub post_stop: Option<Action>,
    /// The events that start the job.
    pub start_on: Option<Condition>,
    /// The events that stop an instance of it.
    pub stop_on: Option<Condition>,
}

// Written out, so that what drops a job is proved here once, and not in each crate above.
impl Drop for JobDef {
    fn drop(self) {
        let JobDef {
            name: _,
            task: _,
            respawn: _,
            silent: _,
            instance: _,
            dir: _,
            limit: _,
            kill_signal: _,
            kill_timeout: _,
            reload_signal: _,
            env: _,
            export: _,
            normal: _,
            main: _,
            pre_start: _,
            post_start: _,
            pre_stop: _,
            post_stop: _,
            start_on: _,
            stop_on: _,
        } = self;
    }
}

impl JobDef {
    pub fn copy(&self, alloc: Global) -> Result<Self, AllocError>
        ensures { IfOk result (λ job. job ≡ self.now) }
    {
        let name = self.name.copy()?;
        let env = copy_settings(alloc, self.env.as_slice())?;
        let export = copy_texts(alloc, self.export.as_slice())?;
        let normal = copy_exits(alloc, self.normal.as_slice())?;
        outline_of(self, normal).into_job(alloc, name, env, export)
    }
}
