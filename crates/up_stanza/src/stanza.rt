//! A stanza of a job's file.

use crate::action::Action;
use crate::exit::Exit;
use crate::limit::Limit;
use crate::process::Process;
use crate::setting::Setting;
use crate::signal::Signal;
use up_expr::Condition;
use up_text::{Items, Text};

/// Where the output of a job's processes goes (init(5), `console`).
#[derive(Clone, Copy, PartialEq, Eq)]
pub enum Console {
    None,
    Log,
    Output,
}

/// A stanza (init(5)).
#[derive(Drop)]
pub enum Stanza {
    /// `description`, `author`, `version` or `usage`, and its text. It has no effect.
    About(Text),
    /// `emits EVENT..`. It has no effect.
    Emits(Items<Text>),
    /// `env KEY=VALUE` or `env KEY`
    Env(Setting),
    /// `export KEY..`
    Export(Items<Text>),
    /// `task`
    Task,
    /// `manual`
    Manual,
    /// `respawn`
    Respawn,
    /// `respawn limit COUNT INTERVAL`, or `respawn limit unlimited` as 0 and 0
    RespawnLimit(Limit),
    /// `normal exit STATUS-OR-SIGNAL..`
    NormalExit(Items<Exit>),
    /// `kill timeout SECONDS`
    KillTimeout(u32),
    /// `kill signal SIGNAL`
    KillSignal(Signal),
    /// `reload signal SIGNAL`.
    ReloadSignal(Signal),
    /// `instance NAME`
    Instance(Text),
    /// `console KIND`
    Console(Console),
    /// `chdir DIRECTORY`
    Chdir(Text),
    /// `exec` or `script`, on its own or after `pre-start`, `post-start`, `pre-stop` or `post-stop`
    Runs(Process, Action),
    /// `start on EXPRESSION`
    StartOn(Condition),
    /// `stop on EXPRESSION`
    StopOn(Condition),
}

/// The stanzas of a file, in order.
pub type Stanzas = Items<Stanza>;
