//! The outputs of an engine.
ghost use Rattle.std.specs.Prelude.{◌≡◌, IfOk};

use crate::event::Event;
use crate::request::Answer;
use crate::who::Who;
use std::alloc::{AllocError, Global};
use up_conf::Process;
use up_text::{Env, Items, Text, copy_texts};

/// The order to start a process.
#[derive(Drop)]
pub struct Order {
    pub who: Who,
    pub process: Process,
    /// The words to run; the first names the program.
    pub argv: Items<Text>,
    /// The directory to run in.
    pub dir: Text,
    /// Whether the process has no output.
    pub silent: bool,
    pub env: Env,
}

impl Order {
    pub fn copy(&self, alloc: Global) -> Result<Self, AllocError>
        ensures { IfOk result (λ order. order ≡ self.now) }
    {
        let who = self.who.copy()?;
        let argv = copy_texts(alloc, self.argv.as_slice())?;
        let dir = self.dir.copy()?;
        let env = self.env.copy()?;
        Ok(Order {
            who,
            process: self.process,
            argv,
            dir,
            silent: self.silent,
            env,
        })
    }
}

/// One output of a step.
#[derive(Drop)]
pub enum Output {
    /// A process is to be started.
    Spawn(Order),
    /// A process is to get a signal.
    Signal { who: Who, pid: u32, signal: u8 },
    /// An event that the engine made itself.
    Emitted(Event),
    /// A client's answer.
    Reply { id: u64, answer: Answer },
}

impl Output {
    pub fn copy(&self, alloc: Global) -> Result<Self, AllocError>
        ensures { IfOk result (λ output. output ≡ self.now) }
    {
        match self {
            Output::Spawn(order) => {
                let order = order.copy(alloc)?;
                Ok(Output::Spawn(order))
            }
            Output::Signal { who, pid, signal } => {
                let who = who.copy()?;
                Ok(Output::Signal {
                    who,
                    pid: *pid,
                    signal: *signal,
                })
            }
            Output::Emitted(event) => {
                let event = event.copy()?;
                Ok(Output::Emitted(event))
            }
            Output::Reply { id, answer } => {
                let answer = answer.copy()?;
                Ok(Output::Reply { id: *id, answer })
            }
        }
    }
}
