//! The work of a daemon: an input is fed to the engine, and its orders are carried out.
ghost use Rattle.std.specs.Prelude.{◌≡◌, ◌≤◌, ◌<◌, ◌+◌, ◌∷◌, [], List, true, None, Err, alloc_error, reverse, IfOk, OnOk, MatchOption};
ghost use Rattle.up_daemon.specs.Answering.{IsAnswered};
ghost use Rattle.up_daemon.specs.Rounds.{ran, ran_not};
ghost use Rattle.up_daemon.specs.Working.{IsStarted, IsSent};
ghost use Rattle.up_engine.specs.Stands.{IsDown, left_of};
ghost use Rattle.up_model.specs.Chronicle.{Chronicle};
ghost use Rattle.up_model.specs.Configuration.{Configuration};
ghost use Rattle.up_model.specs.Left.{is_calm, spawns};
ghost use Rattle.up_model.specs.declared.output.Output.{Output};

use crate::clients::Clients;
use crate::copies::push_copies;
use crate::log::Log;
use std::alloc::{AllocError, Global};
use up_edge::Host;
use up_engine::{Engine, StepError};
use up_model::{Input, Order, Output, Who};

/// The parts of a daemon at work: its engine, its clients, and the log of the round so far.
#[derive(Drop)]
pub(crate) struct Work {
    pub(crate) alloc: Global,
    pub(crate) engine: Engine,
    pub(crate) clients: Clients,
    // the number of the next request that enters
    pub(crate) next: u64,
    pub(crate) log: Log,
}

// The outputs for an input: none if the input isn't expected. An engine that is down is refused as one that is out of memory.
fn outputs_of(alloc: Global, engine: &mut Engine, given: Input) -> Result<Vec<Output>, AllocError>
    ensures answers { IfOk result (λ outputs. (config : Configuration) (c : Chronicle)
        → IsAnswered engine.old engine.new config c given outputs.items) }
    ensures left { IfOk result (λ outputs. is_calm given ≡ true
        → left_of engine.new + spawns outputs.items ≤ left_of engine.old) }
    ensures down { IsDown engine.old → result ≡ Err alloc_error }
{
    match engine.step(given) {
        Ok(outputs) => Ok(outputs),
        Err(StepError::NotExpected) => Ok(Vec::new(alloc)),
        Err(StepError::Down) | Err(StepError::Memory) => Err(AllocError),
    }
}

// The input that answers an order: spawned with this process number, or refused without one.
fn answer_of(order: Order, pid: Option<u32>) -> Input
    ensures { MatchOption pid (result ≡ ran_not order) (λ pid. result ≡ ran order pid) }
{
    let Order {
        who,
        process,
        argv,
        dir,
        silent: _,
        env,
    } = order;
    drop(argv);
    drop(dir);
    drop(env);
    match pid {
        Some(pid) => Input::Spawned { who, process, pid },
        None => Input::Refused { who, process },
    }
}

// Starts the process once; the input reports the outcome.
fn start<H: Host>(host: &mut H, order: Order) -> Input
    ensures started { IsStarted order result (H.calls host.old) (H.calls host.new) }
    ensures calm { is_calm result ≡ true }
    ensures lives { H.living host.new ≤ H.living host.old + 1 }
{
    match host.spawn(&order) {
        Ok(pid) => answer_of(order, Some(pid)),
        Err(_) => answer_of(order, None),
    }
}

// Sends the signal once; a failure is ignored.
fn send<H: Host>(host: &mut H, who: &Who, pid: u32, signal: u8)
    ensures sent { IsSent who.now pid signal (H.calls host.old) (H.calls host.new) }
    ensures lives { H.living host.new ≡ H.living host.old }
{
    match host.signal(who, pid, signal) {
        Ok(()) => {}
        Err(_) => {}
    }
}

impl Work {
    ghost use Rattle.up_daemon.specs.Ending.{starts_left, ends_left, waiting_of, with_start};
    ghost use Rattle.up_daemon.specs.Working.{IsFed, Carries, Takes, numbers_in};

    // Feeds one input, and puts its outputs on the stack of orders.
    fn feed(&mut self, given: Input, stack: &mut Vec<Output>) -> Result<(), AllocError>
        ensures fed { OnOk result (IsFed given self.old self.new stack.old.items stack.new.items) }
        ensures left { OnOk result (is_calm given ≡ true
            → starts_left self.new (reverse stack.new.items) ≤ starts_left self.old
            (reverse stack.old.items)) }
    {
        let told = given.copy(self.alloc)?;
        let outputs = outputs_of(self.alloc, &mut self.engine, given)?;
        push_copies(self.alloc, &outputs, stack)?;
        self.log.add(told, outputs)?;
        Ok(())
    }

    // Starts a process, and feeds the outcome.
    fn carry_start<H: Host>(
        &mut self,
        host: &mut H,
        order: Order,
        stack: &mut Vec<Output>,
    ) -> Result<(), AllocError>
        ensures carries { OnOk result (Carries self.old (H.calls host.old)
            (Output.Spawn order ∷ reverse stack.old.items) self.new (H.calls host.new)
            (reverse stack.new.items)) }
        ensures starts { OnOk result (starts_left self.new (reverse stack.new.items)
            < starts_left self.old (Output.Spawn order ∷ reverse stack.old.items)) }
        ensures ends { OnOk result (ends_left (H.living host.new) self.new (reverse stack.new.items)
            ≤ ends_left (H.living host.old) self.old (Output.Spawn order ∷ reverse stack.old.items)) }
        ensures waits { OnOk result (waiting_of self.new ≡ waiting_of self.old) }
        ensures numbers { OnOk result (numbers_in self.new ≡ numbers_in self.old) }
    {
        let given = start(host, order);
        self.feed(given, stack)?;
        Ok(())
    }

    // Carries out one order, except a start, which is returned.
    fn carry_one<H: Host>(
        &mut self,
        host: &mut H,
        order: Output,
    ) -> Result<Option<Order>, AllocError>
        ensures carries { IfOk result (λ start. (orders : List Output)
            → Carries self.old (H.calls host.old) (order ∷ orders) self.new (H.calls host.new)
            (with_start start orders)) }
        ensures starts { IfOk result (λ start. (orders : List Output)
            → starts_left self.new (with_start start orders) ≡ starts_left self.old (order ∷ orders)) }
        ensures lives { OnOk result (H.living host.new ≡ H.living host.old) }
        ensures waits { OnOk result (waiting_of self.new ≡ waiting_of self.old) }
        ensures numbers { OnOk result (numbers_in self.new ≡ numbers_in self.old) }
    {
        match order {
            Output::Spawn(order) => Ok(Some(order)),
            Output::Signal { who, pid, signal } => {
                send(host, &who, pid, signal);
                Ok(None)
            }
            Output::Emitted(event) => {
                drop(event);
                Ok(None)
            }
            Output::Reply { id, answer } => {
                self.clients.answer(id, &answer)?;
                Ok(None)
            }
        }
    }

    // Carries out orders, the last of the stack first, up to a start, which is returned, or until none is left.
    fn carry_to_start<H: Host>(
        &mut self,
        host: &mut H,
        stack: &mut Vec<Output>,
    ) -> Result<Option<Order>, AllocError>
        ensures carries { IfOk result (λ start. Carries self.old (H.calls host.old)
            (reverse stack.old.items) self.new (H.calls host.new)
            (with_start start (reverse stack.new.items))) }
        ensures starts { IfOk result (λ start. starts_left self.new
            (with_start start (reverse stack.new.items))
            ≡ starts_left self.old (reverse stack.old.items)) }
        ensures lives { OnOk result (H.living host.new ≡ H.living host.old) }
        ensures waits { OnOk result (waiting_of self.new ≡ waiting_of self.old) }
        ensures numbers { OnOk result (numbers_in self.new ≡ numbers_in self.old) }
        ensures whole { IfOk result (λ start. start ≡ None → stack.new.items ≡ []) }
    {
        while let Some(order) = stack.pop() {
            if let Some(start) = self.carry_one(host, order)? {
                return Ok(Some(start));
            }
        }
        Ok(None)
    }

    // Carries out orders until none is left, the last first.
    fn carry<H: Host>(&mut self, host: &mut H, mut stack: Vec<Output>) -> Result<(), AllocError>
        ensures carries { OnOk result (Carries self.old (H.calls host.old) (reverse stack.items)
            self.new (H.calls host.new) []) }
        ensures ends { OnOk result (ends_left (H.living host.new) self.new []
            ≤ ends_left (H.living host.old) self.old (reverse stack.items)) }
        ensures waits { OnOk result (waiting_of self.new ≡ waiting_of self.old) }
        ensures numbers { OnOk result (numbers_in self.new ≡ numbers_in self.old) }
    {
        while let Some(order) = self.carry_to_start(host, &mut stack)? {
            self.carry_start(host, order, &mut stack)?;
        }
        Ok(())
    }

    /// Feeds one input, and carries out its outputs.
    pub(crate) fn take<H: Host>(&mut self, host: &mut H, given: Input) -> Result<(), AllocError>
        ensures takes { OnOk result (Takes self.old (H.calls host.old) given self.new (H.calls host.new)) }
        ensures ends { OnOk result (is_calm given ≡ true
            → ends_left (H.living host.new) self.new [] ≤ ends_left (H.living host.old) self.old []) }
        ensures waits { OnOk result (waiting_of self.new ≡ waiting_of self.old) }
        ensures numbers { OnOk result (numbers_in self.new ≡ numbers_in self.old) }
    {
        let mut stack: Vec<Output> = Vec::new(self.alloc);
        self.feed(given, &mut stack)?;
        self.carry(host, stack)?;
        Ok(())
    }
}
