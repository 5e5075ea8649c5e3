//! What is kept of a step until it ends.
ghost use Rattle.std.specs.Prelude.{◌≡◌, ◌++◌, ◌∷◌, [], ℕ, false, Some, IfOk, OnOk};
ghost use Rattle.up_book.specs.Keeps.{HoldsOlder};
ghost use Rattle.up_ledger.specs.Requesting.{after_left, after_made, moved_on, on_left, same_key};
ghost use Rattle.up_book.specs.Sending.{listed};
ghost use Rattle.up_ledger.specs.declared.step.ActedOn.TheVariants.{Exists};
ghost use Rattle.up_model.specs.declared.output.Output.TheVariants as output;
ghost use Rattle.up_ledger.specs.Asking.{answered_of, asked_in, due_of, waiter_of};
ghost use Rattle.up_model.specs.Chronicle.{Chronicle};
ghost use Rattle.up_model.specs.Chronicle as entry;
ghost use Rattle.up_model.specs.Configuration.{Configuration};

use std::alloc::{AllocError, Global};
use up_job::InstanceKey;
use up_model::{Command, Event, Input, Output};
use up_text::Text;

/// The request of a step: the number of its answer, its command, whether its client waits, and whether it was answered in this step. A
/// load is one too, which only the load itself answers.
#[derive(Clone, Copy, Debug)]
pub struct Asked {
    pub id: u64,
    pub command: Command,
    pub waits: bool,
    pub answered: bool,
}

/// The instance that a request acted on: one that exists, or the status text of one that was removed in this step.
#[derive(Drop)]
pub enum ActedOn {
    Exists(InstanceKey),
    Gone(Text),
}

/// The request of a step, the instance that it acted on, and the outputs of the step, in order.
#[derive(Drop)]
pub struct Step {
    pub asked: Option<Asked>,
    pub on: Option<ActedOn>,
    pub outputs: Vec<Output>,
}

fn asked_in(input: &Input) -> Option<Asked>
    ensures { result ≡ asked_in (Some input.now) false }
{
    match input {
        Input::Request { id, request } => Some(Asked {
            id: *id,
            command: request.command,
            waits: request.wait,
            answered: false,
        }),
        Input::Load { id, .. } => Some(Asked {
            id: *id,
            command: Command::ReloadConfiguration,
            waits: false,
            answered: true,
        }),
        Input::Emit(_)
        | Input::Spawned { .. }
        | Input::Refused { .. }
        | Input::Ended { .. }
        | Input::Clock(_)
        | Input::Turn => None,
    }
}

fn is_same(key: InstanceKey, other: InstanceKey) -> bool
    ensures { result ≡ same_key key other }
{
    key.job == other.job && key.at == other.at
}

// The key of an instance after the one of another key has left.
#[tactic(auto, using(crate::proofs::Moved::left_so, crate::proofs::Moved::left_elsewhere))]
fn after_left(on: InstanceKey, left: InstanceKey) -> InstanceKey
    ensures { result ≡ after_left left.job left.at on }
{
    if on.job == left.job && left.at < on.at {
        return InstanceKey {
            job: on.job,
            at: on.at - 1,
        };
    }
    on
}

// The key of an instance after one came to another key. No list is so long that this fails.
#[tactic(auto, using(crate::proofs::Moved::made_so, crate::proofs::Moved::made_elsewhere))]
fn after_made(on: InstanceKey, made: InstanceKey) -> Result<InstanceKey, AllocError>
    ensures { IfOk result (λ key. key ≡ after_made made.job made.at on) }
{
    if on.job == made.job && made.at <= on.at {
        return match on.at.checked_add(1) {
            Some(at) => Ok(InstanceKey { job: on.job, at }),
            None => Err(AllocError),
        };
    }
    Ok(on)
}

// What a request that acted on this instance refers to once the one of a key has left.
fn once_left(on: InstanceKey, left: InstanceKey, told: Text) -> ActedOn
    ensures { Some result ≡ on_left left told (Some (Exists on)) }
{
    if is_same(on, left) {
        return ActedOn::Gone(told);
    }
    drop(told);
    ActedOn::Exists(after_left(on, left))
}

/// Adds an output to those of the step, if there is one.
pub(crate) fn put(outputs: &mut Vec<Output>, output: Option<Output>) -> Result<(), AllocError>
    ensures { OnOk result (outputs.new.items ≡ outputs.old.items ++ listed output) }
{
    match output {
        Some(output) => outputs.push(output)?,
        None => {}
    }
    Ok(())
}

/// Adds the output for an event.
pub(crate) fn push_emitted(outputs: &mut Vec<Output>, event: &Event) -> Result<(), AllocError>
    ensures { OnOk result (outputs.new.items ≡ outputs.old.items ++ output.Emitted event.now ∷ []) }
{
    let event = event.copy()?;
    outputs.push(Output::Emitted(event))?;
    Ok(())
}

impl Step {
    ghost use Rattle.up_ledger.specs.Steps.{IsStep};

    /// A step begins with an input: it has no outputs, and has acted on no instance. Takes no memory.
    pub(crate) fn new(alloc: Global, given: &Input) -> Self
        ensures { (config : Configuration) (c : Chronicle) → ((i : ℕ) → HoldsOlder i c)
            → IsStep result config (entry.Given given.now ∷ c) }
    {
        Step {
            asked: asked_in(given),
            on: None,
            outputs: Vec::new(alloc),
        }
    }

    /// No step has begun.
    pub(crate) fn none(alloc: Global) -> Self {
        Step {
            asked: None,
            on: None,
            outputs: Vec::new(alloc),
        }
    }

    /// The number of the client of this step's request, if it waits.
    pub(crate) fn waiter(&self) -> Option<u64>
        ensures { result ≡ waiter_of self.now.asked }
    {
        match self.asked {
            Some(asked) if asked.waits => Some(asked.id),
            _ => None,
        }
    }

    /// The number of the client that is to be answered at the end of this step: one that doesn't wait, and wasn't answered.
    pub(crate) fn due(&self) -> Option<u64>
        ensures { result ≡ due_of self.now.asked }
    {
        match self.asked {
            Some(asked) if !asked.waits && !asked.answered => Some(asked.id),
            _ => None,
        }
    }

    /// Notes that the client of this step's request was answered.
    pub(crate) fn answer(&mut self)
        ensures { self.new ≡ record self.old { asked = answered_of self.old.asked } }
    {
        if let Some(asked) = &mut self.asked {
            asked.answered = !asked.waits;
        }
    }

    /// The request of the step acts on an instance. Takes no memory.
    pub(crate) fn act_on(&mut self, key: InstanceKey)
        ensures { self.new ≡ record self.old { on = Some (Exists key) } }
    {
        self.on = Some(ActedOn::Exists(key));
    }

    /// An instance leaves; `told` is its status text. Takes no memory.
    pub(crate) fn leave(&mut self, key: InstanceKey, told: Text)
        ensures { self.new ≡ record self.old { on = on_left key told self.old.on } }
    {
        match self.on {
            Some(ActedOn::Exists(on)) => self.on = Some(once_left(on, key, told)),
            _ => drop(told),
        }
    }

    /// An instance came to a key.
    pub(crate) fn make(&mut self, key: InstanceKey) -> Result<(), AllocError>
        ensures { OnOk result (self.new
            ≡ record self.old { on = moved_on (after_made key.job key.at) self.old.on }) }
    {
        match self.on {
            Some(ActedOn::Exists(on)) => self.on = Some(ActedOn::Exists(after_made(on, key)?)),
            _ => {}
        }
        Ok(())
    }
}
