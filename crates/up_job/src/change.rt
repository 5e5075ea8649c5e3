//! The changes of an instance, one at a time.
ghost use Rattle.std.specs.Prelude.{◌≡◌};
ghost use Rattle.up_job.specs.Changes.{begun, changed, entered, is_starting};

use crate::child::{answer, lose, order};
use crate::holder::Holder;
use crate::instance::Instance;
use up_model::{EventId, Failure, Goal, Process, State};
use up_text::{Env, Items};

/// A change of an instance.
#[derive(Drop)]
pub enum Change {
    Starts {
        environment: Env,
        holders: Items<Holder>,
    },
    Stops {
        environment: Option<Env>,
        holders: Items<Holder>,
    },
    /// The goal becomes stop by itself, and what is held stays.
    Ends,
    Restarts(Items<Holder>),
    /// Nothing is held any more.
    Releases(Items<Holder>),
    Fails(Failure),
    Enters(State),
    Orders(Process),
    /// An order was answered: the process has this number, or it was refused.
    Answers(Process, Option<u32>),
    /// A process has ended.
    Loses(Process),
    /// Main was sent a signal: on entering killed, at this reading of the clock, or else by the timer.
    Signals(Option<u64>),
    /// It waits for its own event, or no longer waits.
    Waits(Option<EventId>),
    /// Main is started again, at this reading of the clock.
    Respawns(u64),
}

fn is_starting(state: State) -> bool
    ensures { result ≡ is_starting state }
{
    matches!(state, State::Starting)
}

// The pending environment comes into force, and the failure is forgotten.
fn begin(instance: &mut Instance)
    ensures { instance.new ≡ begun instance.old }
{
    instance.failure = None;
    if let Some(env) = instance.pending.take() {
        instance.env = Some(env);
    }
}

fn enter(instance: &mut Instance, state: State)
    ensures { instance.new ≡ entered state instance.old }
{
    if is_starting(state) {
        begin(instance);
    }
    instance.state = state;
    instance.restarted = false;
    instance.kill_moment = None;
}

/// Applies a change to an instance.
pub(crate) fn apply(instance: &mut Instance, change: Change)
    ensures { instance.new ≡ changed change instance.old }
{
    match change {
        Change::Starts {
            environment,
            holders,
        } => {
            instance.goal = Goal::Start;
            instance.pending = Some(environment);
            instance.stop_env = None;
            instance.holders = holders;
        }
        Change::Stops {
            environment,
            holders,
        } => {
            instance.goal = Goal::Stop;
            instance.stop_env = environment;
            instance.holders = holders;
        }
        Change::Ends => {
            instance.goal = Goal::Stop;
            instance.stop_env = None;
        }
        Change::Restarts(holders) => {
            instance.restarted = true;
            instance.holders = holders;
        }
        Change::Releases(none) => instance.holders = none,
        Change::Fails(failure) => instance.failure = Some(failure),
        Change::Enters(state) => enter(instance, state),
        Change::Orders(process) => order(&mut instance.children, process),
        Change::Answers(process, pid) => answer(&mut instance.children, process, pid),
        Change::Loses(process) => lose(&mut instance.children, process),
        Change::Signals(moment) => instance.kill_moment = moment,
        Change::Waits(event) => instance.blocker = event,
        Change::Respawns(moment) => instance.moments.note(moment),
    }
}
