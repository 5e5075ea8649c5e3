//! What entering a state does.
ghost use Rattle.std.specs.Prelude.{◌≡◌, Some};
ghost use Rattle.up_model.specs.declared.state.State.TheVariants as state;
ghost use Rattle.up_model.specs.Life as life;

use up_model::{EntryActions, JobEvent, Process, State};

fn is_pre_stop(from: State) -> bool
    ensures { result ≡ life.is_pre_stop from }
{
    matches!(from, State::PreStop)
}

// Entering a state without anything else.
const PLAIN: EntryActions = EntryActions {
    orders: None,
    emits: None,
    releases: false,
    refreshes: false,
    kills: false,
    removes: false,
};

fn orders(process: Process) -> EntryActions
    ensures { result ≡ record life.plain { orders = Some process } }
{
    EntryActions {
        orders: Some(process),
        ..PLAIN
    }
}

fn emits(event: JobEvent) -> EntryActions
    ensures { result ≡ record life.plain { emits = Some event } }
{
    EntryActions {
        emits: Some(event),
        ..PLAIN
    }
}

fn entering_running(from: State, task: bool) -> EntryActions
    ensures { result ≡ life.entering state.Running from task }
{
    let emits = if is_pre_stop(from) {
        None
    } else {
        Some(JobEvent::Started)
    };
    EntryActions {
        emits,
        releases: !task,
        ..PLAIN
    }
}

/// What entering a state from another does (the Upstart Cookbook's table of states).
pub fn entering(to: State, from: State, task: bool) -> EntryActions
    ensures { result ≡ life.entering to from task }
{
    match to {
        State::Waiting => EntryActions {
            releases: true,
            removes: true,
            ..emits(JobEvent::Stopped)
        },
        State::Starting => EntryActions {
            refreshes: true,
            ..emits(JobEvent::Starting)
        },
        State::PreStart => orders(Process::PreStart),
        State::Spawned => orders(Process::Main),
        State::PostStart => orders(Process::PostStart),
        State::Running => entering_running(from, task),
        State::PreStop => orders(Process::PreStop),
        State::Stopping => emits(JobEvent::Stopping),
        State::Killed => EntryActions {
            kills: true,
            ..PLAIN
        },
        State::PostStop => orders(Process::PostStop),
    }
}
