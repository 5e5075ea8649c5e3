//! A live event, and its outcome.
ghost use Rattle.std.specs.Prelude.{◌≡◌};
ghost use Rattle.up_event.specs.LiveEvents.{new_live, turn_of, outcome_of};

use up_model::{Event, EventId};

/// A live event, as contracts see it.
#[derive(Drop)]
pub struct LiveEvent {
    pub id: EventId,
    pub event: Event,
    /// Whether a turn took it up.
    pub handled: bool,
    /// The number of its holds.
    pub holds: u128,
    /// Whether one of its holds failed.
    pub spoilt: bool,
    /// The client that waits for it.
    pub waiter: Option<u64>,
}

/// What a turn does.
#[derive(Clone, Copy, Debug, PartialEq, Eq)]
pub enum TurnKind {
    /// It takes an event up.
    Handle,
    /// It finishes an event.
    Finish,
}

/// The outcome of an event that has finished.
#[derive(Drop)]
pub struct Finished {
    pub event: Event,
    /// Whether one of its holds failed.
    pub spoilt: bool,
    /// The client that waits for it.
    pub waiter: Option<u64>,
}

/// An event that nobody took up or held yet.
pub(crate) fn new_live(id: EventId, event: Event, waiter: Option<u64>) -> LiveEvent
    ensures { result ≡ new_live id event waiter }
{
    LiveEvent {
        id,
        event,
        handled: false,
        holds: 0,
        spoilt: false,
        waiter,
    }
}

pub(crate) fn turn_of(live: &LiveEvent) -> Option<(EventId, TurnKind)>
    ensures { result ≡ turn_of live.now }
{
    if !live.handled {
        Some((live.id, TurnKind::Handle))
    } else if live.holds == 0 {
        Some((live.id, TurnKind::Finish))
    } else {
        None
    }
}

pub(crate) fn outcome_of(live: LiveEvent) -> Finished
    ensures { result ≡ outcome_of live }
{
    Finished {
        event: live.event,
        spoilt: live.spoilt,
        waiter: live.waiter,
    }
}
