//! The state of an instance during a run, and its changes.
ghost use Rattle.std.specs.Prelude.{◌≡◌};
ghost use Rattle.up_model.specs.Predicates.{is_waiting};
ghost use Rattle.up_chart.specs.Rows.{start_began_after, life_began_after, with_events, came_again, is_up, new_row, next_row};

use crate::moment::Sign;
use up_model::State;

/// The state of an instance during a run; times are in milliseconds.
#[derive(Clone, Copy)]
pub struct Row {
    /// Its row in the picture, from 0.
    pub place: u64,
    /// The state that it entered last.
    pub state: State,
    /// The time at which it entered it.
    pub since: u64,
    /// Whether a sign of it has reported the events that started it.
    pub told: bool,
    /// Whether a sign of it has reported that a client started it.
    pub asked: bool,
    /// The time at which it began to start, while it is starting.
    pub start_began: Option<u64>,
    /// The time at which its life began.
    pub life_began: Option<u64>,
    /// The time at which the last life that events started began.
    pub events_came: Option<u64>,
}

/// The last two times at which an event occurred.
#[derive(Clone, Copy)]
pub struct Came {
    pub last: u64,
    pub before: Option<u64>,
}

/// The times after one more occurrence of an event.
pub(crate) fn came_again(time: u64, came: Option<Came>) -> Came
    ensures { result ≡ came_again time came }
{
    match came {
        Some(came) => Came {
            last: time,
            before: Some(came.last),
        },
        None => Came {
            last: time,
            before: None,
        },
    }
}

/// An instance without any sign yet.
pub(crate) fn new_row(place: u64, time: u64) -> Row
    ensures { result ≡ new_row place time }
{
    Row {
        place,
        state: State::Waiting,
        since: time,
        told: false,
        asked: false,
        start_began: None,
        life_began: None,
        events_came: None,
    }
}

/// Whether the main process runs in this state, and its end hasn't been requested.
pub(crate) fn is_up(state: State) -> bool
    ensures { result ≡ is_up state }
{
    matches!(state, State::Spawned | State::PostStart | State::Running)
}

fn start_began_after(state: State, time: u64, start_began: Option<u64>) -> Option<u64>
    ensures { result ≡ start_began_after state time start_began }
{
    match state {
        State::Starting => Some(time),
        State::PreStart | State::Spawned | State::PostStart => start_began,
        State::Waiting
        | State::Running
        | State::PreStop
        | State::Stopping
        | State::Killed
        | State::PostStop => None,
    }
}

fn life_began_after(state: State, time: u64, life_began: Option<u64>) -> Option<u64>
    ensures { result ≡ life_began_after state time life_began }
{
    match state {
        State::Starting => Some(time),
        State::Waiting
        | State::PreStart
        | State::Spawned
        | State::PostStart
        | State::Running
        | State::PreStop
        | State::Stopping
        | State::Killed
        | State::PostStop => life_began,
    }
}

// Records that the events that started the instance have been reported.
fn with_events(row: Row) -> Row
    ensures { result ≡ with_events row row.life_began }
{
    Row {
        place: row.place,
        state: row.state,
        since: row.since,
        told: true,
        asked: row.asked,
        start_began: row.start_began,
        life_began: row.life_began,
        events_came: row.life_began.or(row.events_came),
    }
}

/// The instance after one of its signs.
pub(crate) fn next_row(time: u64, row: Row, sign: &Sign) -> Row
    ensures { result ≡ next_row time row sign.now }
{
    match sign {
        Sign::Enters(state) => Row {
            place: row.place,
            state: *state,
            since: time,
            told: row.told && !state.is_waiting(),
            asked: row.asked && !state.is_waiting(),
            start_began: start_began_after(*state, time, row.start_began),
            life_began: life_began_after(*state, time, row.life_began),
            events_came: row.events_came,
        },
        Sign::StartedBy {
            events: _,
            source: _,
        } => { if row.told { row } else { with_events(row) } }
        Sign::ByClient => Row {
            place: row.place,
            state: row.state,
            since: row.since,
            told: row.told,
            asked: true,
            start_began: row.start_began,
            life_began: row.life_began,
            events_came: row.events_came,
        },
        Sign::Fails => row,
        Sign::Signal(_) => row,
        Sign::Comes => row,
    }
}
