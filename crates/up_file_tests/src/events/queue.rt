//! What becomes of a few events.
use std::alloc::Global;
use std::test::Fail;
use up_event::{Events, Finished, TurnKind};
use up_model::{Event, EventId};
use up_text::{Env, Name, TextFault};

/// An event of this name, without variables.
pub(crate) fn event(alloc: Global, name: &str) -> Result<Event, TextFault> {
    Ok(Event {
        name: Name::new(alloc, name)?,
        vars: Env::new(alloc),
    })
}

// What is done with events, of which each is named by its place among those that were pushed, or what is seen of them.
enum Act {
    // One of this name comes, and a client waits for it.
    Pushes(&'static str, Option<u64>),
    // A turn took one up.
    Handles(usize),
    Holds(usize),
    // A hold is released that failed or didn't.
    Releases(usize, bool),
    // One finishes: its name, whether it is spoilt, and the client that waits for it.
    Finishes(usize, &'static str, bool, Option<u64>),
    // A turn is taken, and finishes an event for which this client waits, if any.
    Turns(Option<u64>),
    // This turn is due.
    IsDue(usize, TurnKind),
    NoneIsDue,
    // There are so many.
    Count(usize),
    // One is live and has this name, and one with the next id isn't.
    IsFound(usize, &'static str),
    // Two have the same id.
    AreSame(usize, usize),
}

struct Case {
    name: &'static str,
    acts: &'static [Act],
}

const CASES: &'static [Case] = &[
    Case {
        name: "no_event_has_no_turn",
        acts: &[Act::Count(0), Act::NoneIsDue],
    },
    Case {
        name: "a_live_event_is_found",
        acts: &[Act::Pushes("a", None), Act::IsFound(0, "a")],
    },
    Case {
        name: "a_held_event_lets_a_younger_one_pass",
        acts: &[
            Act::Pushes("a", None),
            Act::Pushes("b", None),
            Act::Handles(0),
            Act::Holds(0),
            Act::Holds(0),
            Act::Releases(0, false),
            Act::IsDue(1, TurnKind::Handle),
            Act::Releases(0, false),
            Act::IsDue(0, TurnKind::Finish),
        ],
    },
    Case {
        name: "events_that_are_held_have_no_turn",
        acts: &[
            Act::Pushes("a", None),
            Act::Holds(0),
            Act::IsDue(0, TurnKind::Handle),
            Act::Handles(0),
            Act::NoneIsDue,
        ],
    },
    Case {
        name: "one_in_the_middle_finishes_alone",
        acts: &[
            Act::Pushes("a", Some(1)),
            Act::Handles(0),
            Act::Holds(0),
            Act::Pushes("b", Some(2)),
            Act::Pushes("c", Some(3)),
            Act::Turns(None),
            Act::Turns(Some(2)),
            Act::IsDue(2, TurnKind::Handle),
            Act::Count(2),
        ],
    },
    Case {
        name: "an_id_that_is_used_again_names_the_new_event",
        acts: &[
            Act::Pushes("a", Some(1)),
            Act::Handles(0),
            Act::Finishes(0, "a", false, Some(1)),
            Act::Pushes("b", None),
            Act::AreSame(0, 1),
            Act::IsFound(1, "b"),
            Act::IsDue(1, TurnKind::Handle),
        ],
    },
    Case {
        name: "a_failed_hold_spoils",
        acts: &[
            Act::Pushes("a", Some(7)),
            Act::Handles(0),
            Act::Holds(0),
            Act::Holds(0),
            Act::Releases(0, true),
            Act::Releases(0, false),
            Act::Finishes(0, "a", true, Some(7)),
        ],
    },
];

fn push_event(
    events: &mut Events,
    ids: &mut Vec<EventId>,
    event: Event,
    waiter: Option<u64>,
) -> bool {
    match events.push(event, waiter) {
        Ok(id) => ids.push(id).is_ok(),
        Err(_) => false,
    }
}

fn push(
    alloc: Global,
    events: &mut Events,
    ids: &mut Vec<EventId>,
    name: &str,
    waiter: Option<u64>,
) -> bool {
    match event(alloc, name) {
        Ok(event) => push_event(events, ids, event, waiter),
        Err(_) => false,
    }
}

fn handle(events: &mut Events, id: EventId) -> bool {
    let there = events.find(id).is_some();
    if there {
        events.handled(id);
    }
    there
}

fn hold(events: &mut Events, id: EventId) -> bool {
    match events.find(id) {
        Some(live) if live.holds < 9 => {}
        _ => return false,
    }
    events.hold(id);
    true
}

fn release(events: &mut Events, id: EventId, failed: bool) -> bool {
    match events.find(id) {
        Some(live) if live.holds > 0 => {}
        _ => return false,
    }
    events.release(id, failed);
    true
}

// Whether this is left of an event.
fn leaves(finished: Finished, name: &str, spoilt: bool, waiter: Option<u64>) -> bool {
    let is_left = finished.event.name.as_str() == name
        && finished.spoilt == spoilt
        && finished.waiter == waiter;
    drop(finished);
    is_left
}

fn finish(events: &mut Events, id: EventId, name: &str, spoilt: bool, waiter: Option<u64>) -> bool {
    match events.find(id) {
        Some(live) if live.handled && live.holds == 0 => {}
        _ => return false,
    }
    leaves(events.finish(id), name, spoilt, waiter)
}

/// Takes a turn, and returns the client that waited for the event, if one finished.
pub(crate) fn turn(events: &mut Events) -> Option<u64> {
    match events.next_turn() {
        Some((id, TurnKind::Handle)) => {
            events.handled(id);
            None
        }
        Some((id, TurnKind::Finish)) => waiter_of(events.finish(id)),
        None => None,
    }
}

fn waiter_of(finished: Finished) -> Option<u64> {
    let waiter = finished.waiter;
    drop(finished);
    waiter
}

fn is_due(events: &Events, id: EventId, kind: TurnKind) -> bool {
    match events.next_turn() {
        Some((found, its)) => found == id && its == kind,
        None => false,
    }
}

fn is_found(events: &Events, id: EventId, name: &str) -> bool {
    let next = EventId {
        key: id.key.wrapping_add(1),
    };
    match events.find(id) {
        Some(live) => {
            live.event.name.as_str() == name
                && events.get(id).name.as_str() == name
                && events.find(next).is_none()
        }
        None => false,
    }
}

// The id of the event that was pushed so many events after the first one.
fn id_of(ids: &[EventId], place: usize) -> EventId {
    match ids.get(place) {
        Some(id) => *id,
        None => EventId { key: usize::MAX },
    }
}

fn are_same(ids: &[EventId], first: usize, second: usize) -> bool {
    first < ids.len() && second < ids.len() && ids[first] == ids[second]
}

// Whether an act succeeds, or what is seen is so.
fn succeeds(events: &mut Events, ids: &[EventId], act: &Act) -> bool {
    match act {
        Act::Handles(at) => handle(events, id_of(ids, *at)),
        Act::Holds(at) => hold(events, id_of(ids, *at)),
        Act::Releases(at, failed) => release(events, id_of(ids, *at), *failed),
        Act::Finishes(at, name, spoilt, waiter) => {
            finish(events, id_of(ids, *at), *name, *spoilt, *waiter)
        }
        Act::Turns(waiter) => turn(events) == *waiter,
        other => is_so(events, ids, other),
    }
}

fn is_so(events: &Events, ids: &[EventId], act: &Act) -> bool {
    match act {
        Act::IsDue(at, kind) => is_due(events, id_of(ids, *at), *kind),
        Act::NoneIsDue => events.next_turn().is_none(),
        Act::Count(count) => events.len() == *count,
        Act::IsFound(at, name) => is_found(events, id_of(ids, *at), *name),
        Act::AreSame(first, second) => are_same(ids, *first, *second),
        _ => false,
    }
}

fn takes(alloc: Global, events: &mut Events, ids: &mut Vec<EventId>, act: &Act) -> bool {
    match act {
        Act::Pushes(name, waiter) => push(alloc, events, ids, *name, *waiter),
        other => succeeds(events, ids.as_slice(), other),
    }
}

// The place of the first act that goes otherwise.
fn first_other(
    alloc: Global,
    events: &mut Events,
    ids: &mut Vec<EventId>,
    acts: &[Act],
) -> Option<usize> {
    for (place, act) in acts.iter().enumerate() {
        if !takes(alloc, events, ids, act) {
            return Some(place);
        }
    }
    None
}

fn check_case(alloc: Global, case: &Case) -> Result<(), Fail> {
    let mut events = Events::new(alloc);
    let mut ids: Vec<EventId> = Vec::new(alloc);
    let other = first_other(alloc, &mut events, &mut ids, case.acts);
    drop(events);
    drop(ids);
    match other {
        Some(place) => Err(Fail::from((case.name, place))),
        None => Ok(()),
    }
}

fn check(alloc: Global, cases: &[Case]) -> Result<(), Fail> {
    for case in cases {
        check_case(alloc, case)?;
    }
    Ok(())
}

#[test]
fn a_few_events(rt: HostRuntime) -> Result<(), Fail> {
    check(rt.alloc(), CASES)
}
