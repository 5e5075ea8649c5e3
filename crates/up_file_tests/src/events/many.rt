//! Many events, in order.
use crate::events::queue::{event, turn};
use std::alloc::Global;
use up_event::Events;

const COUNT: u64 = 30_000;

fn push(alloc: Global, events: &mut Events, number: u64) -> bool {
    match event(alloc, "a") {
        Ok(event) => events.push(event, Some(number)).is_ok(),
        Err(_) => false,
    }
}

// Adds events of which each has its number as the client that waits.
fn push_numbered(alloc: Global, events: &mut Events) -> bool {
    for number in 0..COUNT {
        if !push(alloc, events, number) {
            return false;
        }
    }
    true
}

// Whether two turns take up an event and finish it, from the oldest to the newest.
fn finish_in_order(events: &mut Events) -> bool {
    for number in 0..COUNT {
        if turn(events).is_some() || turn(events) != Some(number) {
            return false;
        }
    }
    true
}

fn are_in_order(alloc: Global, events: &mut Events) -> bool {
    push_numbered(alloc, events) && finish_in_order(events) && events.len() == 0
}

#[test]
fn many_events_finish_in_order(rt: HostRuntime) {
    let mut events = Events::new(rt.alloc());
    let in_order = are_in_order(rt.alloc(), &mut events);
    drop(events);
    assert!(rt; in_order);
}
