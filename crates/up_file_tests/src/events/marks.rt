//! Events that are offered to the leaves of one job's `start on`.
use crate::events::files::files_of;
use crate::events::queue::event;
use std::alloc::{AllocError, Global};
use std::slice::from_ref;
use std::test::Fail;
use up_expr::Condition;
use up_image::JobFile;
use up_marks::{Index, Marks, Offer};
use up_model::{Event, EventId};
use up_text::Items;

// A job's stanza, and what becomes of its expression if events of these names, numbered from 1, are offered to it.
struct Case {
    name: &'static str,
    stanza: &'static str,
    events: &'static [&'static str],
    // To how many leaves the last one is new, and whether the expression is true then.
    last: (usize, bool),
    // The events by which it is true, and then those that it gives up, by the order in which they were offered.
    taken: &'static [usize],
    cleared: &'static [usize],
}

const CASES: &'static [Case] = &[
    Case {
        name: "and_of_same_event",
        stanza: "start on A and A",
        events: &["A"],
        last: (2, true),
        taken: &[1, 1],
        cleared: &[1, 1],
    },
    Case {
        name: "and_keeps_first",
        stanza: "start on A and B",
        events: &["A", "A", "Z", "B"],
        last: (1, true),
        taken: &[1, 4],
        cleared: &[1, 4],
    },
    Case {
        name: "or_after_half_an_and",
        stanza: "start on (A and D) or B",
        events: &["A", "B"],
        last: (1, true),
        taken: &[2],
        cleared: &[1, 2],
    },
    Case {
        name: "half_an_and_does_not_hold",
        stanza: "start on (A or C) and B",
        events: &["C", "A"],
        last: (1, false),
        taken: &[],
        cleared: &[2, 1],
    },
];

// Offers an event to the leaves that name it. Its variables, of which it has none, are the environment too.
fn offer(
    alloc: Global,
    marks: &mut Marks,
    index: &Index,
    condition: &Condition,
    id: EventId,
    event: &Event,
) -> Option<Offer> {
    if !marks.fits(condition) {
        return None;
    }
    let places = index.leaves(&event.name, 0, true);
    match marks.offer(alloc, condition, places, id, event, &event.vars) {
        Ok(offer) => Some(offer),
        Err(_) => None,
    }
}

fn offer_named(
    alloc: Global,
    marks: &mut Marks,
    index: &Index,
    condition: &Condition,
    id: EventId,
    name: &str,
) -> Option<Offer> {
    match event(alloc, name) {
        Ok(event) => {
            let offer = offer(alloc, marks, index, condition, id, &event);
            drop(event);
            offer
        }
        Err(_) => None,
    }
}

// Offers each event; what the last one changed, if it could be offered.
fn offer_each(
    alloc: Global,
    marks: &mut Marks,
    index: &Index,
    condition: &Condition,
    names: &[&str],
) -> Option<Offer> {
    let mut last = None;
    let mut key = 0usize;
    for name in names {
        key = key.wrapping_add(1);
        last = offer_named(alloc, marks, index, condition, EventId { key }, *name);
    }
    last
}

fn are_numbered(ids: &[EventId], numbers: &[usize]) -> bool {
    if ids.len() != numbers.len() {
        return false;
    }
    for at in 0..numbers.len() {
        if ids[at].key != numbers[at] {
            return false;
        }
    }
    true
}

fn have_numbers(ids: Result<Items<EventId>, AllocError>, numbers: &[usize]) -> bool {
    match ids {
        Ok(ids) => {
            let are_numbered = are_numbered(ids.as_slice(), numbers);
            drop(ids);
            are_numbered
        }
        Err(_) => false,
    }
}

// Whether these events are taken, and these given up after that.
fn is_cleared(alloc: Global, marks: &mut Marks, condition: &Condition, case: &Case) -> bool {
    marks.fits(condition)
        && have_numbers(marks.taken(alloc, condition), case.taken)
        && have_numbers(marks.clear(alloc), case.cleared)
        && !marks.holds()
}

fn is_last(last: Option<Offer>, kept: usize, holds: bool) -> bool {
    match last {
        Some(offer) => offer.kept == kept && offer.holds == holds,
        None => false,
    }
}

fn leaves(
    alloc: Global,
    marks: &mut Marks,
    index: &Index,
    condition: &Condition,
    case: &Case,
) -> bool {
    let last = offer_each(alloc, marks, index, condition, case.events);
    is_last(last, case.last.0, case.last.1) && is_cleared(alloc, marks, condition, case)
}

fn try_condition(alloc: Global, index: &Index, condition: &Condition, case: &Case) -> bool {
    match Marks::new(alloc, condition) {
        Ok(mut marks) => {
            let leaves = leaves(alloc, &mut marks, index, condition, case);
            drop(marks);
            leaves
        }
        Err(_) => false,
    }
}

fn try_index(alloc: Global, files: &[JobFile], condition: &Condition, case: &Case) -> bool {
    match Index::of(alloc, files) {
        Ok(index) => {
            let tried = try_condition(alloc, &index, condition, case);
            drop(index);
            tried
        }
        Err(_) => false,
    }
}

fn try_files(alloc: Global, files: &[JobFile], case: &Case) -> bool {
    let [file] = files else {
        return false;
    };
    match &file.job().start_on {
        Some(condition) => try_index(alloc, files, condition, case),
        None => false,
    }
}

fn holds(alloc: Global, case: &Case) -> bool {
    match files_of(alloc, from_ref(&case.stanza)) {
        Ok(files) => {
            let tried = try_files(alloc, files.as_slice(), case);
            drop(files);
            tried
        }
        Err(_) => false,
    }
}

fn check(alloc: Global, cases: &[Case]) -> Result<(), Fail> {
    for case in cases {
        if !holds(alloc, case) {
            return Err(Fail::from(case.name));
        }
    }
    Ok(())
}

#[test]
fn events_are_kept_and_taken(rt: HostRuntime) -> Result<(), Fail> {
    check(rt.alloc(), CASES)
}
