//! Which events may match the `stop on` or the `start on` of a file.
use crate::events::files::files_of;
use crate::events::queue::event;
use std::alloc::Global;
use std::slice::from_ref;
use std::test::Fail;
use up_image::JobFile;
use up_marks::{Index, may_start, may_stop, stop_leaves};
use up_model::Event;

// A job's stanza, an event, how many leaves name the event, and whether it may match.
type Case = (&'static str, &'static str, usize, bool);

const CASES: &'static [Case] = &[
    ("stop on b X=1 or (c and b)", "b", 2, true),
    ("stop on b X=1 or (c and b)", "a", 0, false),
    // A literal value rules an event out.
    ("stop on b X=1", "b", 1, false),
    ("start on b X=1 or (c and b)", "b", 2, true),
    ("start on b X=1", "b", 1, false),
];

fn is_stopped(file: &JobFile, event: &Event, case: &Case) -> bool {
    stop_leaves(file, &event.name).len() == case.2 && may_stop(file, event) == case.3
}

fn is_started_by(index: &Index, file: &JobFile, event: &Event, case: &Case) -> bool {
    let leaves = index.leaves(&event.name, 0, true);
    leaves.len() == case.2 && may_start(file.job(), leaves, event) == case.3
}

fn is_started(
    alloc: Global,
    files: &[JobFile],
    file: &JobFile,
    event: &Event,
    case: &Case,
) -> bool {
    match Index::of(alloc, files) {
        Ok(index) => {
            let started = is_started_by(&index, file, event, case);
            drop(index);
            started
        }
        Err(_) => false,
    }
}

fn is_heard(alloc: Global, files: &[JobFile], event: &Event, case: &Case) -> bool {
    match files.first() {
        Some(file) => {
            if case.0.starts_with("stop") {
                is_stopped(file, event, case)
            } else {
                is_started(alloc, files, file, event, case)
            }
        }
        None => false,
    }
}

fn hears(alloc: Global, event: &Event, case: &Case) -> bool {
    match files_of(alloc, from_ref(&case.0)) {
        Ok(files) => {
            let heard = is_heard(alloc, files.as_slice(), event, case);
            drop(files);
            heard
        }
        Err(_) => false,
    }
}

fn holds(alloc: Global, case: &Case) -> bool {
    match event(alloc, case.1) {
        Ok(event) => {
            let hears = hears(alloc, &event, case);
            drop(event);
            hears
        }
        Err(_) => false,
    }
}

fn check(alloc: Global, cases: &[Case]) -> Result<(), Fail> {
    for case in cases {
        if !holds(alloc, case) {
            return Err(Fail::from(case.0));
        }
    }
    Ok(())
}

#[test]
fn leaves_are_found_by_name(rt: HostRuntime) -> Result<(), Fail> {
    check(rt.alloc(), CASES)
}
