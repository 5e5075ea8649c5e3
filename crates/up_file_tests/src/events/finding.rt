//! Which job is the first that an event may concern.
use crate::events::files::files_of;
use std::alloc::Global;
use std::test::Fail;
use up_image::JobFile;
use up_marks::{Finder, lesser_of};
use up_model::Event;
use up_text::{Name, TextFault};
use up_text_tests::tables::{Pair, env_of};

// Jobs of one stanza each, an event `go` with variables, and the first job, from one on, that it may concern.
struct Case {
    name: &'static str,
    jobs: &'static [&'static str],
    vars: &'static [Pair],
    from: usize,
    next: Option<usize>,
}

const CASES: &'static [Case] = &[
    Case {
        name: "no value",
        jobs: &["start on stay", "start on go"],
        vars: &[("X", "1")],
        from: 0,
        next: Some(1),
    },
    Case {
        name: "another event",
        jobs: &["start on stay X=1"],
        vars: &[("X", "1")],
        from: 0,
        next: None,
    },
    Case {
        name: "a positional value",
        jobs: &["start on go 2", "start on go 1"],
        vars: &[("X", "1")],
        from: 0,
        next: Some(1),
    },
    Case {
        name: "a keyed value",
        jobs: &["start on go X=2", "start on go Y=1", "stop on go X=1"],
        vars: &[("X", "1")],
        from: 0,
        next: Some(2),
    },
    Case {
        name: "an empty value",
        jobs: &["start on go X=1", "start on go X="],
        vars: &[("X", "")],
        from: 0,
        next: Some(1),
    },
    Case {
        name: "a pattern",
        jobs: &["start on go X=1", "start on go X=1*"],
        vars: &[("X", "12")],
        from: 0,
        next: Some(1),
    },
    Case {
        name: "an unlike value",
        jobs: &["start on go X=2", "start on go X!=2"],
        vars: &[("X", "1")],
        from: 0,
        next: Some(1),
    },
    Case {
        name: "a second value that is another",
        jobs: &["start on go X=1 Y=3", "start on go X=1 Y=2"],
        vars: &[("X", "1"), ("Y", "2")],
        from: 0,
        next: Some(1),
    },
    Case {
        name: "values of two variables",
        jobs: &["start on stay", "start on go Y=2", "start on go X=1"],
        vars: &[("X", "1"), ("Y", "2")],
        from: 0,
        next: Some(1),
    },
    Case {
        name: "two jobs with one value",
        jobs: &["start on go X=2", "start on go X=1", "start on go X=1"],
        vars: &[("X", "1")],
        from: 0,
        next: Some(1),
    },
    Case {
        name: "from past the first",
        jobs: &["start on go X=1", "start on go X=2", "start on go X=1"],
        vars: &[("X", "1")],
        from: 1,
        next: Some(2),
    },
    Case {
        name: "from past the last",
        jobs: &["start on go", "start on go X=1"],
        vars: &[("X", "1")],
        from: 2,
        next: None,
    },
    Case {
        name: "an event with no variables",
        jobs: &["start on go X=1", "start on go"],
        vars: &[],
        from: 0,
        next: Some(1),
    },
    Case {
        name: "a later leaf of an expression",
        jobs: &["start on go X=2 or (stay and go X=1)"],
        vars: &[("X", "1")],
        from: 0,
        next: Some(0),
    },
];

fn event_with(alloc: Global, pairs: &[Pair]) -> Result<Event, TextFault> {
    let vars = env_of(alloc, pairs)?;
    match Name::new(alloc, "go") {
        Ok(name) => Ok(Event { name, vars }),
        Err(fault) => {
            drop(vars);
            Err(fault)
        }
    }
}

// Whether it is the next job that is found.
fn is_next(alloc: Global, files: &[JobFile], event: &Event, case: &Case) -> bool {
    match Finder::of(alloc, files) {
        Ok(finder) => {
            let next = finder.next_job(files, event, case.from);
            drop(finder);
            next == case.next
        }
        Err(_) => false,
    }
}

fn finds(alloc: Global, event: &Event, case: &Case) -> bool {
    match files_of(alloc, case.jobs) {
        Ok(files) => {
            let is_next = is_next(alloc, files.as_slice(), event, case);
            drop(files);
            is_next
        }
        Err(_) => false,
    }
}

fn holds(alloc: Global, case: &Case) -> bool {
    match event_with(alloc, case.vars) {
        Ok(event) => {
            let finds = finds(alloc, &event, case);
            drop(event);
            finds
        }
        Err(_) => false,
    }
}

fn check(alloc: Global, cases: &[Case]) -> Result<(), Fail> {
    for case in cases {
        if !holds(alloc, case) {
            return Err(Fail::from(case.name));
        }
    }
    Ok(())
}

#[test]
fn the_next_job_is_found_by_value(rt: HostRuntime) -> Result<(), Fail> {
    check(rt.alloc(), CASES)
}

fn is_lesser(first: Option<usize>, second: Option<usize>, lesser: usize) -> bool {
    lesser_of(first, second) == Some(lesser)
}

#[test]
fn the_lesser_of_two_is_found(rt: HostRuntime) {
    assert!(rt;
        is_lesser(Some(2), Some(1), 1)
            && is_lesser(Some(1), Some(2), 1)
            && is_lesser(None, Some(2), 2)
            && is_lesser(Some(1), None, 1)
    );
}
