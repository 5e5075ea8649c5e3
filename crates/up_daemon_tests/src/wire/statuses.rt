//! What a client reads of an instance.
use std::alloc::Global;
use std::test::Fail;
use up_model::{Goal, State, Who};
use up_text::{Name, Text, TextFault};
use up_wire::status_text;

struct Case {
    job: &'static str,
    instance: &'static str,
    goal: Goal,
    state: State,
    main: Option<u32>,
    own: Option<u32>,
    text: &'static str,
}

const CASES: &'static [Case] = &[
    Case {
        job: "a",
        instance: "",
        goal: Goal::Stop,
        state: State::Waiting,
        main: None,
        own: None,
        text: "a stop/waiting",
    },
    Case {
        job: "net/b",
        instance: "x y",
        goal: Goal::Start,
        state: State::Starting,
        main: None,
        own: None,
        text: "net/b (x y) start/starting",
    },
    Case {
        job: "a",
        instance: "",
        goal: Goal::Start,
        state: State::PreStart,
        main: None,
        own: Some(7),
        text: "a start/pre-start, process 7",
    },
    Case {
        job: "a",
        instance: "",
        goal: Goal::Start,
        state: State::Spawned,
        main: Some(100),
        own: None,
        text: "a start/spawned, process 100",
    },
    Case {
        job: "a",
        instance: "1",
        goal: Goal::Start,
        state: State::PostStart,
        main: Some(100),
        own: Some(101),
        text: "a (1) start/post-start, process 100\n\tpost-start process 101",
    },
    Case {
        job: "a",
        instance: "",
        goal: Goal::Start,
        state: State::PostStart,
        main: None,
        own: Some(101),
        text: "a start/post-start, (post-start) process 101",
    },
    Case {
        job: "a",
        instance: "",
        goal: Goal::Start,
        state: State::Running,
        main: Some(4294967295),
        own: None,
        text: "a start/running, process 4294967295",
    },
    Case {
        job: "a",
        instance: "",
        goal: Goal::Stop,
        state: State::PreStop,
        main: Some(100),
        own: Some(102),
        text: "a stop/pre-stop, process 100\n\tpre-stop process 102",
    },
    Case {
        job: "a",
        instance: "",
        goal: Goal::Stop,
        state: State::PreStop,
        main: None,
        own: Some(102),
        text: "a stop/pre-stop, (pre-stop) process 102",
    },
    Case {
        job: "a",
        instance: "",
        goal: Goal::Stop,
        state: State::Stopping,
        main: Some(100),
        own: None,
        text: "a stop/stopping, process 100",
    },
    Case {
        job: "a",
        instance: "",
        goal: Goal::Stop,
        state: State::Killed,
        main: Some(100),
        own: None,
        text: "a stop/killed, process 100",
    },
    Case {
        job: "a",
        instance: "",
        goal: Goal::Stop,
        state: State::PostStop,
        main: None,
        own: Some(8),
        text: "a stop/post-stop, process 8",
    },
];

fn who_of(alloc: Global, case: &Case) -> Result<Who, TextFault> {
    let job = Name::new(alloc, case.job)?;
    let instance = Text::from_str(alloc, case.instance)?;
    Ok(Who { job, instance })
}

fn is_text(text: Text, wanted: &str) -> bool {
    let is_text = text.is(wanted);
    drop(text);
    is_text
}

fn is_told(alloc: Global, case: &Case) -> Result<bool, TextFault> {
    let who = who_of(alloc, case)?;
    let text = status_text(alloc, &who, case.goal, case.state, case.main, case.own);
    drop(who);
    Ok(is_text(text?, case.text))
}

fn check(alloc: Global, cases: &[Case]) -> Result<(), Fail> {
    for case in cases {
        if !is_told(alloc, case)? {
            return Err(Fail::from(case.text));
        }
    }
    Ok(())
}

#[test]
fn an_instance_is_told_in_each_state(rt: HostRuntime) -> Result<(), Fail> {
    check(rt.alloc(), CASES)
}
