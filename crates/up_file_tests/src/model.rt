//! Copies of inputs, and the names of commands.
use crate::images::folders::table_of;
use std::alloc::{AllocError, Global};
use std::test::Fail;
use up_image::Table;
use up_model::{Command, Event, How, Input, Loaded, Process, Request, Who};
use up_text::{Env, Name, Text, TextFault};
use up_text_tests::tables::{Pair, env_of};

fn who(alloc: Global) -> Result<Who, TextFault> {
    let job = Name::new(alloc, "a")?;
    let instance = Text::from_str(alloc, "i")?;
    Ok(Who { job, instance })
}

const VARS: &'static [Pair] = &[("A", "1"), ("B", "2")];

fn request(alloc: Global) -> Result<Request, TextFault> {
    let name = Text::from_str(alloc, "a")?;
    match Request::new(Command::Start, true, name, env_of(alloc, VARS)?) {
        Some(request) => Ok(request),
        None => Err(TextFault::BadName),
    }
}

fn is_who(who: &Who) -> bool {
    who.job.as_str() == "a" && who.instance.is("i")
}

fn are_vars(vars: &Env) -> bool {
    vars.len() == 2 && vars.at(0) == ("A", "1") && vars.at(1) == ("B", "2")
}

fn is_request(request: &Request) -> bool {
    request.command == Command::Start
        && request.wait
        && request.name.is("a")
        && are_vars(&request.vars)
}

fn event(alloc: Global) -> Result<Event, TextFault> {
    let name = Name::new(alloc, "go")?;
    let vars = env_of(alloc, VARS)?;
    Ok(Event { name, vars })
}

fn is_event(event: &Event) -> bool {
    event.name.as_str() == "go" && are_vars(&event.vars)
}

const PROCESS: Process = Process::PostStop;

const JOB: &'static str = "%file a.conf\nexec /bin/d\n";

fn loaded(alloc: Global, kind: u8) -> Result<Loaded, TextFault> {
    match kind {
        7 => match table_of(alloc, JOB) {
            Ok(table) => Ok(Loaded::Files(table)),
            Err(_) => Err(TextFault::Memory),
        },
        8 => Ok(Loaded::Refused(32)),
        _ => Ok(Loaded::Unread),
    }
}

// One input of each kind, and one for each outcome of a load.
fn input(alloc: Global, kind: u8) -> Result<Input, TextFault> {
    let made = match kind {
        0 => Input::Request {
            id: 7,
            request: request(alloc)?,
        },
        1 => Input::Emit(event(alloc)?),
        2 => Input::Spawned {
            who: who(alloc)?,
            process: PROCESS,
            pid: 100,
        },
        3 => Input::Refused {
            who: who(alloc)?,
            process: PROCESS,
        },
        4 => Input::Ended {
            who: who(alloc)?,
            process: PROCESS,
            how: How::Signal(15),
        },
        5 => Input::Clock(5),
        6 => Input::Turn,
        _ => Input::Load {
            id: 8,
            loaded: loaded(alloc, kind)?,
        },
    };
    Ok(made)
}

fn is_table(table: &Table) -> bool {
    table.len() == 1 && table.job(0).name.as_str() == "a"
}

// Whether it is what the load of this kind came to.
fn is_loaded(kind: u8, loaded: &Loaded) -> bool {
    match loaded {
        Loaded::Files(table) => kind == 7 && is_table(table),
        Loaded::Refused(number) => kind == 8 && *number == 32,
        Loaded::Unread => kind == 9,
    }
}

// Whether it is the input of this kind.
fn is_input(kind: u8, input: &Input) -> bool {
    match input {
        Input::Request { id, request } => kind == 0 && *id == 7 && is_request(request),
        Input::Emit(event) => kind == 1 && is_event(event),
        Input::Spawned { who, process, pid } => {
            kind == 2 && is_who(who) && *process == PROCESS && *pid == 100
        }
        Input::Refused { who, process } => kind == 3 && is_who(who) && *process == PROCESS,
        Input::Ended { who, process, how } => {
            kind == 4 && is_who(who) && *process == PROCESS && *how == How::Signal(15)
        }
        Input::Clock(reading) => kind == 5 && *reading == 5,
        Input::Turn => kind == 6,
        Input::Load { id, loaded } => *id == 8 && is_loaded(kind, loaded),
    }
}

fn is_request_copy(copied: Result<Request, AllocError>) -> bool {
    match copied {
        Ok(copied) => {
            let is_request = is_request(&copied);
            drop(copied);
            is_request
        }
        Err(_) => false,
    }
}

fn is_event_copy(copied: Result<Event, AllocError>) -> bool {
    match copied {
        Ok(copied) => {
            let is_event = is_event(&copied);
            drop(copied);
            is_event
        }
        Err(_) => false,
    }
}

fn is_who_copy(copied: Result<Who, AllocError>) -> bool {
    match copied {
        Ok(copied) => {
            let is_who = is_who(&copied);
            drop(copied);
            is_who
        }
        Err(_) => false,
    }
}

fn part_is_copied(input: &Input) -> bool {
    match input {
        Input::Request { request, .. } => is_request_copy(request.copy()),
        Input::Emit(event) => is_event_copy(event.copy()),
        Input::Spawned { who, .. } => is_who_copy(who.copy()),
        _ => true,
    }
}

// Whether a copy is the input, and parts of it are copied. Large values are dropped by a call, here and below: the prover would go through
// each field of what a scope drops.
fn is_input_copy(kind: u8, copied: Result<Input, AllocError>) -> bool {
    match copied {
        Ok(copied) => {
            let is_copy = is_input(kind, &copied) && part_is_copied(&copied);
            drop(copied);
            is_copy
        }
        Err(_) => false,
    }
}

fn input_is_copied(alloc: Global, kind: u8) -> bool {
    match input(alloc, kind) {
        Ok(input) => {
            let copied = input.copy(alloc);
            drop(input);
            is_input_copy(kind, copied)
        }
        Err(_) => false,
    }
}

fn check_inputs(alloc: Global) -> Result<(), Fail> {
    for kind in 0..10u8 {
        if !input_is_copied(alloc, kind) {
            return Err(Fail::from(kind));
        }
    }
    Ok(())
}

// Inputs, and the instances, events and requests that are parts of them.
#[test]
fn copies_of_inputs(rt: HostRuntime) -> Result<(), Fail> {
    check_inputs(rt.alloc())
}

const COMMANDS: &'static [(Command, &'static str)] = &[
    (Command::Start, "start"),
    (Command::Stop, "stop"),
    (Command::Restart, "restart"),
    (Command::Status, "status"),
    (Command::List, "list"),
    (Command::Emit, "emit"),
    (Command::Reload, "reload"),
    (Command::ReloadConfiguration, "reload-configuration"),
    (Command::Version, "version"),
];

fn check_commands(commands: &[(Command, &'static str)]) -> Result<(), Fail> {
    for case in commands {
        if case.0.name() != case.1 || Command::from_name(case.1) != Some(case.0) {
            return Err(Fail::from(case.1));
        }
    }
    if Command::from_name("stopped").is_some() {
        return Err(Fail::from("stopped"));
    }
    Ok(())
}

#[test]
fn commands() -> Result<(), Fail> {
    check_commands(COMMANDS)
}
