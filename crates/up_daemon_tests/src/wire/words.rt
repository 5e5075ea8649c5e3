//! Words, and the requests that they are.
use std::alloc::Global;
use std::test::Fail;
use up_model::{Command, Request};
use up_wire::{WireFault, command_line, request_of};

// Large values are moved on or dropped by a call, here and below: the prover would go through each field of what a scope drops.
fn request_in(alloc: Global, words: &[&str]) -> Result<Request, WireFault> {
    let mut command = command_line(alloc)?;
    let found = command.try_get_matches_from_mut(words);
    drop(command);
    match found {
        Ok(matches) => {
            let request = request_of(alloc, &matches);
            drop(matches);
            request
        }
        Err(refused) => {
            drop(refused);
            Err(WireFault::Memory)
        }
    }
}

fn is_go(request: &Request) -> bool {
    request.command == Command::Emit
        && request.wait
        && request.name.is("go")
        && request.vars.len() == 1
        && request.vars.get("X") == Some("1")
}

fn is_bad(alloc: Global, words: &[&str]) -> bool {
    match request_in(alloc, words) {
        Ok(request) => {
            drop(request);
            false
        }
        Err(fault) => fault == WireFault::BadWord,
    }
}

const BAD: &'static [&'static [&'static str]] = &[
    &["initctl", "emit", "go", "X"],
    &["initctl", "emit", "go", "=1"],
    &["initctl", "emit", "go", "1X=2"],
    &["initctl", "emit", "go", "X=1", "Y"],
    &["initctl", "start", "a(b"],
    &["initctl", "start", ""],
];

fn check_bad(alloc: Global, lines: &[&'static [&'static str]]) -> Result<(), Fail> {
    for (place, words) in lines.iter().enumerate() {
        if !is_bad(alloc, *words) {
            return Err(Fail::from(place));
        }
    }
    Ok(())
}

#[test]
fn bad_word(rt: HostRuntime) -> Result<(), Fail> {
    let request = request_in(rt.alloc(), &["initctl", "emit", "go", "X=1"])?;
    let is_go = is_go(&request);
    drop(request);
    assert!(rt; is_go);
    check_bad(rt.alloc(), BAD)
}

// Whether the later value of a key is there, at its earlier place, and a value is cut at the first `=`.
fn has_later_values(request: &Request) -> bool {
    request.vars.len() == 2 && request.vars.at(0) == ("X", "3=4") && request.vars.at(1) == ("Y", "")
}

#[test]
fn a_repeated_key_has_its_later_value(rt: HostRuntime) -> Result<(), Fail> {
    let words = &["initctl", "start", "a", "X=1", "Y=", "X=3=4"];
    let request = request_in(rt.alloc(), words)?;
    let has_later_values = has_later_values(&request);
    drop(request);
    assert!(rt; has_later_values);
    Ok(())
}

struct Case {
    words: &'static [&'static str],
    command: Command,
    wait: bool,
    name: &'static str,
}

const COMMANDS: &'static [Case] = &[
    Case {
        words: &["initctl", "start", "--no-wait", "a"],
        command: Command::Start,
        wait: false,
        name: "a",
    },
    Case {
        words: &["initctl", "stop", "a", "--no-wait"],
        command: Command::Stop,
        wait: false,
        name: "a",
    },
    Case {
        words: &["initctl", "restart", "net/b"],
        command: Command::Restart,
        wait: true,
        name: "net/b",
    },
    Case {
        words: &["initctl", "status", "a"],
        command: Command::Status,
        wait: true,
        name: "a",
    },
    Case {
        words: &["initctl", "reload", "a"],
        command: Command::Reload,
        wait: true,
        name: "a",
    },
    Case {
        words: &["initctl", "emit", "--no-wait", "go"],
        command: Command::Emit,
        wait: false,
        name: "go",
    },
    Case {
        words: &["initctl", "list"],
        command: Command::List,
        wait: true,
        name: "",
    },
    Case {
        words: &["initctl", "reload-configuration"],
        command: Command::ReloadConfiguration,
        wait: true,
        name: "",
    },
    Case {
        words: &["initctl", "version"],
        command: Command::Version,
        wait: true,
        name: "",
    },
];

fn is_asked(request: Request, case: &Case) -> bool {
    let is_asked = request.command == case.command
        && request.wait == case.wait
        && request.name.is(case.name)
        && request.vars.is_empty();
    drop(request);
    is_asked
}

fn check(alloc: Global, cases: &[Case]) -> Result<(), Fail> {
    for case in cases {
        if !is_asked(request_in(alloc, case.words)?, case) {
            return Err(Fail::from(case.command.name()));
        }
    }
    Ok(())
}

#[test]
fn each_command_has_its_request(rt: HostRuntime) -> Result<(), Fail> {
    check(rt.alloc(), COMMANDS)
}
