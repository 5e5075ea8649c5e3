//! The small calls: tests of one text, state or end, and copies.
use crate::conf::jobs::is_setting;
use std::alloc::{AllocError, Global};
use std::test::Fail;
use up_expr::{Test, is_job_event, wanted_job};
use up_model::{Goal, State};
use up_stanza::{Exit, Setting, Signal, has_shell, is_shell};
use up_text::env::{is_key, is_key_byte, is_key_start, is_value, split_pair};
use up_text::{Text, as_text, is_name};
use up_text_tests::tables::fields;

// In each row, which ends with `||`, what a text may be, whether it is that, and the text. A pair has its two parts in place of `yes`. The bytes
// of each text are that text.
const TEXTS: &'static str = "\
key|yes|A||
key|yes|_||
key|yes|a1||
key|yes|zZ_09||
key|no|||
key|no|1a||
key|no|a-b||
key|no|A=||
key|no|a ||
key|no|\u{e9}||
value|yes|||
value|yes|a = \"\u{e9}\"\n||
value|no|a\0||
name|yes|tty1||
name|yes|net-device-up||
name|no|||
name|no|a b||
name|no|a=b||
name|no|$A||
job event|yes|starting||
job event|yes|started||
job event|yes|stopping||
job event|yes|stopped||
job event|no|startup||
command for a shell|no|/sbin/getty 38400 tty1||
command for a shell|yes|echo $HOME||
command for a shell|yes|a | b||
command for a shell|no|||
pair|A 1|A=1||
pair|A 1=2|A=1=2||
pair|A |A=||
pair| 1|=1||
pair|no|A||
";

fn is(kind: &str, answer: &str, text: &str) -> bool {
    let yes = answer == "yes";
    match kind {
        "key" => is_key(text) == yes,
        "value" => is_value(text) == yes,
        "name" => is_name(text) == yes,
        "job event" => is_job_event(text) == yes,
        "command for a shell" => has_shell(text.as_bytes()) == yes,
        "pair" => split_pair(text) == answer.split_once(' '),
        _ => false,
    }
}

fn are_its_bytes(text: &str) -> bool {
    as_text(text.as_bytes()) == Some(text)
}

fn check_texts(rows: &'static str) -> Result<(), Fail> {
    for row in rows.split_terminator("||\n") {
        let holds = match fields(row) {
            Some((kind, answer, text)) => is(kind, answer, text) && are_its_bytes(text),
            None => false,
        };
        if !holds {
            return Err(Fail::from(row));
        }
    }
    Ok(())
}

// Bytes, whether a key may begin with each, whether it may have it, and whether it needs the shell.
const BYTES: &'static [(u8, bool, bool, bool)] = &[
    (b'_', true, true, false),
    (b'z', true, true, false),
    (b'A', true, true, false),
    (b'a', true, true, false),
    (b'0', false, true, false),
    (b'9', false, true, false),
    (b'-', false, false, false),
    (b'/', false, false, false),
    (b'$', false, false, true),
    (b'|', false, false, true),
];

fn check_bytes(cases: &[(u8, bool, bool, bool)]) -> Result<(), Fail> {
    for case in cases {
        let byte = case.0;
        if is_key_start(byte) != case.1 || is_key_byte(byte) != case.2 || is_shell(byte) != case.3 {
            return Err(Fail::from(byte));
        }
    }
    Ok(())
}

#[test]
fn texts_and_bytes_are_of_a_kind(rt: HostRuntime) -> Result<(), Fail> {
    assert!(rt; as_text(b"\xC3").is_none() && as_text(b"\xFF").is_none());
    check_bytes(BYTES)?;
    check_texts(TEXTS)
}

fn push_tests(alloc: Global, tests: &mut Vec<Test>) -> Result<(), AllocError> {
    let key = Text::from_str(alloc, "RESULT")?;
    let value = Text::from_str(alloc, "ok")?;
    tests.push(Test::Same(key, value))?;
    let key = Text::from_str(alloc, "JOB")?;
    let value = Text::from_str(alloc, "a")?;
    tests.push(Test::Same(key, value))?;
    let value = Text::from_str(alloc, "b")?;
    tests.push(Test::Place(value))?;
    Ok(())
}

fn is_wanted(tests: &[Test], job: &str) -> bool {
    match wanted_job(tests) {
        Some(wanted) => wanted.is(job),
        None => false,
    }
}

// Whether the first job of `RESULT=ok JOB=a b` is wanted, or that of a part of it.
fn are_wanted(tests: &[Test]) -> bool {
    match tests {
        [alone @ .., _, _] if wanted_job(alone).is_some() => false,
        [_, _, rest @ ..] => is_wanted(tests, "a") && is_wanted(rest, "b"),
        _ => false,
    }
}

#[test]
fn tests_want_the_job_that_comes_first(rt: HostRuntime) -> Result<(), Fail> {
    let mut tests = Vec::new(rt.alloc());
    let pushed = push_tests(rt.alloc(), &mut tests);
    let are_wanted = are_wanted(tests.as_slice());
    drop(tests);
    pushed?;
    if are_wanted {
        Ok(())
    } else {
        Err(Fail::from("another job is wanted"))
    }
}

fn are_told_apart(hup: Signal, kill: Signal) -> bool {
    Exit::Status(1).is(Exit::Status(1))
        && !Exit::Status(1).is(Exit::Status(2))
        && Exit::Signal(hup).is(Exit::Signal(hup))
        && !Exit::Signal(hup).is(Exit::Signal(kill))
        && !Exit::Status(1).is(Exit::Signal(hup))
}

const STATES: &'static [State] = &[
    State::Waiting,
    State::Starting,
    State::PreStart,
    State::Spawned,
    State::PostStart,
    State::Running,
    State::PreStop,
    State::Stopping,
    State::Killed,
    State::PostStop,
];

// The first state that waits or runs though another one does.
fn check_states(states: &[State]) -> Result<(), Fail> {
    for (place, state) in states.iter().enumerate() {
        if state.is_waiting() != (place == 0) || state.is_running() != (place == 5) {
            return Err(Fail::from(state.name()));
        }
    }
    Ok(())
}

#[test]
fn ends_goals_and_states(rt: HostRuntime) -> Result<(), Fail> {
    let (Some(hup), Some(kill)) = (Signal::read("HUP"), Signal::read("KILL")) else {
        return Err(Fail::from("HUP or KILL isn't read as a signal"));
    };
    assert!(rt; are_told_apart(hup, kill) && Goal::Start.is_start() && !Goal::Stop.is_start());
    check_states(STATES)
}

fn setting(alloc: Global, key: &str, value: Option<&str>) -> Result<Setting, AllocError> {
    let key = Text::from_str(alloc, key)?;
    let value = match value {
        Some(value) => Some(Text::from_str(alloc, value)?),
        None => None,
    };
    Ok(Setting { key, value })
}

fn check_setting(alloc: Global, key: &'static str, value: Option<&str>) -> Result<(), Fail> {
    let setting = setting(alloc, key, value)?;
    let copied = setting.copy();
    drop(setting);
    let copied = copied?;
    let is_setting = is_setting(&copied, key, value);
    drop(copied);
    if is_setting {
        Ok(())
    } else {
        Err(Fail::from(key))
    }
}

#[test]
fn settings_are_copied(rt: HostRuntime) -> Result<(), Fail> {
    check_setting(rt.alloc(), "A", None)?;
    check_setting(rt.alloc(), "B", Some("1"))
}
