//! The lines of inputs.
use crate::engine::{both, environment};
use std::alloc::{AllocError, Global};
use std::test::Fail;
use up_model::{Command, Input, Request};
use up_script::scripted::StepInputs;
use up_script::{read_inputs, script_inputs, script_lines};
use up_text::Text;

// A script in the form in which inputs are written, with each kind of input.
static SCRIPT: &str =
    "emit startup\nclock 18446744073709551615\nemit x A=\"b  c#$\\\"\\\\d'\u{e9}\t\" B=\"\"\nrequest 1 start a K=\"v\"\nrequest 2 stop --no-wait a\nrequest 3 restart a\nrequest 4 status a\nrequest 5 list\nrequest 6 emit --no-wait --no-wait\nrequest 7 reload a\nrequest 8 reload-configuration\nrequest 9 version\nturn\nspawned a \"\" main 4294967295\nturn 256\nrefused a \"i j\\\"\" pre-start\nended a \"\" post-start exit 255\nended a \"\" pre-stop signal TERM\nended a \"\" post-stop signal SYS\nclock 0\nload 10 refused 255\nload 18446744073709551615 unread\nturn 2\n";

// The lines of a short script's inputs.
fn lines_of(alloc: Global, script: &[u8]) -> Result<Option<Items>, AllocError> {
    if script.len() > 1_000_000 {
        return Ok(None);
    }
    let Ok(inputs) = script_inputs(alloc, script, 1)? else {
        return Ok(None);
    };
    let lines = script_lines(alloc, inputs.as_slice());
    drop(inputs);
    lines
}

type Items = up_text::Items<u8>;

fn is_kept(alloc: Global) -> Result<bool, Fail> {
    match lines_of(alloc, SCRIPT.as_bytes())? {
        Some(lines) => Ok(lines.as_slice() == SCRIPT.as_bytes()),
        None => Ok(false),
    }
}

#[test]
fn inputs_are_written_as_they_are_read(rt: HostRuntime) -> Result<(), Fail> {
    assert_eq!(rt; is_kept(rt.alloc())?, true);
    Ok(())
}

fn push_request(
    alloc: Global,
    inputs: &mut Vec<Input>,
    name: &str,
    pair: &str,
) -> Result<(), Fail> {
    let (name, vars) = both(Text::from_str(alloc, name), environment(alloc, pair))?;
    if let Some(request) = Request::new(Command::Start, true, name, vars) {
        inputs.push(Input::Request { id: 1, request })?;
    }
    Ok(())
}

fn has_lines(alloc: Global, inputs: &[Input]) -> Result<bool, Fail> {
    Ok(script_lines(alloc, inputs)?.is_some())
}

// Whether a script has a line for a request for this job with this variable.
fn is_written(alloc: Global, name: &str, pair: &str) -> Result<bool, Fail> {
    let mut inputs: Vec<Input> = Vec::new(alloc);
    let has = match push_request(alloc, &mut inputs, name, pair) {
        Ok(()) => has_lines(alloc, inputs.as_slice()),
        Err(fail) => Err(fail),
    };
    drop(inputs);
    has
}

// A line feed in quotes is read as a blank, and a name that is written as an option is read as one.
#[test]
fn what_no_line_says_is_not_written(rt: HostRuntime) -> Result<(), Fail> {
    assert_eq!(rt; is_written(rt.alloc(), "a", "K=b c")?, true);
    assert_eq!(rt; is_written(rt.alloc(), "a", "K=b\nc")?, false);
    assert_eq!(rt; is_written(rt.alloc(), "--no-wait", "K=b c")?, false);
    Ok(())
}

// Whether the steps of a script are these: a reading, and turns.
fn steps_are(alloc: Global, script: &[u8], reading: u64, turns: u64) -> Result<bool, AllocError> {
    if script.len() > 1_000_000 {
        return Ok(false);
    }
    let Ok(inputs) = read_inputs(alloc, script, 1)? else {
        return Ok(false);
    };
    let steps = inputs.into_steps();
    let are = match steps.as_slice() {
        [
            StepInputs::One(Input::Clock(read)),
            StepInputs::Turns(count),
        ] => { *read == reading && *count == turns }
        _ => false,
    };
    drop(steps);
    Ok(are)
}

#[test]
fn many_turns_are_one_step(rt: HostRuntime) -> Result<(), Fail> {
    assert_eq!(rt;
        steps_are(rt.alloc(), b"clock 5\nturn 1000000\n", 5, 1_000_000)?,
        true
    );
    Ok(())
}
