//! Writes inputs as the lines of a script.
ghost use Rattle.std.specs.Prelude.{◌≡◌, [], ◌++◌, None, Ok, OnOk, IfOk, IfSome, codes};
ghost use Rattle.std.specs.List.{flat_map};
ghost use Rattle.up_script.specs.Statements.{script_inputs};
ghost use Rattle.up_script.specs.Written.{token_byte, token, variable_token, wait_token, name_token, request_tokens, process_tokens, end_tokens, loaded_tokens, statement, is_turn, turns_line, script_of, IsUnsaid};

use crate::push::{push, push_decimal, push_signal};
use crate::same::{input_at, same_inputs};
use crate::script::script_inputs;
use std::alloc::{AllocError, Global};
use up_conf::Process;
use up_model::{Event, How, Input, Loaded, Request, Who, process_name};
use up_text::{Env, Items};

/// The most bytes that are read back as a script at once.
const MAX_LINES: usize = 67_108_864;

#[tactic(auto, unfolding(crate::specs::Written::token_byte))]
fn push_token_byte(text: &mut Vec<u8>, byte: u8) -> Result<(), AllocError>
    ensures { OnOk result (text.new.items ≡ text.old.items ++ token_byte byte) }
{
    if byte == b'"' || byte == b'\\' {
        text.push(b'\\')?;
    }
    text.push(byte)?;
    Ok(())
}

fn push_token_bytes(text: &mut Vec<u8>, bytes: &[u8]) -> Result<(), AllocError>
    ensures { OnOk result (text.new.items ≡ text.old.items ++ flat_map token_byte bytes.now) }
{
    for byte in bytes {
        push_token_byte(text, *byte)?;
    }
    Ok(())
}

// A text in quotes, as a token of a script.
#[tactic(auto, unfolding(crate::specs::Written::token))]
fn push_token(text: &mut Vec<u8>, piece: &str) -> Result<(), AllocError>
    ensures { OnOk result (text.new.items ≡ text.old.items ++ token piece.now) }
{
    push(text, "\"")?;
    push_token_bytes(text, piece.as_bytes())?;
    push(text, "\"")
}

#[tactic(auto, unfolding(crate::specs::Written::variable_token))]
fn push_variable(text: &mut Vec<u8>, key: &str, value: &str) -> Result<(), AllocError>
    ensures { OnOk result (text.new.items ≡ text.old.items ++ variable_token (key.now, value.now)) }
{
    push(text, " ")?;
    push(text, key)?;
    push(text, "=")?;
    push_token(text, value)
}

fn push_vars(text: &mut Vec<u8>, vars: &Env) -> Result<(), AllocError>
    ensures { OnOk result (text.new.items ≡ text.old.items ++ flat_map variable_token vars.now) }
{
    for i in 0..vars.len() {
        let (key, value) = vars.at(i);
        push_variable(text, key, value)?;
    }
    Ok(())
}

fn push_event(text: &mut Vec<u8>, event: &Event) -> Result<(), AllocError>
    ensures { OnOk result (text.new.items
        ≡ text.old.items ++ codes "emit " ++ event.now.name ++ flat_map variable_token event.now.vars) }
{
    push(text, "emit ")?;
    push(text, event.name.as_str())?;
    push_vars(text, &event.vars)
}

fn push_wait(text: &mut Vec<u8>, wait: bool) -> Result<(), AllocError>
    ensures { OnOk result (text.new.items ≡ text.old.items ++ wait_token wait) }
{
    if wait {
        Ok(())
    } else {
        push(text, " --no-wait")
    }
}

// The name in a request, unless it is empty.
fn push_name(text: &mut Vec<u8>, name: &str) -> Result<(), AllocError>
    ensures { OnOk result (text.new.items ≡ text.old.items ++ name_token name.now) }
{
    if name.is_empty() {
        return Ok(());
    }
    push(text, " ")?;
    push(text, name)
}

#[tactic(auto, unfolding(crate::specs::Written::request_tokens))]
fn push_request(text: &mut Vec<u8>, id: u64, request: &Request) -> Result<(), AllocError>
    ensures { OnOk result (text.new.items
        ≡ text.old.items ++ codes "request " ++ request_tokens id request.now) }
{
    push(text, "request ")?;
    push_decimal(text, id)?;
    push(text, " ")?;
    push(text, request.command.name())?;
    push_wait(text, request.wait)?;
    push_name(text, request.name.as_str())?;
    push_vars(text, &request.vars)
}

#[tactic(auto, unfolding(crate::specs::Written::process_tokens))]
fn push_process(text: &mut Vec<u8>, who: &Who, process: Process) -> Result<(), AllocError>
    ensures { OnOk result (text.new.items ≡ text.old.items ++ process_tokens who.now process) }
{
    push(text, who.job.as_str())?;
    push(text, " ")?;
    push_token(text, who.instance.as_str())?;
    push(text, " ")?;
    push(text, process_name(process))
}

fn push_how(text: &mut Vec<u8>, how: How) -> Result<(), AllocError>
    ensures { OnOk result (text.new.items ≡ text.old.items ++ end_tokens how) }
{
    match how {
        How::Exit(code) => {
            push(text, " exit ")?;
            push_decimal(text, u64::from(code))
        }
        How::Signal(signal) => {
            push(text, " signal ")?;
            push_signal(text, signal)
        }
    }
}

// The result of a load, unless that is the jobs of the next folder.
fn push_loaded(text: &mut Vec<u8>, loaded: &Loaded) -> Result<(), AllocError>
    ensures { OnOk result (text.new.items ≡ text.old.items ++ loaded_tokens loaded.now) }
{
    match loaded {
        Loaded::Files(_) => Ok(()),
        Loaded::Refused(code) => {
            push(text, " refused ")?;
            push_decimal(text, u64::from(*code))
        }
        Loaded::Unread => push(text, " unread"),
    }
}

fn push_statement(text: &mut Vec<u8>, input: &Input) -> Result<(), AllocError>
    ensures { OnOk result (text.new.items ≡ text.old.items ++ statement input.now) }
{
    match input {
        Input::Emit(event) => push_event(text, event),
        Input::Request { id, request } => push_request(text, *id, request),
        Input::Spawned { who, process, pid } => {
            push(text, "spawned ")?;
            push_process(text, who, *process)?;
            push(text, " ")?;
            push_decimal(text, u64::from(*pid))
        }
        Input::Refused { who, process } => {
            push(text, "refused ")?;
            push_process(text, who, *process)
        }
        Input::Ended { who, process, how } => {
            push(text, "ended ")?;
            push_process(text, who, *process)?;
            push_how(text, *how)
        }
        Input::Clock(reading) => {
            push(text, "clock ")?;
            push_decimal(text, *reading)
        }
        Input::Turn => push(text, "turn"),
        Input::Load { id, loaded } => {
            push(text, "load ")?;
            push_decimal(text, *id)?;
            push_loaded(text, loaded)
        }
    }
}

// The line for this many turns; nothing for 0.
#[tactic(auto, unfolding(crate::specs::Written::turns_line))]
fn push_turns(text: &mut Vec<u8>, count: usize) -> Result<(), AllocError>
    ensures { OnOk result (text.new.items ≡ text.old.items ++ turns_line count) }
{
    match count {
        0 => Ok(()),
        1 => push(text, "turn\n"),
        _ => {
            push(text, "turn ")?;
            push_decimal(text, count as u64)?;
            push(text, "\n")
        }
    }
}

fn is_turn(input: &Input) -> bool
    ensures { result ≡ is_turn input.now }
{
    matches!(input, Input::Turn)
}

fn push_inputs(text: &mut Vec<u8>, inputs: &[Input]) -> Result<(), AllocError>
    ensures { OnOk result (text.new.items ≡ text.old.items ++ script_of inputs.now) }
{
    // the first turn that isn't written yet
    let mut begun = 0;
    for i in 0..inputs.len() {
        let input = input_at(inputs, i);
        if !is_turn(input) {
            push_turns(text, i - begun)?;
            push_statement(text, input)?;
            push(text, "\n")?;
            begun = i + 1;
        }
    }
    push_turns(text, inputs.len() - begun)
}

fn render(alloc: Global, inputs: &[Input]) -> Result<Vec<u8>, AllocError>
    ensures { IfOk result (λ text. text.items ≡ script_of inputs.now) }
{
    let mut text: Vec<u8> = Vec::new(alloc);
    push_inputs(&mut text, inputs)?;
    Ok(text)
}

/// The lines of a script that are read as exactly these inputs; none if no script can contain them, as a load of jobs, or a value with a
/// line feed in it. The lines are read again to check that.
pub fn script_lines(alloc: Global, inputs: &[Input]) -> Result<Option<Items<u8>>, AllocError>
    ensures said { IfOk result (λ written. IfSome written (λ text. (text ≡ script_of inputs.now)
        × (script_inputs [] 1 text ≡ Ok inputs.now))) }
    ensures unsaid { IfOk result (λ written. written ≡ None → IsUnsaid inputs.now) }
{
    let text = render(alloc, inputs)?;
    if text.len() > MAX_LINES {
        return Ok(None);
    }
    let Ok(read) = script_inputs(alloc, text.as_slice(), 1)? else {
        return Ok(None);
    };
    if same_inputs(read.as_slice(), inputs) {
        Ok(Some(Items::new(text)))
    } else {
        Ok(None)
    }
}
