//! The inputs that no statement of a script can express, in a comment.
use std::alloc::{AllocError, Global};
use std::fmt;
use up_model::{Event, Input, Request, Who, process_name};
use up_text::Env;

// Values are written with escapes, which a script doesn't have.
fn push_vars(text: &mut String, vars: &Env) -> Result<(), AllocError> {
    for i in 0..vars.len() {
        let (key, value) = vars.at(i);
        write!(text, " {key}={value:?}")?;
    }
    Ok(())
}

fn push_event(text: &mut String, event: &Event) -> Result<(), AllocError> {
    let name = event.name.as_str();
    write!(text, "emit {name:?}")?;
    push_vars(text, &event.vars)
}

fn push_request(text: &mut String, id: u64, request: &Request) -> Result<(), AllocError> {
    let command = request.command.name();
    let name = request.name.as_str();
    write!(text, "request {id} {command} {name:?}")?;
    push_vars(text, &request.vars)
}

fn push_fate(text: &mut String, fate: &str, who: &Who, process: &str) -> Result<(), AllocError> {
    let job = who.job.as_str();
    let instance = who.instance.as_str();
    write!(text, "{fate} {job:?} {instance:?} {process}")
}

/// An input as the end of a comment. A line feed in it is escaped.
pub(crate) fn unsaid(alloc: Global, input: &Input) -> Result<String, AllocError> {
    let mut text = String::new(alloc);
    match input {
        Input::Emit(event) => push_event(&mut text, event)?,
        Input::Request { id, request } => push_request(&mut text, *id, request)?,
        Input::Spawned {
            who,
            process,
            pid: _,
        } => { push_fate(&mut text, "spawned", who, process_name(*process))? }
        Input::Refused { who, process } => {
            push_fate(&mut text, "refused", who, process_name(*process))?
        }
        Input::Ended {
            who,
            process,
            how: _,
        } => { push_fate(&mut text, "ended", who, process_name(*process))? }
        Input::Load { id, loaded: _ } => write!(text, "load {id}")?,
        Input::Clock(_) | Input::Turn => {}
    }
    Ok(text)
}
