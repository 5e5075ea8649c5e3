//! Reads the requests of a script.
ghost use Rattle.std.specs.Prelude.{◌≡◌, ◌||◌, true, false, IfOk};
ghost use Rattle.up_model.specs.Requests.{may_wait, is_alone};
ghost use Rattle.up_script.specs.Requests.{begins_no_wait, alone, with_name, with_words, request_by, request_of};

use crate::variables::{name_of, vars_of};
use std::alloc::{AllocError, Global};
use up_conf::number_in;
use up_model::{Command, Input, Request};
use up_text::{Env, Text};

fn begins_no_wait(words: &[Text]) -> bool
    ensures { result ≡ begins_no_wait words.now }
{
    match words {
        [word, ..] => word.is("--no-wait"),
        [] => false,
    }
}

// A command without arguments.
fn alone(
    alloc: Global,
    command: Command,
    wait: bool,
    words: &[Text],
) -> Result<Option<Request>, AllocError>
    requires alone { is_alone command ≡ true }
    requires waits { wait || may_wait command ≡ true }
    ensures { IfOk result (λ request. request ≡ alone command wait words.now) }
{
    if !words.is_empty() {
        return Ok(None);
    }
    let name = Text::from_str(alloc, "")?;
    let vars = Env::new(alloc);
    Ok(Some(Request {
        command,
        wait,
        name,
        vars,
    }))
}

// A command with its NAME [KEY=VALUE]..
fn about(
    alloc: Global,
    command: Command,
    wait: bool,
    words: &[Text],
) -> Result<Option<Request>, AllocError>
    requires named { is_alone command ≡ false }
    requires waits { wait || may_wait command ≡ true }
    ensures { IfOk result (λ request. request ≡ with_name command wait words.now) }
{
    let [word, words @ ..] = words else {
        return Ok(None);
    };
    let Some(_) = name_of(alloc, word.as_str())? else {
        return Ok(None);
    };
    let Some(vars) = vars_of(alloc, words)? else {
        return Ok(None);
    };
    let name = word.copy()?;
    Ok(Some(Request {
        command,
        wait,
        name,
        vars,
    }))
}

fn with_words(
    alloc: Global,
    command: Command,
    wait: bool,
    words: &[Text],
) -> Result<Option<Request>, AllocError>
    requires waits { wait || may_wait command ≡ true }
    ensures { IfOk result (λ request. request ≡ with_words command wait words.now) }
{
    if command.is_alone() {
        alone(alloc, command, wait, words)
    } else {
        about(alloc, command, wait, words)
    }
}

fn request_by(
    alloc: Global,
    words: &[Text],
    command: Command,
) -> Result<Option<Request>, AllocError>
    ensures { IfOk result (λ request. request ≡ request_by words.now command) }
{
    if command.may_wait() && begins_no_wait(words) {
        with_words(alloc, command, false, &words[1..])
    } else {
        with_words(alloc, command, true, words)
    }
}

/// The request of the words after `request`.
pub(crate) fn request_of(alloc: Global, words: &[Text]) -> Result<Option<Input>, AllocError>
    ensures { IfOk result (λ input. input ≡ request_of words.now) }
{
    let [id, name, words @ ..] = words else {
        return Ok(None);
    };
    let Some(id) = number_in(0, u64::MAX, id.as_str()) else {
        return Ok(None);
    };
    let Some(command) = Command::from_name(name.as_str()) else {
        return Ok(None);
    };
    match request_by(alloc, words, command)? {
        Some(request) => Ok(Some(Input::Request { id, request })),
        None => Ok(None),
    }
}
