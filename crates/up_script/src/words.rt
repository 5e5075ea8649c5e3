//! Reads the words of a script's line.
ghost use Rattle.std.specs.Prelude.{◌≡◌, IfOk, IfSome, Some, option_map};
ghost use Rattle.up_script.specs.ScriptInputs.{inputs_of_step};
ghost use Rattle.up_script.specs.Script.{who_named, process_of, how_of, emit_of, spawned_of, refused_of, ended_of, clock_of, loaded_of, load_of, input_of, turns_of, inputs_of, left_by, left_by_load, left_by_loaded, left_after};

use crate::requests::request_of;
use crate::scripted::StepInputs;
use crate::variables::{name_of, vars_of};
use std::alloc::{AllocError, Global};
use std::collections::VecDeque;
use up_conf::{Signal, number_in};
use up_image::Table;
use up_model::{Event, How, Input, Loaded, Process, Who};
use up_text::Text;

fn who_of(alloc: Global, job: &Text, instance: &Text) -> Result<Option<Who>, AllocError>
    ensures { IfOk result (λ who. who ≡ who_named job.now instance.now) }
{
    match name_of(alloc, job.as_str())? {
        Some(job) => {
            let instance = instance.copy()?;
            Ok(Some(Who { job, instance }))
        }
        None => Ok(None),
    }
}

fn process_of(name: &Text) -> Option<Process>
    ensures { result ≡ process_of name.now }
{
    if name.is("main") {
        Some(Process::Main)
    } else if name.is("pre-start") {
        Some(Process::PreStart)
    } else if name.is("post-start") {
        Some(Process::PostStart)
    } else if name.is("pre-stop") {
        Some(Process::PreStop)
    } else if name.is("post-stop") {
        Some(Process::PostStop)
    } else {
        None
    }
}

fn how_of(kind: &Text, text: &Text) -> Option<How>
    ensures { result ≡ how_of kind.now text.now }
{
    if kind.is("exit") {
        match number_in(0, 255, text.as_str()) {
            Some(code) => Some(How::Exit(code as u8)),
            None => None,
        }
    } else if kind.is("signal") {
        match Signal::read(text.as_str()) {
            Some(signal) => Some(How::Signal(signal.number())),
            None => None,
        }
    } else {
        None
    }
}

fn emit_of(alloc: Global, words: &[Text]) -> Result<Option<Input>, AllocError>
    ensures { IfOk result (λ input. input ≡ emit_of words.now) }
{
    let [name, words @ ..] = words else {
        return Ok(None);
    };
    let Some(name) = name_of(alloc, name.as_str())? else {
        return Ok(None);
    };
    match vars_of(alloc, words)? {
        Some(vars) => Ok(Some(Input::Emit(Event { name, vars }))),
        None => Ok(None),
    }
}

fn spawned_of(alloc: Global, words: &[Text]) -> Result<Option<Input>, AllocError>
    ensures { IfOk result (λ input. input ≡ spawned_of words.now) }
{
    let [job, instance, name, pid] = words else {
        return Ok(None);
    };
    let Some(process) = process_of(name) else {
        return Ok(None);
    };
    let Some(pid) = number_in(0, 4_294_967_295, pid.as_str()) else {
        return Ok(None);
    };
    let pid = pid as u32;
    match who_of(alloc, job, instance)? {
        Some(who) => Ok(Some(Input::Spawned { who, process, pid })),
        None => Ok(None),
    }
}

fn refused_of(alloc: Global, words: &[Text]) -> Result<Option<Input>, AllocError>
    ensures { IfOk result (λ input. input ≡ refused_of words.now) }
{
    let [job, instance, name] = words else {
        return Ok(None);
    };
    let Some(process) = process_of(name) else {
        return Ok(None);
    };
    match who_of(alloc, job, instance)? {
        Some(who) => Ok(Some(Input::Refused { who, process })),
        None => Ok(None),
    }
}

fn ended_of(alloc: Global, words: &[Text]) -> Result<Option<Input>, AllocError>
    ensures { IfOk result (λ input. input ≡ ended_of words.now) }
{
    let [job, instance, name, kind, text] = words else {
        return Ok(None);
    };
    let Some(process) = process_of(name) else {
        return Ok(None);
    };
    let Some(how) = how_of(kind, text) else {
        return Ok(None);
    };
    match who_of(alloc, job, instance)? {
        Some(who) => Ok(Some(Input::Ended { who, process, how })),
        None => Ok(None),
    }
}

fn clock_of(words: &[Text]) -> Option<Input>
    ensures { result ≡ clock_of words.now }
{
    match words {
        [reading] => number_in(0, u64::MAX, reading.as_str()).map(Input::Clock),
        _ => None,
    }
}

// The result of a load, by the words after the number of its request: the next table, if one is left, or nothing.
fn loaded_of(tables: &mut VecDeque<Table>, words: &[Text]) -> Option<Loaded>
    ensures loaded { result ≡ loaded_of tables.old.items words.now }
    ensures left { IfSome result (λ _. tables.new.items ≡ left_by_loaded tables.old.items words.now) }
{
    match words {
        [] => tables.pop_front().map(Loaded::Files),
        [word] if word.is("unread") => Some(Loaded::Unread),
        [word, code] if word.is("refused") => {
            let code = number_in(0, 255, code.as_str())?;
            Some(Loaded::Refused(code as u8))
        }
        _ => None,
    }
}

// A load, by the number of the request that asked for it.
fn load_of(tables: &mut VecDeque<Table>, words: &[Text]) -> Option<Input>
    ensures input { result ≡ load_of tables.old.items words.now }
    ensures left { IfSome result (λ _. tables.new.items ≡ left_by_load tables.old.items words.now) }
{
    let [id, words @ ..] = words else {
        return None;
    };
    let id = number_in(0, u64::MAX, id.as_str())?;
    let loaded = loaded_of(tables, words)?;
    Some(Input::Load { id, loaded })
}

fn input_of(
    alloc: Global,
    tables: &mut VecDeque<Table>,
    kind: &Text,
    words: &[Text],
) -> Result<Option<Input>, AllocError>
    ensures input { IfOk result (λ input. input ≡ input_of tables.old.items kind.now words.now) }
    ensures left { IfOk result (λ input. IfSome input
        (λ _. tables.new.items ≡ left_by tables.old.items kind.now words.now)) }
{
    if kind.is("emit") {
        emit_of(alloc, words)
    } else if kind.is("request") {
        request_of(alloc, words)
    } else if kind.is("spawned") {
        spawned_of(alloc, words)
    } else if kind.is("refused") {
        refused_of(alloc, words)
    } else if kind.is("ended") {
        ended_of(alloc, words)
    } else if kind.is("clock") {
        Ok(clock_of(words))
    } else if kind.is("load") {
        Ok(load_of(tables, words))
    } else {
        Ok(None)
    }
}

fn turns_of(words: &[Text]) -> Option<StepInputs>
    ensures { option_map inputs_of_step result ≡ turns_of words.now }
{
    match words {
        [] => Some(StepInputs::Turns(1)),
        [count] => number_in(1, 1_000_000, count.as_str()).map(StepInputs::Turns),
        _ => None,
    }
}

/// The inputs of a line, by its words; none for a line without words. A load takes the next of the tables.
pub(crate) fn inputs_of(
    alloc: Global,
    tables: &mut VecDeque<Table>,
    words: &[Text],
) -> Result<Option<StepInputs>, AllocError>
    ensures inputs { IfOk result (λ given. option_map inputs_of_step given ≡ inputs_of tables.old.items words.now) }
    ensures left { IfOk result (λ given. IfSome given
        (λ _. tables.new.items ≡ left_after tables.old.items (Some words.now))) }
{
    match words {
        [] => Ok(Some(StepInputs::Nothing)),
        [kind, words @ ..] => {
            if kind.is("turn") {
                Ok(turns_of(words))
            } else {
                let input = input_of(alloc, tables, kind, words)?;
                Ok(input.map(StepInputs::One))
            }
        }
    }
}
