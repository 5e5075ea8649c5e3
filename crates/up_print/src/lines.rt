//! The lines that are printed.
ghost use Rattle.std.specs.Prelude.{◌≡◌, ◌++◌, OnOk};
ghost use Rattle.std.specs.List.{flat_map, list_all};
ghost use Rattle.up_model.specs.Signals.{signal_text};
ghost use Rattle.up_print.specs.Lines.{escaped, is_plain, quoted, instance_text, who_text, word_text, binding_text, variable_text, variable_line, spawn_lines, signal_line, event_line, verdict_text, reply_line, output_lines, step_lines, bad_statement_line};

use crate::push::{push, push_decimal};
use std::alloc::AllocError;
use up_conf::signal_name;
use up_model::{Answer, Event, Order, Output, Step, Who, process_name};
use up_text::{Env, Text};

#[tactic(auto, unfolding(crate::specs::Lines::escaped))]
fn push_escaped(text: &mut Vec<u8>, byte: u8) -> Result<(), AllocError>
    ensures { OnOk result (text.new.items ≡ text.old.items ++ escaped byte) }
{
    match byte {
        b'"' => push(text, "\\\""),
        b'\\' => push(text, "\\\\"),
        b'\n' => push(text, "\\n"),
        b'\t' => push(text, "\\t"),
        _ => {
            text.push(byte)?;
            Ok(())
        }
    }
}

fn is_plain(byte: u8) -> bool
    ensures { result ≡ is_plain byte }
{
    !matches!(byte, b'"' | b'\\' | b'\n' | b'\t')
}

fn are_plain(bytes: &[u8]) -> bool
    ensures { result ≡ list_all is_plain bytes.now }
{
    bytes.iter().all(|byte| is_plain(*byte))
}

#[tactic(auto, using(crate::proofs::Plain::plain_bytes))]
fn push_all_escaped(text: &mut Vec<u8>, bytes: &[u8]) -> Result<(), AllocError>
    ensures { OnOk result (text.new.items ≡ text.old.items ++ flat_map escaped bytes.now) }
{
    if are_plain(bytes) {
        return text.extend_from_slice(bytes);
    }
    for byte in bytes {
        push_escaped(text, *byte)?;
    }
    Ok(())
}

#[tactic(auto, unfolding(crate::specs::Lines::quoted))]
fn push_quoted(text: &mut Vec<u8>, more: &str) -> Result<(), AllocError>
    ensures { OnOk result (text.new.items ≡ text.old.items ++ quoted more.now) }
{
    push(text, "\"")?;
    push_all_escaped(text, more.as_bytes())?;
    push(text, "\"")
}

fn push_signal(text: &mut Vec<u8>, signal: u8) -> Result<(), AllocError>
    ensures { OnOk result (text.new.items ≡ text.old.items ++ signal_text signal) }
{
    match signal_name(signal) {
        Some(name) => push(text, name),
        None => push_decimal(text, u64::from(signal)),
    }
}

fn push_instance(text: &mut Vec<u8>, instance: &str) -> Result<(), AllocError>
    ensures { OnOk result (text.new.items ≡ text.old.items ++ instance_text instance.now) }
{
    if instance.is_empty() {
        return Ok(());
    }
    push(text, " (")?;
    push(text, instance)?;
    push(text, ")")
}

#[tactic(auto, unfolding(crate::specs::Lines::who_text))]
fn push_who(text: &mut Vec<u8>, who: &Who) -> Result<(), AllocError>
    ensures { OnOk result (text.new.items ≡ text.old.items ++ who_text who.now) }
{
    push(text, who.job.as_str())?;
    push_instance(text, who.instance.as_str())
}

#[tactic(auto, unfolding(crate::specs::Lines::word_text))]
fn push_word(text: &mut Vec<u8>, word: &Text) -> Result<(), AllocError>
    ensures { OnOk result (text.new.items ≡ text.old.items ++ word_text word.now) }
{
    push(text, " ")?;
    push_quoted(text, word.as_str())
}

fn push_words(text: &mut Vec<u8>, words: &[Text]) -> Result<(), AllocError>
    ensures { OnOk result (text.new.items ≡ text.old.items ++ flat_map word_text words.now) }
{
    for word in words {
        push_word(text, word)?;
    }
    Ok(())
}

#[tactic(auto, unfolding(crate::specs::Lines::binding_text))]
fn push_binding(text: &mut Vec<u8>, key: &str, value: &str) -> Result<(), AllocError>
    ensures { OnOk result (text.new.items ≡ text.old.items ++ binding_text (key.now, value.now)) }
{
    push(text, key)?;
    push(text, "=")?;
    push_quoted(text, value)
}

#[tactic(auto, unfolding(crate::specs::Lines::variable_text))]
fn push_variable(text: &mut Vec<u8>, key: &str, value: &str) -> Result<(), AllocError>
    ensures { OnOk result (text.new.items ≡ text.old.items ++ variable_text (key.now, value.now)) }
{
    push(text, " ")?;
    push_binding(text, key, value)
}

#[tactic(auto, unfolding(crate::specs::Lines::variable_line))]
fn push_variable_line(text: &mut Vec<u8>, key: &str, value: &str) -> Result<(), AllocError>
    ensures { OnOk result (text.new.items ≡ text.old.items ++ variable_line (key.now, value.now)) }
{
    push(text, "  ")?;
    push_binding(text, key, value)?;
    push(text, "\n")
}

fn push_variables(text: &mut Vec<u8>, vars: &Env) -> Result<(), AllocError>
    ensures { OnOk result (text.new.items ≡ text.old.items ++ flat_map variable_text vars.now) }
{
    for i in 0..vars.len() {
        let (key, value) = vars.at(i);
        push_variable(text, key, value)?;
    }
    Ok(())
}

fn push_variable_lines(text: &mut Vec<u8>, vars: &Env) -> Result<(), AllocError>
    ensures { OnOk result (text.new.items ≡ text.old.items ++ flat_map variable_line vars.now) }
{
    for i in 0..vars.len() {
        let (key, value) = vars.at(i);
        push_variable_line(text, key, value)?;
    }
    Ok(())
}

#[tactic(auto, unfolding(crate::specs::Lines::spawn_lines))]
fn push_spawn(text: &mut Vec<u8>, order: &Order) -> Result<(), AllocError>
    ensures { OnOk result (text.new.items ≡ text.old.items ++ spawn_lines order.now) }
{
    push(text, "spawn ")?;
    push_who(text, &order.who)?;
    push(text, " ")?;
    push(text, process_name(order.process))?;
    push_words(text, order.argv.as_slice())?;
    push(text, "\n")?;
    push_variable_lines(text, &order.env)
}

#[tactic(auto, unfolding(crate::specs::Lines::signal_line))]
fn push_signal_line(text: &mut Vec<u8>, who: &Who, pid: u32, signal: u8) -> Result<(), AllocError>
    ensures { OnOk result (text.new.items ≡ text.old.items ++ signal_line who.now pid signal) }
{
    push(text, "signal ")?;
    push_who(text, who)?;
    push(text, " ")?;
    push_decimal(text, u64::from(pid))?;
    push(text, " ")?;
    push_signal(text, signal)?;
    push(text, "\n")
}

#[tactic(auto, unfolding(crate::specs::Lines::event_line))]
fn push_event(text: &mut Vec<u8>, event: &Event) -> Result<(), AllocError>
    ensures { OnOk result (text.new.items ≡ text.old.items ++ event_line event.now) }
{
    push(text, "event ")?;
    push(text, event.name.as_str())?;
    push_variables(text, &event.vars)?;
    push(text, "\n")
}

fn verdict(ok: bool) -> &'static str
    ensures { result.now ≡ verdict_text ok }
{
    if ok { " ok " } else { " failed " }
}

#[tactic(auto, unfolding(crate::specs::Lines::reply_line))]
fn push_reply(text: &mut Vec<u8>, id: u64, answer: &Answer) -> Result<(), AllocError>
    ensures { OnOk result (text.new.items ≡ text.old.items ++ reply_line id answer.now) }
{
    push(text, "reply ")?;
    push_decimal(text, id)?;
    push(text, verdict(answer.ok))?;
    push_quoted(text, answer.text.as_str())?;
    push(text, "\n")
}

pub fn push_output(text: &mut Vec<u8>, output: &Output) -> Result<(), AllocError>
    ensures { OnOk result (text.new.items ≡ text.old.items ++ output_lines output.now) }
{
    match output {
        Output::Spawn(order) => push_spawn(text, order),
        Output::Signal { who, pid, signal } => push_signal_line(text, who, *pid, *signal),
        Output::Emitted(event) => push_event(text, event),
        Output::Reply { id, answer } => push_reply(text, *id, answer),
    }
}

pub fn push_outputs(text: &mut Vec<u8>, outputs: &[Output]) -> Result<(), AllocError>
    ensures { OnOk result (text.new.items ≡ text.old.items ++ flat_map output_lines outputs.now) }
{
    for output in outputs {
        push_output(text, output)?;
    }
    Ok(())
}

pub fn push_step(text: &mut Vec<u8>, step: &Step) -> Result<(), AllocError>
    ensures { OnOk result (text.new.items ≡ text.old.items ++ step_lines step.now) }
{
    match step {
        Step::Gave(outputs) => push_outputs(text, outputs.as_slice()),
        Step::NotExpected => push(text, "refused 40 NotExpected\n"),
    }
}

/// Appends the line for a bad step of the script with this name.
#[tactic(auto, unfolding(crate::specs::Lines::bad_statement_line))]
pub fn push_bad_step(text: &mut Vec<u8>, name: &str, line: u32) -> Result<(), AllocError>
    ensures { OnOk result (text.new.items ≡ text.old.items ++ bad_statement_line name.now line) }
{
    push(text, name)?;
    push(text, ":")?;
    push_decimal(text, u64::from(line))?;
    push(text, ": bad step\n")
}
