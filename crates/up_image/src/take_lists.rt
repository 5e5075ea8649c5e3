//! Reads what a job sets and runs.
ghost use Rattle.std.specs.Prelude.{◌≡◌, ◌++◌, ◌∷◌, [], OnOk, option_map};
ghost use Rattle.up_image.specs.Finding.{Reads, action_at, exit_at, exit_of, items_at, list_at, made, setting_at, signal_of, value_at};

use crate::read_fault::ReadFault;
use crate::take::{push, take_byte, take_text, take_texts, take_two};
use std::alloc::{AllocError, Global};
use up_stanza::{Action, Exit, Setting, Signal, signal_name};
use up_text::{Items, Text};

#[tactic(auto, unfolding(crate::specs::Finding::value_at))]
fn take_value(alloc: Global, bytes: &[u8]) -> Result<(Option<Text>, &[u8]), ReadFault>
    ensures { Reads (λ x. (x.0, x.1.now)) result (value_at bytes.now) }
{
    let (kind, rest) = take_byte(bytes)?;
    match kind {
        0 => Ok((None, rest)),
        1 => {
            let (value, rest) = take_text(alloc, rest)?;
            Ok((Some(value), rest))
        }
        _ => Err(ReadFault::BadTable),
    }
}

#[tactic(auto, unfolding(crate::specs::Finding::setting_at))]
fn take_setting(alloc: Global, bytes: &[u8]) -> Result<(Setting, &[u8]), ReadFault>
    ensures { Reads (λ x. (x.0, x.1.now)) result (setting_at bytes.now) }
{
    let (key, rest) = take_text(alloc, bytes)?;
    let (value, rest) = take_value(alloc, rest)?;
    Ok((Setting { key, value }, rest))
}

#[tactic(auto, using(crate::proofs::Counting::items_left))]
fn take_each_setting(
    alloc: Global,
    bytes: &[u8],
    count: u16,
) -> Result<(Items<Setting>, &[u8]), ReadFault>
    ensures { Reads (λ x. (x.0, x.1.now)) result (items_at setting_at count [] bytes.now) }
{
    let mut rest = bytes;
    let mut settings = Vec::new(alloc);
    for i in 0..count {
        let (setting, after) = take_setting(alloc, rest)?;
        push(&mut settings, setting)?;
        rest = after;
    }
    Ok((Items::new(settings), rest))
}

pub(crate) fn take_settings(
    alloc: Global,
    bytes: &[u8],
) -> Result<(Items<Setting>, &[u8]), ReadFault>
    ensures { Reads (λ x. (x.0, x.1.now)) result (list_at setting_at bytes.now) }
{
    let (count, rest) = take_two(bytes)?;
    take_each_setting(alloc, rest, count)
}

pub(crate) fn signal_of(number: u8) -> Result<Signal, ReadFault>
    ensures { Reads (λ x. x) result (signal_of number) }
{
    match signal_name(number) {
        Some(name) => match Signal::read(name) {
            Some(signal) => Ok(signal),
            None => Err(ReadFault::BadTable),
        },
        None => Err(ReadFault::BadTable),
    }
}

fn exit_of(kind: u8, number: u8) -> Result<Exit, ReadFault>
    ensures { Reads (λ x. x) result (exit_of kind number) }
{
    match kind {
        0 => Ok(Exit::Status(number)),
        1 => {
            let signal = signal_of(number)?;
            Ok(Exit::Signal(signal))
        }
        _ => Err(ReadFault::BadTable),
    }
}

fn push_exit(exits: &mut Vec<Exit>, exit: Exit) -> Result<(), AllocError>
    ensures { OnOk result (exits.new.items ≡ exits.old.items ++ exit ∷ []) }
{
    exits.push(exit)?;
    Ok(())
}

// Reads an exit and appends it, and returns the bytes after it.
#[tactic(auto, unfolding(crate::specs::Finding::exit_at))]
fn add_exit<'a>(exits: &mut Vec<Exit>, bytes: &'a [u8]) -> Result<&'a [u8], ReadFault>
    ensures { Reads (λ rest. (exits.new.items, rest.now)) result
        (made (λ exit. exits.old.items ++ exit ∷ []) (exit_at bytes.now)) }
{
    let (kind, rest) = take_byte(bytes)?;
    let (number, rest) = take_byte(rest)?;
    let exit = exit_of(kind, number)?;
    push_exit(exits, exit)?;
    Ok(rest)
}

#[tactic(auto, using(crate::proofs::Counting::items_left))]
fn take_each_exit(
    alloc: Global,
    bytes: &[u8],
    count: u16,
) -> Result<(Items<Exit>, &[u8]), ReadFault>
    ensures { Reads (λ x. (x.0, x.1.now)) result (items_at exit_at count [] bytes.now) }
{
    let mut rest = bytes;
    let mut exits = Vec::new(alloc);
    for i in 0..count {
        rest = add_exit(&mut exits, rest)?;
    }
    Ok((Items::new(exits), rest))
}

pub(crate) fn take_exits(alloc: Global, bytes: &[u8]) -> Result<(Items<Exit>, &[u8]), ReadFault>
    ensures { Reads (λ x. (x.0, x.1.now)) result (list_at exit_at bytes.now) }
{
    let (count, rest) = take_two(bytes)?;
    take_each_exit(alloc, rest, count)
}

#[tactic(auto, unfolding(crate::specs::Finding::action_at))]
pub(crate) fn take_action(alloc: Global, bytes: &[u8]) -> Result<(Option<Action>, &[u8]), ReadFault>
    ensures { Reads (λ x. (x.0, x.1.now)) result (action_at bytes.now) }
{
    let (kind, rest) = take_byte(bytes)?;
    match kind {
        0 => Ok((None, rest)),
        1 => {
            let (words, rest) = take_texts(alloc, rest)?;
            Ok((Some(Action::Words(words)), rest))
        }
        2 => {
            let (text, rest) = take_text(alloc, rest)?;
            Ok((Some(Action::Shell(text)), rest))
        }
        _ => Err(ReadFault::BadTable),
    }
}
