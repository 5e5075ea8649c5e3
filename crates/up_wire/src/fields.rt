//! Reads the fields of a payload.
ghost use Rattle.std.specs.Prelude.{◌≡◌, [], option_map};
ghost use Rattle.up_model.specs.Values.{Bytes};
ghost use Rattle.up_wire.specs.Fields.{Reads, byte_at, number_at, text_at, with_variable, if_request, variable_at, variables_at, command_of, wait_of, about_at, request_in};

use crate::fault::WireFault;
use byteorder::{BigEndian, ByteOrder};
use std::alloc::Global;
use up_model::{Command, Request};
use up_text::{Env, Text, TextFault};

fn byte_at(bytes: &[u8]) -> Result<(u8, &[u8]), WireFault>
    ensures { Reads (λ x. (x.0, x.1.now)) result (byte_at bytes.now) }
{
    match bytes.split_first() {
        Some((byte, rest)) => Ok((*byte, rest)),
        None => Err(WireFault::BadFrame),
    }
}

fn number_at(bytes: &[u8]) -> Result<(u16, &[u8]), WireFault>
    ensures { Reads (λ x. (x.0, x.1.now)) result (number_at 2 bytes.now) }
{
    if bytes.len() < 2 {
        return Err(WireFault::BadFrame);
    }
    let number = BigEndian::read_u16(bytes);
    Ok((number, &bytes[2..]))
}

#[tactic(auto, unfolding(crate::specs::Fields::text_at), using(crate::proofs::Texts::is_text, crate::proofs::Texts::is_no_text))]
fn text_at(bytes: &[u8]) -> Result<(&str, &[u8]), WireFault>
    ensures { Reads (λ x. (x.0.now, x.1.now)) result (text_at bytes.now) }
{
    let (count, rest) = number_at(bytes)?;
    let count = usize::from(count);
    if rest.len() < count {
        return Err(WireFault::BadFrame);
    }
    let (text, rest) = rest.split_at(count);
    match str::from_utf8(text) {
        Ok(text) => Ok((text, rest)),
        Err(_) => Err(WireFault::BadFrame),
    }
}

fn command_of(byte: u8) -> Result<Command, WireFault>
    ensures { Reads (λ x. x) result (command_of byte) }
{
    match byte {
        1 => Ok(Command::Start),
        2 => Ok(Command::Stop),
        3 => Ok(Command::Restart),
        4 => Ok(Command::Status),
        5 => Ok(Command::List),
        6 => Ok(Command::Emit),
        7 => Ok(Command::Reload),
        8 => Ok(Command::ReloadConfiguration),
        9 => Ok(Command::Version),
        _ => Err(WireFault::BadFrame),
    }
}

fn wait_of(byte: u8) -> Result<bool, WireFault>
    ensures { Reads (λ x. x) result (wait_of byte) }
{
    match byte {
        0 => Ok(true),
        1 => Ok(false),
        _ => Err(WireFault::BadFrame),
    }
}

// Sets a key; a key that is set already is a fault of the frame.
fn set(vars: &mut Env, key: &str, value: &str) -> Result<(), WireFault>
    ensures { (rest : Bytes)
        → Reads (λ _. (vars.new, rest)) result (with_variable vars.old key.now (value.now, rest)) }
{
    if vars.get(key).is_some() {
        return Err(WireFault::BadFrame);
    }
    match vars.set(key, value) {
        Ok(()) => Ok(()),
        Err(TextFault::Memory) => Err(WireFault::Memory),
        Err(_) => Err(WireFault::BadFrame),
    }
}

#[tactic(auto, unfolding(crate::specs::Fields::variable_at))]
fn variable_at<'a>(vars: &mut Env, bytes: &'a [u8]) -> Result<&'a [u8], WireFault>
    ensures { Reads (λ rest. (vars.new, rest.now)) result (variable_at vars.old bytes.now) }
{
    let (key, rest) = text_at(bytes)?;
    let (value, rest) = text_at(rest)?;
    set(vars, key, value)?;
    Ok(rest)
}

#[tactic(auto, using(crate::proofs::Counts::variables_left))]
fn variables_at<'a>(vars: &mut Env, count: u16, bytes: &'a [u8]) -> Result<&'a [u8], WireFault>
    ensures { Reads (λ rest. (vars.new, rest.now)) result (variables_at count vars.old bytes.now) }
{
    let mut rest = bytes;
    for i in 0..count {
        rest = variable_at(vars, rest)?;
    }
    Ok(rest)
}

fn whole(
    alloc: Global,
    command: Command,
    wait: bool,
    name: &str,
    vars: Env,
) -> Result<Request, WireFault>
    ensures { Reads (λ x. x) result (if_request command wait name.now (vars, [])) }
{
    match Text::from_str(alloc, name) {
        Ok(name) => match Request::new(command, wait, name, vars) {
            Some(request) => Ok(request),
            None => Err(WireFault::BadFrame),
        },
        Err(refused) => {
            drop(vars);
            Err(WireFault::from(refused))
        }
    }
}

// The request of these parts, if they are one and nothing follows them.
fn request_of(
    alloc: Global,
    command: Command,
    wait: bool,
    name: &str,
    vars: Env,
    rest: &[u8],
) -> Result<Request, WireFault>
    ensures { Reads (λ x. x) result (if_request command wait name.now (vars, rest.now)) }
{
    if rest.is_empty() {
        whole(alloc, command, wait, name, vars)
    } else {
        drop(vars);
        Err(WireFault::BadFrame)
    }
}

#[tactic(auto, unfolding(crate::specs::Fields::about_at))]
fn about_at(alloc: Global, command: Command, wait: bool, bytes: &[u8]) -> Result<Request, WireFault>
    ensures { Reads (λ x. x) result (about_at command wait bytes.now) }
{
    let (name, rest) = text_at(bytes)?;
    let (count, rest) = number_at(rest)?;
    let mut vars = Env::new(alloc);
    let rest = variables_at(&mut vars, count, rest)?;
    request_of(alloc, command, wait, name, vars, rest)
}

/// Reads the request in a payload.
#[tactic(auto, unfolding(crate::specs::Fields::request_in))]
pub(crate) fn request_in(alloc: Global, payload: &[u8]) -> Result<Request, WireFault>
    ensures { Reads (λ x. x) result (request_in payload.now) }
{
    let (command, rest) = byte_at(payload)?;
    let command = command_of(command)?;
    let (wait, rest) = byte_at(rest)?;
    let wait = wait_of(wait)?;
    about_at(alloc, command, wait, rest)
}
