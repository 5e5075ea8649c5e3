//! Writes requests and answers as frames.
ghost use Rattle.std.specs.Prelude.{◌≡◌, ◌≤◌, ◌<◌, ◌+◌, ◌++◌, ◌∷◌, nat_le, length, OnOk, OnErr, IfErr, if◌then◌else◌};
ghost use Rattle.std.specs.List.{flat_map};
ghost use Rattle.byteorder.specs.Endian.{big_bytes};
ghost use Rattle.up_wire.specs.declared.fault.WireFault.TheVariants.{FrameTooLarge, Memory};
ghost use Rattle.up_wire.specs.Frames.{max_payload, short_text, command_number, wait_number, variable, payload_of, request_frame, frame};
ghost use Rattle.up_wire.specs.Answers.{max_chunk, verdict_number, frames_of, answer_frames};

use crate::answers::MAX_CHUNK;
use crate::fault::WireFault;
use crate::frames::MAX_PAYLOAD;
use byteorder::{BigEndian, ByteOrder};
use std::alloc::AllocError;
use up_model::{Answer, Command, Request};
use up_text::Env;

fn command_number(command: Command) -> u8
    ensures { result ≡ command_number command }
{
    match command {
        Command::Start => 1,
        Command::Stop => 2,
        Command::Restart => 3,
        Command::Status => 4,
        Command::List => 5,
        Command::Emit => 6,
        Command::Reload => 7,
        Command::ReloadConfiguration => 8,
        Command::Version => 9,
    }
}

fn wait_number(wait: bool) -> u8
    ensures { result ≡ wait_number wait }
{
    if wait { 0 } else { 1 }
}

fn push_number(out: &mut Vec<u8>, number: u16) -> Result<(), AllocError>
    ensures { OnOk result (out.new.items ≡ out.old.items ++ big_bytes 2 number) }
{
    let mut bytes = [0; 2];
    BigEndian::write_u16(&mut bytes, number);
    out.extend_from_slice(&bytes)
}

fn push_length(out: &mut Vec<u8>, number: u32) -> Result<(), AllocError>
    ensures { OnOk result (out.new.items ≡ out.old.items ++ big_bytes 4 number) }
{
    let mut bytes = [0; 4];
    BigEndian::write_u32(&mut bytes, number);
    out.extend_from_slice(&bytes)
}

fn push_text(out: &mut Vec<u8>, text: &str) -> Result<(), AllocError>
    requires { length text.now < 65536 }
    ensures { OnOk result (out.new.items ≡ out.old.items ++ short_text text.now) }
{
    push_number(out, text.len() as u16)?;
    out.extend_from_slice(text.as_bytes())
}

fn push_variable(out: &mut Vec<u8>, key: &str, value: &str) -> Result<(), AllocError>
    requires key { length key.now < 65536 }
    requires value { length value.now < 65536 }
    ensures { OnOk result (out.new.items ≡ out.old.items ++ variable (key.now, value.now)) }
{
    push_text(out, key)?;
    push_text(out, value)
}

#[tactic(auto, using(crate::proofs::Sizes::variable_fits, crate::proofs::Sizes::one_more))]
fn push_variables(out: &mut Vec<u8>, vars: &Env) -> Result<(), AllocError>
    requires { length (flat_map variable vars.now) < 65536 }
    ensures { OnOk result (out.new.items ≡ out.old.items ++ flat_map variable vars.now) }
{
    for i in 0..vars.len() {
        let (key, value) = vars.at(i);
        push_variable(out, key, value)?;
    }
    Ok(())
}

// Whether the variables take at most this many bytes.
fn are_within(vars: &Env, most: usize) -> bool
    requires { most ≤ max_payload }
    ensures { result ≡ nat_le (length (flat_map variable vars.now)) most }
{
    let mut size = 0;
    for i in 0..vars.len() {
        let (key, value) = vars.at(i);
        if key.len() > most {
            return false;
        }
        if value.len() > most {
            return false;
        }
        size += 4 + key.len() + value.len();
        if size > most {
            return false;
        }
    }
    true
}

#[tactic(auto, using(crate::proofs::Sizes::is_within))]
fn are_parts_within(name: &str, vars: &Env) -> bool
    ensures { result ≡ nat_le (6 + length name.now + length (flat_map variable vars.now)) max_payload }
{
    let length = name.len();
    length <= MAX_PAYLOAD - 6 && are_within(vars, MAX_PAYLOAD - 6 - length)
}

// Whether the request fits into a payload.
fn is_within(request: &Request) -> bool
    ensures { result ≡ nat_le (length (payload_of request.now)) max_payload }
{
    are_parts_within(request.name.as_str(), &request.vars)
}

#[tactic(auto, using(crate::proofs::Payloads::vars_within))]
fn push_count(out: &mut Vec<u8>, vars: &Env) -> Result<(), AllocError>
    requires { length (flat_map variable vars.now) < 65536 }
    ensures { OnOk result (out.new.items ≡ out.old.items ++ big_bytes 2 (length vars.now)) }
{
    push_number(out, vars.len() as u16)
}

#[tactic(auto, unfolding(crate::specs::Frames::payload_of))]
fn push_payload(out: &mut Vec<u8>, request: &Request) -> Result<(), AllocError>
    requires { length (payload_of request.now) ≤ max_payload }
    ensures { OnOk result (out.new.items ≡ out.old.items ++ payload_of request.now) }
{
    out.push(command_number(request.command))?;
    out.push(wait_number(request.wait))?;
    push_text(out, request.name.as_str())?;
    push_count(out, &request.vars)?;
    push_variables(out, &request.vars)
}

#[tactic(auto, unfolding(crate::specs::Frames::request_frame))]
fn append(request: &Request, out: &mut Vec<u8>) -> Result<(), AllocError>
    requires { length (payload_of request.now) ≤ max_payload }
    ensures ok { OnOk result (out.new.items ≡ out.old.items ++ request_frame request.now) }
    ensures err { OnErr result (out.new.items ≡ out.old.items) }
{
    let alloc = *out.allocator();
    let mut payload = Vec::new(alloc);
    push_payload(&mut payload, request)?;
    let mut bytes = Vec::new(alloc);
    push_length(&mut bytes, payload.len() as u32)?;
    bytes.extend_from_slice(&payload)?;
    out.extend_from_slice(&bytes)
}

/// Appends the frame of a request. Fails with `FrameTooLarge` if it doesn't fit into one; a failure appends nothing.
pub fn write_request(request: &Request, out: &mut Vec<u8>) -> Result<(), WireFault>
    ensures ok { OnOk result ((length (payload_of request.now) ≤ max_payload)
        × (out.new.items ≡ out.old.items ++ request_frame request.now)) }
    ensures refused { IfErr result (λ fault. fault
        ≡ (if nat_le (length (payload_of request.now)) max_payload then Memory else FrameTooLarge)) }
    ensures unchanged { OnErr result (out.new.items ≡ out.old.items) }
{
    if !is_within(request) {
        return Err(WireFault::FrameTooLarge);
    }
    append(request, out)?;
    Ok(())
}

fn push_frame(out: &mut Vec<u8>, kind: u8, text: &[u8]) -> Result<(), AllocError>
    requires { length text.now ≤ max_chunk }
    ensures { OnOk result (out.new.items ≡ out.old.items ++ frame (kind ∷ text.now)) }
{
    push_length(out, text.len() as u32 + 1)?;
    out.push(kind)?;
    out.extend_from_slice(text)
}

fn verdict_number(ok: bool) -> u8
    ensures { result ≡ verdict_number ok }
{
    if ok { 0 } else { 1 }
}

#[tactic(auto, using(crate::proofs::Chunks::last_frame))]
fn push_frames(out: &mut Vec<u8>, ok: bool, text: &[u8]) -> Result<(), AllocError>
    ensures { OnOk result (out.new.items ≡ out.old.items ++ frames_of ok text.now) }
{
    let mut rest = text;
    while rest.len() > MAX_CHUNK {
        let (chunk, after) = rest.split_at(MAX_CHUNK);
        push_frame(out, 2, chunk)?;
        rest = after;
    }
    push_frame(out, verdict_number(ok), rest)
}

/// Appends the frames of an answer. A failure appends nothing.
pub fn write_answer(answer: &Answer, out: &mut Vec<u8>) -> Result<(), AllocError>
    ensures ok { OnOk result (out.new.items ≡ out.old.items ++ answer_frames answer.now) }
    ensures unchanged { OnErr result (out.new.items ≡ out.old.items) }
{
    let mut bytes = Vec::new(*out.allocator());
    push_frames(&mut bytes, answer.ok, answer.text.as_str().as_bytes())?;
    out.extend_from_slice(&bytes)?;
    Ok(())
}
