//! Finds the frames in bytes, and the requests in them.
ghost use Rattle.std.specs.Prelude.{◌≡◌, ◌≤◌, ◌<◌, ◌++◌, true, length, IfOk, IfErr, IfSome, IfNone};
ghost use Rattle.byteorder.specs.Endian.{big_number};
ghost use Rattle.up_wire.specs.declared.fault.FrameFault.TheVariants.{TooLarge};
ghost use Rattle.up_wire.specs.Frames.{max_payload, frame, is_partial, request_frame, IsSendable, IsFaulty, Frames};
ghost use Rattle.up_wire.specs.Feeding.{Begins, Stops};

use crate::fault::{FrameFault, WireFault};
use crate::fields::request_in;
use byteorder::{BigEndian, ByteOrder};
use std::alloc::Global;
use up_model::Request;

/// The greatest length of a payload, in bytes.
pub const MAX_PAYLOAD: usize = 65536;

/// The first frame's payload, and the bytes after the frame; `None` if it isn't complete.
pub(crate) fn payload_at(bytes: &[u8]) -> Result<Option<(&[u8], &[u8])>, FrameFault>
    ensures none { IfOk result (λ found. IfNone found (is_partial bytes.now ≡ true)) }
    ensures some { IfOk result (λ found. IfSome found (λ x. (length x.0.now ≤ max_payload)
        × (bytes.now ≡ frame x.0.now ++ x.1.now))) }
    ensures fault { IfErr result (λ fault. (fault ≡ TooLarge) × IsFaulty TooLarge bytes.now) }
{
    if bytes.len() < 4 {
        return Ok(None);
    }
    let (head, rest) = bytes.split_at(4);
    let length = BigEndian::read_u32(head) as usize;
    if length > MAX_PAYLOAD {
        return Err(FrameFault::TooLarge);
    }
    if rest.len() < length {
        return Ok(None);
    }
    Ok(Some(rest.split_at(length)))
}

/// The request of the first frame, and the bytes after the frame; `None` if it isn't complete.
fn request_at(alloc: Global, bytes: &[u8]) -> Result<Option<(Request, &[u8])>, WireFault>
    ensures none { IfOk result (λ found. IfNone found (is_partial bytes.now ≡ true)) }
    ensures some { IfOk result (λ found. IfSome found (λ x. IsSendable x.0
        × (bytes.now ≡ request_frame x.0 ++ x.1.now))) }
    ensures fault { IfErr result (λ fault. Begins fault bytes.now) }
{
    let Some((payload, rest)) = payload_at(bytes)? else {
        return Ok(None);
    };
    match request_in(alloc, payload) {
        Ok(request) => Ok(Some((request, rest))),
        Err(fault) => Err(fault),
    }
}

/// The requests of the complete frames, and the bytes after them.
pub(crate) fn requests_in(alloc: Global, bytes: &[u8]) -> Result<(Vec<Request>, &[u8]), WireFault>
    ensures frames { IfOk result (λ found. Frames bytes.now found.0.items found.1.now) }
    ensures fault { IfErr result (λ fault. Stops fault bytes.now) }
{
    let mut requests = Vec::new(alloc);
    let mut rest = bytes;
    loop {
        let Some((request, after)) = request_at(alloc, rest)? else {
            return Ok((requests, rest));
        };
        requests.push(request)?;
        rest = after;
    }
}
