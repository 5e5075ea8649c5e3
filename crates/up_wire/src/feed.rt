//! Receives the bytes of a client piece by piece.
ghost use Rattle.std.specs.Prelude.{◌≡◌, ◌++◌, None, Some, Err, [], take, option_map, IfOk, IfErr, IfSome};
ghost use Rattle.up_wire.specs.Fault.{wire_fault};
ghost use Rattle.up_wire.specs.Frames.{Frames};
ghost use Rattle.up_wire.specs.Feeding.{Stops, frame_fault, refused, kept_of};

use crate::fault::{FrameFault, WireFault};
use crate::frames::requests_in;
use std::alloc::Global;
use std::marker::Model;
use up_model::Request;

/// The bytes from a client received so far: those after the last complete frame, or the fault, which is permanent.
#[derive(Drop)]
pub struct Feed {
    rest: Vec<u8>,
    fault: Option<FrameFault>,
}

impl Model for Feed {
    ghost use Rattle.up_wire.specs.Feeding.{FeedValue};

    ghost Value = { FeedValue };

    ghost view = { λ f. record { rest = f.rest.items; fault = f.fault } };
}

/// The requests of the complete frames, and a copy of the bytes after them if there is such a frame.
fn split(alloc: Global, bytes: &[u8]) -> Result<(Vec<Request>, Option<Vec<u8>>), WireFault>
    ensures frames { IfOk result (λ found. Frames bytes.now found.0.items
        (kept_of (option_map (λ rest. rest.items) found.1) bytes.now)) }
    ensures fault { IfErr result (λ fault. Stops fault bytes.now) }
{
    let (requests, rest) = requests_in(alloc, bytes)?;
    if requests.is_empty() {
        return Ok((requests, None));
    }
    let rest = Vec::from_slice(alloc, rest)?;
    Ok((requests, Some(rest)))
}

/// The fault of the frame, `None` if the frame isn't at fault.
pub(crate) fn frame_fault(fault: WireFault) -> Option<FrameFault>
    ensures { result ≡ frame_fault fault }
{
    match fault {
        WireFault::FrameTooLarge => Some(FrameFault::TooLarge),
        WireFault::BadFrame => Some(FrameFault::Malformed),
        WireFault::BadWord | WireFault::Memory => None,
    }
}

impl Feed {
    pub fn new(alloc: Global) -> Self
        ensures { result ≡ record { rest = []; fault = None } }
    {
        Feed {
            rest: Vec::new(alloc),
            fault: None,
        }
    }

    /// Takes the next bytes, and returns the requests that are now complete. Fails with `FrameTooLarge` or `BadFrame` if the frame after
    /// the complete good ones is faulty, and then permanently; out of memory, nothing of the piece is taken.
    pub fn feed(&mut self, piece: &[u8]) -> Result<Vec<Request>, WireFault>
        ensures broken { IfSome self.old.fault (λ fault. (result ≡ Err (wire_fault fault))
            × (self.new ≡ self.old)) }
        ensures taken { IfOk result (λ requests. (self.new.fault ≡ None)
            × Frames (self.old.rest ++ piece.now) requests.items self.new.rest) }
        ensures refused { self.old.fault ≡ None
            → IfErr result (λ fault. Stops fault (self.old.rest ++ piece.now)
            × (self.new ≡ refused fault self.old)) }
    {
        if let Some(fault) = self.fault {
            return Err(WireFault::from(fault));
        }
        let alloc = *self.rest.allocator();
        let before = self.rest.len();
        self.rest.extend_from_slice(piece)?;
        match split(alloc, &self.rest) {
            Ok(found) => {
                let (requests, rest) = found;
                if let Some(rest) = rest {
                    self.rest = rest;
                }
                Ok(requests)
            }
            Err(fault) => {
                self.refuse(before, fault);
                Err(fault)
            }
        }
    }

    // A frame's fault is permanent; out of memory, the bytes before the piece are restored.
    fn refuse(&mut self, before: usize, fault: WireFault)
        ensures { self.new
            ≡ refused fault (record { rest = take before self.old.rest; fault = self.old.fault }) }
    {
        match frame_fault(fault) {
            Some(fault) => {
                self.rest.clear();
                self.fault = Some(fault);
            }
            None => self.rest.truncate(before),
        }
    }
}
