//! Receives the bytes of init piece by piece.
ghost use Rattle.std.specs.Prelude.{◌≡◌, ◌++◌, ◌∷◌, None, Some, Err, [], take, drop, length, IfOk, IfErr, IfSome};
ghost use Rattle.up_wire.specs.declared.fault.WireFault.TheVariants.{Memory};
ghost use Rattle.up_wire.specs.Fault.{wire_fault};
ghost use Rattle.up_model.specs.Values.{Bytes};
ghost use Rattle.up_wire.specs.Answers.{AnswerFrames, AnswersStop, AreFull, EndsWith, Opens, pending};
ghost use Rattle.up_wire.specs.Feeding.{refused};

use crate::answers::{Ahead, answers_in, end, join_full};
use crate::fault::{FrameFault, WireFault};
use crate::feed::frame_fault;
use std::alloc::Global;
use std::marker::Model;
use up_model::Answer;

/// The bytes from init received so far: those after the last complete answer, or the fault, which is permanent.
#[derive(Drop)]
pub struct AnswerFeed {
    // The text of the full frames of an incomplete answer, joined once.
    text: Vec<u8>,
    // The bytes after them.
    rest: Vec<u8>,
    fault: Option<FrameFault>,
}

impl Model for AnswerFeed {
    ghost use Rattle.up_wire.specs.Answers.{AreFull, pending};
    ghost use Rattle.up_wire.specs.Feeding.{FeedValue};

    ghost Value = { FeedValue };

    ghost view = { λ f. record { rest = pending f.text.items f.rest.items; fault = f.fault } };

    ghost invariant = { λ f. AreFull f.text.items };
}

// The answers of the complete frames, and a copy of the bytes after them.
fn split(alloc: Global, bytes: &[u8]) -> Result<(Vec<Answer>, Vec<u8>), WireFault>
    ensures frames { IfOk result (λ found. AnswerFrames bytes.now found.0.items found.1.items) }
    ensures fault { IfErr result (λ fault. AnswersStop fault bytes.now) }
{
    let (answers, rest) = answers_in(alloc, bytes)?;
    let rest = Vec::from_slice(alloc, rest)?;
    Ok((answers, rest))
}

// The same after a first answer.
fn split_after(
    alloc: Global,
    first: Answer,
    bytes: &[u8],
) -> Result<(Vec<Answer>, Vec<u8>), WireFault>
    ensures frames { IfOk result (λ found. (found.0.items ≡ first ∷ drop 1 found.0.items)
        × AnswerFrames bytes.now (drop 1 found.0.items) found.1.items) }
    ensures fault { IfErr result (λ fault. AnswersStop fault bytes.now) }
{
    let (mut answers, rest) = split(alloc, bytes)?;
    answers.insert(0, first)?;
    Ok((answers, rest))
}

// The answer that ends with a payload after the text of its full frames, those of the bytes after it, and a copy of what is left.
fn split_from(
    alloc: Global,
    text: &[u8],
    payload: &[u8],
    after: &[u8],
) -> Result<(Vec<Answer>, Vec<u8>), WireFault>
    ensures frames { (total : Bytes) → EndsWith total text.now payload.now after.now
        → IfOk result (λ found. AnswerFrames total found.0.items found.1.items) }
    ensures fault { (total : Bytes) → EndsWith total text.now payload.now after.now
        → IfErr result (λ fault. AnswersStop fault total) }
{
    // A copy, so that the text stays if memory runs out. It is empty for all but long answers.
    let mut joined = Vec::from_slice(alloc, text)?;
    match end(&mut joined, payload) {
        Ok(first) => match split_after(alloc, first, after) {
            Ok(found) => Ok(found),
            Err(fault) => Err(fault),
        },
        Err(fault) => Err(fault),
    }
}

// The answers of the text of full frames and of the bytes after them; what isn't a complete answer stays.
fn take_answers(
    alloc: Global,
    text: &mut Vec<u8>,
    rest: &mut Vec<u8>,
) -> Result<Vec<Answer>, WireFault>
    ensures taken { (total : Bytes) → Opens total text.old.items rest.old.items
        → IfOk result (λ answers. AreFull text.new.items
        × AnswerFrames total answers.items (pending text.new.items rest.new.items)) }
    ensures refused { (total : Bytes) → Opens total text.old.items rest.old.items
        → IfErr result (λ fault. AnswersStop fault total) }
    ensures kept { result ≡ Err Memory → (take (length text.old.items) text.new.items ≡ text.old.items)
        × (rest.new.items ≡ rest.old.items) }
{
    match join_full(text, rest) {
        Ok(Ahead::Open(left)) => {
            if left.len() == rest.len() {
                return Ok(Vec::new(alloc));
            }
            *rest = Vec::from_slice(alloc, left)?;
            Ok(Vec::new(alloc))
        }
        Ok(Ahead::Last(payload, after)) => match split_from(alloc, text, payload, after) {
            Ok(found) => {
                let (answers, left) = found;
                text.clear();
                *rest = left;
                Ok(answers)
            }
            Err(fault) => Err(fault),
        },
        Err(fault) => Err(fault),
    }
}

impl AnswerFeed {
    #[tactic(auto, unfolding(crate::specs::Answers::pending))]
    pub fn new(alloc: Global) -> Self
        ensures { result ≡ record { rest = []; fault = None } }
    {
        AnswerFeed {
            text: Vec::new(alloc),
            rest: Vec::new(alloc),
            fault: None,
        }
    }

    /// Takes the next bytes, and returns the answers that are now complete. Fails with `FrameTooLarge` or `BadFrame` if the frame after the
    /// complete good ones is faulty, and then permanently; out of memory, nothing of the piece is taken.
    pub fn feed(&mut self, piece: &[u8]) -> Result<Vec<Answer>, WireFault>
        ensures broken { IfSome self.old.fault (λ fault. (result ≡ Err (wire_fault fault))
            × (self.new ≡ self.old)) }
        ensures taken { IfOk result (λ answers. (self.new.fault ≡ None)
            × AnswerFrames (self.old.rest ++ piece.now) answers.items self.new.rest) }
        ensures refused { self.old.fault ≡ None
            → IfErr result (λ fault. AnswersStop fault (self.old.rest ++ piece.now)
            × (self.new ≡ refused fault self.old)) }
    {
        if let Some(fault) = self.fault {
            return Err(WireFault::from(fault));
        }
        let alloc = *self.rest.allocator();
        let joined = self.text.len();
        let before = self.rest.len();
        self.rest.extend_from_slice(piece)?;
        match take_answers(alloc, &mut self.text, &mut self.rest) {
            Ok(answers) => Ok(answers),
            Err(fault) => match frame_fault(fault) {
                Some(frame) => {
                    self.text.clear();
                    self.rest.clear();
                    self.fault = Some(frame);
                    Err(fault)
                }
                None => {
                    self.text.truncate(joined);
                    self.rest.truncate(before);
                    Err(fault)
                }
            },
        }
    }
}
