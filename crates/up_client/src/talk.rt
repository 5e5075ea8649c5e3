//! One request and its answer over a stream.
ghost use Rattle.std.specs.Prelude.{◌≡◌, ◌++◌, [], ◌∷◌, None, Some, drop, IfOk, MatchOption};
ghost use Rattle.up_model.specs.Values.{Bytes};
ghost use Rattle.up_client.specs.Asking.{BeginsWith, Hears};

use std::alloc::Global;
use std::io;
use std::io::{ErrorKind, Read, Write};
use thiserror::Error;
use up_model::Answer;
use up_wire::{AnswerFeed, WireFault};

/// The greatest number of reads before the client gives up.
pub const MAX_READS: u32 = 1_048_576;

const READ_SIZE: usize = 65_536;

/// The reason why there is no answer.
#[derive(Clone, Copy, Debug, PartialEq, Eq, Error)]
pub enum TalkFault {
    #[error("the connection is lost")]
    Lost,
    #[error("out of memory")]
    Memory,
}

fn fault_of(error: &io::Error) -> TalkFault {
    if error.kind() == ErrorKind::OutOfMemory {
        TalkFault::Memory
    } else {
        TalkFault::Lost
    }
}

// The first answer, if there is one.
fn first_of(mut answers: Vec<Answer>) -> Option<Answer>
    ensures { MatchOption result (answers.items ≡ []) (λ first. answers.items
        ≡ first ∷ drop 1 answers.items) }
{
    if answers.is_empty() {
        return None;
    }
    Some(answers.remove(0))
}

// The first answer that is complete after these bytes.
fn take(feed: &mut AnswerFeed, piece: &[u8]) -> Result<Option<Answer>, TalkFault>
    ensures { feed.old.fault ≡ None → IfOk result (λ found. (feed.new.fault ≡ None)
        × Hears (feed.old.rest ++ piece.now) feed.new.rest found) }
{
    match feed.feed(piece) {
        Ok(answers) => Ok(first_of(answers)),
        Err(WireFault::Memory) => Err(TalkFault::Memory),
        Err(_) => Err(TalkFault::Lost),
    }
}

// The first answer that is complete after one more read. An interrupted read returns `None`.
fn read_once<S: Read>(
    stream: &mut S,
    buffer: &mut [u8],
    feed: &mut AnswerFeed,
) -> Result<Option<Answer>, TalkFault>
    ensures { (bytes : Bytes) → S.remaining stream.old ≡ Some bytes → feed.old.fault ≡ None
        → IfOk result (λ found. (left : Bytes) × (S.remaining stream.new ≡ Some left)
        × (feed.new.fault ≡ None) × Hears (feed.old.rest ++ bytes) (feed.new.rest ++ left) found) }
{
    match stream.read(buffer) {
        Ok(0) => Err(TalkFault::Lost),
        Ok(count) => take(feed, &buffer[..count]),
        Err(error) => {
            if error.kind() == ErrorKind::Interrupted {
                Ok(None)
            } else {
                Err(fault_of(&error))
            }
        }
    }
}

/// Reads the first answer, with at most `MAX_READS` reads.
pub fn hear<S: Read>(alloc: Global, stream: &mut S) -> Result<Answer, TalkFault>
    ensures { (bytes : Bytes) → S.remaining stream.old ≡ Some bytes → IfOk result (BeginsWith bytes) }
{
    let mut feed = AnswerFeed::new(alloc);
    let mut buffer = match Vec::from_elem(alloc, 0u8, READ_SIZE) {
        Ok(buffer) => buffer,
        Err(_) => return Err(TalkFault::Memory),
    };
    for i in 0..MAX_READS {
        if let Some(answer) = read_once(stream, &mut buffer, &mut feed)? {
            return Ok(answer);
        }
    }
    Err(TalkFault::Lost)
}

/// Writes a request's frame and reads the answer.
pub fn talk<S: Read + Write>(
    alloc: Global,
    stream: &mut S,
    frame: &[u8],
) -> Result<Answer, TalkFault> {
    if let Err(error) = stream.write_all(frame) {
        return Err(fault_of(&error));
    }
    hear(alloc, stream)
}
