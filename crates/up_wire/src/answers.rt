//! Finds the answers in bytes.
ghost use Rattle.std.specs.Prelude.{◌≡◌, ◌≤◌, ◌++◌, ◌∷◌, [], true, false, length, take, Err, IfOk, IfErr, IfSome, IfNone, OnOk};
ghost use Rattle.std.specs.Str.{is_utf8};
ghost use Rattle.up_wire.specs.Fields.{Reads};
ghost use Rattle.up_wire.specs.declared.fault.WireFault.TheVariants.{Memory};
ghost use Rattle.up_model.specs.Values.{Bytes};
ghost use Rattle.up_wire.specs.Answers.{max_chunk, is_chunk, last_in, verdict_of, answer_frames, Opens, IsOpen, AnswerFrames, AnswerBegins, AnswersStop, LiesAhead, KeepsWhole};

use crate::fault::WireFault;
use crate::frames::payload_at;
use std::alloc::Global;
use std::mem;
use up_model::Answer;
use up_text::Text;

/// The length of the text of a full frame, in bytes.
pub const MAX_CHUNK: usize = 65535;

// The text of a full frame, `None` for any other frame.
fn chunk_of(payload: &[u8]) -> Option<&[u8]>
    ensures chunk { IfSome result (λ chunk. (payload.now ≡ 2 ∷ chunk.now) × (length chunk.now ≡ max_chunk)) }
    ensures none { IfNone result (is_chunk payload.now ≡ false) }
{
    match payload.split_first() {
        Some((kind, chunk)) => {
            if *kind == 2 && chunk.len() == MAX_CHUNK {
                Some(chunk)
            } else {
                None
            }
        }
        None => None,
    }
}

fn verdict_of(kind: u8) -> Result<bool, WireFault>
    ensures { Reads (λ x. x) result (verdict_of kind) }
{
    match kind {
        0 => Ok(true),
        1 => Ok(false),
        _ => Err(WireFault::BadFrame),
    }
}

/// The bytes after the full frames of an answer.
pub(crate) enum Ahead<'a> {
    /// No complete frame, but these bytes.
    Open(&'a [u8]),
    /// The payload of a frame that isn't full, and the bytes after it.
    Last(&'a [u8], &'a [u8]),
}

/// Appends the text of the full frames, and returns what is after them.
pub(crate) fn join_full<'a>(text: &mut Vec<u8>, bytes: &'a [u8]) -> Result<Ahead<'a>, WireFault>
    ensures kept { take (length text.old.items) text.new.items ≡ text.old.items }
    ensures whole { KeepsWhole bytes.now result }
    ensures ahead { (total : Bytes) → Opens total text.old.items bytes.now
        → LiesAhead total text.new.items result }
{
    let mut rest = bytes;
    loop {
        let Some((payload, after)) = payload_at(rest)? else {
            return Ok(Ahead::Open(rest));
        };
        let Some(chunk) = chunk_of(payload) else {
            return Ok(Ahead::Last(payload, after));
        };
        text.extend_from_slice(chunk)?;
        rest = after;
    }
}

/// The text of these bytes, in their memory; bytes that aren't UTF-8 become `None`.
#[tactic(auto, using(crate::proofs::Texts::is_text, crate::proofs::Texts::is_no_text))]
fn text_of(bytes: &mut Vec<u8>) -> Option<Text>
    ensures text { IfSome result (λ text. (is_utf8 bytes.old.items ≡ true) × (text ≡ bytes.old.items)
        × (bytes.new.items ≡ [])) }
    ensures none { IfNone result (is_utf8 bytes.old.items ≡ false) }
{
    let alloc = *bytes.allocator();
    match String::from_utf8(mem::replace(bytes, Vec::new(alloc))) {
        Ok(text) => Some(Text::new(text)),
        Err(_) => None,
    }
}

/// The answer that ends with a payload, after the text of its full frames, which becomes part of it; out of memory the text is left as it
/// is.
pub(crate) fn end(text: &mut Vec<u8>, payload: &[u8]) -> Result<Answer, WireFault>
    ensures answer { Reads (λ x. x) result (last_in text.old.items payload.now) }
    ensures taken { OnOk result (text.new.items ≡ []) }
    ensures kept { result ≡ Err Memory → text.new.items ≡ text.old.items }
{
    let Some((kind, last)) = payload.split_first() else {
        return Err(WireFault::BadFrame);
    };
    if !text.is_empty() && last.is_empty() {
        return Err(WireFault::BadFrame);
    }
    let ok = verdict_of(*kind)?;
    text.extend_from_slice(last)?;
    match text_of(text) {
        Some(text) => Ok(Answer { ok, text }),
        None => Err(WireFault::BadFrame),
    }
}

// The first answer, and the bytes after it; `None` if it isn't complete.
fn answer_at(alloc: Global, bytes: &[u8]) -> Result<Option<(Answer, &[u8])>, WireFault>
    ensures none { IfOk result (λ found. IfNone found (IsOpen bytes.now)) }
    ensures some { IfOk result (λ found. IfSome found (λ x. (is_utf8 x.0.text ≡ true)
        × (bytes.now ≡ answer_frames x.0 ++ x.1.now))) }
    ensures fault { IfErr result (λ fault. AnswerBegins fault bytes.now) }
{
    let mut text = Vec::new(alloc);
    match join_full(&mut text, bytes)? {
        Ahead::Open(_) => Ok(None),
        Ahead::Last(payload, after) => match end(&mut text, payload) {
            Ok(answer) => Ok(Some((answer, after))),
            Err(fault) => Err(fault),
        },
    }
}

/// The complete answers, and the bytes after them.
pub(crate) fn answers_in(alloc: Global, bytes: &[u8]) -> Result<(Vec<Answer>, &[u8]), WireFault>
    ensures frames { IfOk result (λ found. AnswerFrames bytes.now found.0.items found.1.now) }
    ensures fault { IfErr result (λ fault. AnswersStop fault bytes.now) }
{
    let mut answers = Vec::new(alloc);
    let mut rest = bytes;
    loop {
        let Some((answer, after)) = answer_at(alloc, rest)? else {
            return Ok((answers, rest));
        };
        answers.push(answer)?;
        rest = after;
    }
}
