//! Streams that are cut, and frames of which a byte is altered.
use crate::parts::expect;
use crate::wire::frames::{START, STATUS};
use std::alloc::Global;
use std::test::Fail;
use up_model::{Answer, Request};
use up_text::Text;
use up_wire::{AnswerFeed, Feed, WireFault, write_answer, write_request};

// Ten frames, of each command and of variables: `start a`, `stop --no-wait a`, `restart a`, `status ab`, `list`, `emit go X=1`, `reload a`,
// `reload-configuration`, `version` and `start a X= Y=2`.
const FRAMES: &'static [u8] = b"\
    \0\0\0\x07\x01\0\0\x01a\0\0\
    \0\0\0\x07\x02\x01\0\x01a\0\0\
    \0\0\0\x07\x03\0\0\x01a\0\0\
    \0\0\0\x08\x04\0\0\x02ab\0\0\
    \0\0\0\x06\x05\0\0\0\0\0\
    \0\0\0\x0e\x06\0\0\x02go\0\x01\0\x01X\0\x011\
    \0\0\0\x07\x07\0\0\x01a\0\0\
    \0\0\0\x06\x08\0\0\0\0\0\
    \0\0\0\x06\x09\0\0\0\0\0\
    \0\0\0\x12\x01\0\0\x01a\0\x02\0\x01X\0\0\0\x01Y\0\x012";

// Appends the frames of requests.
fn rewrite(requests: &[Request], out: &mut Vec<u8>) -> Result<(), WireFault> {
    for request in requests {
        write_request(request, out)?;
    }
    Ok(())
}

fn rewrite_answers(answers: &[Answer], out: &mut Vec<u8>) -> Result<(), WireFault> {
    for answer in answers {
        write_answer(answer, out)?;
    }
    Ok(())
}

// Appends the frames of the requests that are whole with these bytes. Large values are dropped by a call, here and below: the prover would
// go through each field of what a scope drops.
fn feed(feed: &mut Feed, bytes: &[u8], out: &mut Vec<u8>) -> Result<(), WireFault> {
    let requests = feed.feed(bytes)?;
    let written = rewrite(requests.as_slice(), out);
    drop(requests);
    written
}

fn feed_answers(feed: &mut AnswerFeed, bytes: &[u8], out: &mut Vec<u8>) -> Result<(), WireFault> {
    let answers = feed.feed(bytes)?;
    let written = rewrite_answers(answers.as_slice(), out);
    drop(answers);
    written
}

// The frames of the requests of two pieces.
fn feed_two(
    alloc: Global,
    first: &[u8],
    second: &[u8],
    out: &mut Vec<u8>,
) -> Result<(), WireFault> {
    let mut its = Feed::new(alloc);
    let fed = match feed(&mut its, first, out) {
        Ok(()) => feed(&mut its, second, out),
        Err(fault) => Err(fault),
    };
    drop(its);
    fed
}

// Whether a cut leaves the requests.
fn is_left(alloc: Global, stream: &[u8], cut: usize, out: &mut Vec<u8>) -> Result<bool, WireFault> {
    let Some((first, second)) = stream.split_at_checked(cut) else {
        return Ok(false);
    };
    out.clear();
    feed_two(alloc, first, second, out)?;
    Ok(out.as_slice() == stream)
}

fn check_cuts(alloc: Global, stream: &[u8], out: &mut Vec<u8>) -> Result<(), Fail> {
    for cut in 0..=stream.len() {
        if !is_left(alloc, stream, cut, out)? {
            return Err(Fail::from(cut));
        }
    }
    Ok(())
}

#[test]
fn every_cut_of_ten_frames_leaves_the_requests(rt: HostRuntime) -> Result<(), Fail> {
    if FRAMES.len() != 126 {
        return Err(Fail::from("the frames have not 126 bytes"));
    }
    let mut out = Vec::new(rt.alloc());
    let checked = check_cuts(rt.alloc(), FRAMES, &mut out);
    drop(out);
    checked
}

// Whether the bytes were refused as frames, or are the frames of what was read and a rest.
fn is_sound(fed: Result<(), WireFault>, bytes: &[u8], out: &[u8]) -> bool {
    match fed {
        Ok(()) => bytes.starts_with(out),
        Err(fault) => fault == WireFault::FrameTooLarge || fault == WireFault::BadFrame,
    }
}

// Appends the frames of the answers of pieces of so many bytes.
fn feed_pieces(
    its: &mut AnswerFeed,
    bytes: &[u8],
    size: usize,
    out: &mut Vec<u8>,
) -> Result<(), WireFault> {
    let mut rest = bytes;
    for _ in 0..bytes.len() {
        if rest.is_empty() {
            return Ok(());
        }
        let (piece, after) = match rest.split_at_checked(size) {
            Some(parts) => parts,
            None => (rest, &rest[..0]),
        };
        feed_answers(its, piece, out)?;
        rest = after;
    }
    Ok(())
}

fn feed_in_pieces(
    alloc: Global,
    bytes: &[u8],
    size: usize,
    out: &mut Vec<u8>,
) -> Result<(), WireFault> {
    let mut its = AnswerFeed::new(alloc);
    let fed = feed_pieces(&mut its, bytes, size, out);
    drop(its);
    fed
}

fn reads_soundly(alloc: Global, bytes: &[u8], answers: bool, out: &mut Vec<u8>) -> bool {
    out.clear();
    let fed = if answers {
        feed_in_pieces(alloc, bytes, bytes.len(), out)
    } else {
        feed_two(alloc, bytes, b"", out)
    };
    is_sound(fed, bytes, out.as_slice())
}

// Whether each byte at a place of a frame is refused or read as it stands.
fn is_altered(
    alloc: Global,
    frame: &mut [u8],
    place: usize,
    answers: bool,
    out: &mut Vec<u8>,
) -> bool {
    if place >= frame.len() {
        return false;
    }
    let kept = frame[place];
    for value in 0..=255u8 {
        frame[place] = value;
        if !reads_soundly(alloc, frame, answers, out) {
            return false;
        }
    }
    frame[place] = kept;
    true
}

// Fails with the first place at which a byte isn't.
fn check_bytes(
    alloc: Global,
    frame: &mut [u8],
    answers: bool,
    out: &mut Vec<u8>,
) -> Result<(), Fail> {
    for place in 0..frame.len() {
        if !is_altered(alloc, frame, place, answers, out) {
            return Err(Fail::from(place));
        }
    }
    Ok(())
}

fn check_frame(alloc: Global, frame: &[u8], answers: bool) -> Result<(), Fail> {
    let mut frame = Vec::from_slice(alloc, frame)?;
    let mut out = Vec::new(alloc);
    let checked = check_bytes(alloc, frame.as_mut_slice(), answers, &mut out);
    drop(frame);
    drop(out);
    checked
}

#[test]
fn an_altered_byte_is_refused_or_read_as_it_stands(rt: HostRuntime) -> Result<(), Fail> {
    check_frame(rt.alloc(), START, false)?;
    check_frame(rt.alloc(), STATUS, true)
}

// A text of two full frames and three bytes more.
fn long_answer(alloc: Global) -> Result<Answer, WireFault> {
    let bytes = Vec::from_elem(alloc, b'x', 131_073)?;
    match String::from_utf8(bytes) {
        Ok(text) => Ok(Answer {
            ok: true,
            text: Text::new(text),
        }),
        Err(_) => Err(WireFault::BadFrame),
    }
}

fn write_long(alloc: Global, bytes: &mut Vec<u8>) -> Result<(), WireFault> {
    let answer = long_answer(alloc)?;
    let written = write_answer(&answer, bytes);
    drop(answer);
    written?;
    Ok(bytes.extend_from_slice(STATUS)?)
}

fn is_same_in_pieces(
    alloc: Global,
    bytes: &[u8],
    size: usize,
    out: &mut Vec<u8>,
) -> Result<bool, WireFault> {
    out.clear();
    feed_in_pieces(alloc, bytes, size, out)?;
    Ok(out.as_slice() == bytes)
}

fn is_long_the_same(
    alloc: Global,
    bytes: &mut Vec<u8>,
    out: &mut Vec<u8>,
) -> Result<bool, WireFault> {
    write_long(alloc, bytes)?;
    let whole = is_same_in_pieces(alloc, bytes.as_slice(), 1_000_000, out)?;
    let pieces = is_same_in_pieces(alloc, bytes.as_slice(), 4_096, out)?;
    Ok(whole && pieces && bytes.len() == 131_107)
}

#[test]
fn a_long_answer_is_the_same_in_pieces(rt: HostRuntime) -> Result<(), Fail> {
    let mut bytes = Vec::new(rt.alloc());
    let mut out = Vec::new(rt.alloc());
    let same = is_long_the_same(rt.alloc(), &mut bytes, &mut out);
    drop(bytes);
    drop(out);
    expect("whole and in pieces", same?)
}
