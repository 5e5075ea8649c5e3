//! Frames, byte by byte.
use crate::parts::expect;
use std::alloc::Global;
use std::test::Fail;
use up_model::{Answer, Command, Request};
use up_text::{Env, Text};
use up_wire::{AnswerFeed, Feed, WireFault, write_answer, write_request};

/// The request `start a`.
pub(crate) const START: &'static [u8] = b"\0\0\0\x07\x01\0\0\x01a\0\0";

/// The answer `a stop/waiting`.
pub(crate) const STATUS: &'static [u8] = b"\0\0\0\x0f\0a stop/waiting";

/// The length of a frame that is too large.
pub(crate) const TOO_LARGE: &'static [u8] = b"\0\x01\0\x01";

/// A frame of an unknown command.
pub(crate) const UNKNOWN: &'static [u8] = b"\0\0\0\x01\xff";

fn is_start(requests: &[Request]) -> bool {
    match requests {
        [request] => {
            request.command == Command::Start
                && request.wait
                && request.name.is("a")
                && request.vars.is_empty()
        }
        _ => false,
    }
}

// Large values are moved on or dropped by a call, here and below: the prover would go through each field of what a scope drops.
fn are_start(requests: Vec<Request>) -> bool {
    let is_start = is_start(requests.as_slice());
    drop(requests);
    is_start
}

/// How many requests there are.
pub(crate) fn count(requests: Vec<Request>) -> usize {
    let count = requests.len();
    drop(requests);
    count
}

fn gives_start(feed: &mut Feed, bytes: &[u8]) -> Result<bool, WireFault> {
    Ok(are_start(feed.feed(bytes)?))
}

// Whether the request comes with the last byte and not before.
fn start_comes_last(feed: &mut Feed, bytes: &[u8]) -> Result<bool, WireFault> {
    let Some((last, front)) = bytes.split_last() else {
        return Ok(false);
    };
    for byte in front {
        if count(feed.feed(&[*byte])?) != 0 {
            return Ok(false);
        }
    }
    gives_start(feed, &[*last])
}

#[test]
fn a_request_is_read_whole_and_byte_by_byte(rt: HostRuntime) -> Result<(), Fail> {
    let mut feed = Feed::new(rt.alloc());
    let whole = gives_start(&mut feed, START);
    let by_bytes = start_comes_last(&mut feed, START);
    drop(feed);
    expect("whole", whole?)?;
    expect("byte by byte", by_bytes?)
}

fn start_of(alloc: Global) -> Result<Request, WireFault> {
    let name = Text::from_str(alloc, "a")?;
    match Request::new(Command::Start, true, name, Env::new(alloc)) {
        Some(request) => Ok(request),
        None => Err(WireFault::BadWord),
    }
}

fn write_start(alloc: Global, bytes: &mut Vec<u8>) -> Result<(), WireFault> {
    let request = start_of(alloc)?;
    let written = write_request(&request, bytes);
    drop(request);
    written
}

fn write_status(alloc: Global, bytes: &mut Vec<u8>) -> Result<(), WireFault> {
    let text = Text::from_str(alloc, "a stop/waiting")?;
    let answer = Answer { ok: true, text };
    let written = write_answer(&answer, bytes);
    drop(answer);
    Ok(written?)
}

fn are_status(answers: Vec<Answer>) -> bool {
    let is_status = match answers.as_slice() {
        [answer] => answer.ok && answer.text.is("a stop/waiting"),
        _ => false,
    };
    drop(answers);
    is_status
}

fn reads_status(alloc: Global) -> Result<bool, WireFault> {
    let mut feed = AnswerFeed::new(alloc);
    let answers = feed.feed(STATUS);
    drop(feed);
    Ok(are_status(answers?))
}

// Whether the bytes are these, and are written as they should be.
fn is_written(
    bytes: Vec<u8>,
    written: Result<(), WireFault>,
    wanted: &[u8],
) -> Result<bool, WireFault> {
    let is_wanted = bytes.as_slice() == wanted;
    drop(bytes);
    written?;
    Ok(is_wanted)
}

fn writes_start(alloc: Global) -> Result<bool, WireFault> {
    let mut bytes = Vec::new(alloc);
    let written = write_start(alloc, &mut bytes);
    is_written(bytes, written, START)
}

fn writes_status(alloc: Global) -> Result<bool, WireFault> {
    let mut bytes = Vec::new(alloc);
    let written = write_status(alloc, &mut bytes);
    is_written(bytes, written, STATUS)
}

#[test]
fn a_request_and_an_answer_are_written(rt: HostRuntime) -> Result<(), Fail> {
    expect("a request is written", writes_start(rt.alloc())?)?;
    expect("an answer is written", writes_status(rt.alloc())?)?;
    expect("an answer is read", reads_status(rt.alloc())?)
}

fn has_fault(fed: Result<Vec<Request>, WireFault>, fault: WireFault) -> bool {
    match fed {
        Ok(requests) => {
            drop(requests);
            false
        }
        Err(its) => its == fault,
    }
}

// Whether the bytes are refused so, and then anything that follows.
fn is_refused(alloc: Global, bytes: &[u8], fault: WireFault) -> bool {
    let mut feed = Feed::new(alloc);
    let first = has_fault(feed.feed(bytes), fault);
    let again = has_fault(feed.feed(START), fault);
    drop(feed);
    first && again
}

#[test]
fn faulty_frames_are_refused_for_good(rt: HostRuntime) -> Result<(), Fail> {
    let too_large = is_refused(rt.alloc(), TOO_LARGE, WireFault::FrameTooLarge);
    let unknown = is_refused(rt.alloc(), UNKNOWN, WireFault::BadFrame);
    expect("both are refused", too_large && unknown)
}
