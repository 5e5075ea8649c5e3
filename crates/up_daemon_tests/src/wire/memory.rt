//! Feeds of which a request for memory may be refused: each piece gives what it gives with ample memory, or the feed takes nothing of it.
//!
//! `rt try --test --fail-alloc N -- memory` refuses the Nth request; `bench/faults` goes through all of them with the built tests.
use crate::parts::expect;
use crate::wire::frames::{START, STATUS, TOO_LARGE, UNKNOWN, count};
use std::alloc::Global;
use std::test::Fail;
use up_model::Answer;
use up_wire::{AnswerFeed, Feed, WireFault};

// A piece, and how many frames are whole with it.
type Piece = (&'static [u8], usize);

// Requests that are cut within a length, within a name and between two frames.
const REQUESTS: &'static [Piece] = &[
    (b"\0\0", 0),
    (b"\0\x07\x01\0\0\x01a\0\0\0\0\0\x0e\x06\0\0\x02g", 1),
    (b"o\0\x01\0\x01X\0\x011", 1),
    (START, 1),
    (
        b"\0\0\0\x07\x02\x01\0\x01a\0\0\0\0\0\x06\x09\0\0\0\0\0\0",
        2,
    ),
];

const ANSWERS: &'static [Piece] = &[
    (b"\0\0\0\x0f\0a ", 0),
    (b"stop/waiting", 1),
    (STATUS, 1),
    (b"\0\0\0\x01\0\0\0\0\x03\x01no\0\0", 2),
];

fn feed_requests(feed: &mut Feed, bytes: &[u8]) -> Result<usize, WireFault> {
    Ok(count(feed.feed(bytes)?))
}

fn count_of(answers: Vec<Answer>) -> usize {
    let count = answers.len();
    drop(answers);
    count
}

fn feed_answers(feed: &mut AnswerFeed, bytes: &[u8]) -> Result<usize, WireFault> {
    Ok(count_of(feed.feed(bytes)?))
}

// Whether a piece makes its frames whole. One that was refused memory may be fed once more, and gives then what it would have given at first.
fn takes_requests(feed: &mut Feed, piece: &Piece, again: bool) -> bool {
    let first = feed_requests(feed, piece.0);
    if again && first == Err(WireFault::Memory) {
        return feed_requests(feed, piece.0) == Ok(piece.1);
    }
    first == Ok(piece.1)
}

fn takes_answers(feed: &mut AnswerFeed, piece: &Piece, again: bool) -> bool {
    let first = feed_answers(feed, piece.0);
    if again && first == Err(WireFault::Memory) {
        return feed_answers(feed, piece.0) == Ok(piece.1);
    }
    first == Ok(piece.1)
}

fn takes_all_requests(feed: &mut Feed, pieces: &[Piece], again: bool) -> bool {
    for piece in pieces {
        if !takes_requests(feed, piece, again) {
            return false;
        }
    }
    true
}

fn takes_all_answers(feed: &mut AnswerFeed, pieces: &[Piece], again: bool) -> bool {
    for piece in pieces {
        if !takes_answers(feed, piece, again) {
            return false;
        }
    }
    true
}

fn take_all(alloc: Global, again: bool) -> bool {
    let mut feed = Feed::new(alloc);
    let requests = takes_all_requests(&mut feed, REQUESTS, again);
    drop(feed);
    let mut feed = AnswerFeed::new(alloc);
    let answers = takes_all_answers(&mut feed, ANSWERS, again);
    drop(feed);
    requests && answers
}

// Whether a faulty frame is refused so, and so is what follows, whether memory was refused at first or not.
fn is_faulty(alloc: Global, bytes: &[u8], fault: WireFault) -> bool {
    let mut feed = Feed::new(alloc);
    let first = feed_requests(&mut feed, bytes);
    let second = feed_requests(&mut feed, bytes);
    let third = feed_requests(&mut feed, START);
    drop(feed);
    let is_first = first == Err(fault) || first == Err(WireFault::Memory);
    is_first && second == Err(fault) && third == Err(fault)
}

#[test]
fn always_memory(rt: HostRuntime) -> Result<(), Fail> {
    expect("all are whole", take_all(rt.alloc(), false))
}

#[test]
fn memory_refused(rt: HostRuntime) -> Result<(), Fail> {
    let are_taken = take_all(rt.alloc(), true);
    let too_large = is_faulty(rt.alloc(), TOO_LARGE, WireFault::FrameTooLarge);
    let unknown = is_faulty(rt.alloc(), UNKNOWN, WireFault::BadFrame);
    expect("all are whole or refused", are_taken)?;
    expect("faulty frames are refused", too_large && unknown)
}
