//! A client of the daemon: the requests that have not entered the engine, and the bytes that wait to be written to it.
ghost use Rattle.std.specs.Prelude.{◌≡◌, ◌≤◌, ◌<◌, [], None, IfOk, OnOk, IfSome, length, take, option_map};
ghost use Rattle.up_edge.specs.Connecting.{SameClients};
ghost use Rattle.up_daemon.specs.Hearing.{Hears, Enters, IsAnswered, IsTaken, IsPassedOver, IsReadOnce, IsWrittenOnce, most_waiting};
ghost use Rattle.up_daemon.specs.Peers.{peer_of, is_ready, is_waiting, waits};

use std::alloc::{AllocError, Global};
use up_edge::Door;
use up_model::{Answer, Request};
use up_wire::{Feed, WireFault, write_answer};

/// The maximum number of bytes that one read takes.
pub(crate) const MOST_READ: usize = 4096;

/// A client with this many requests that have not entered the engine is not read.
pub(crate) const MOST_WAITING: usize = 64;

/// A client that is connected.
#[derive(Drop)]
pub(crate) struct Client {
    pub(crate) number: u32,
    // the bytes of a frame that is not whole yet
    pub(crate) feed: Feed,
    // the requests that have not entered the engine, oldest first
    pub(crate) waiting: Vec<Request>,
    // the number of the request that has entered and is not answered
    pub(crate) unanswered: Option<u64>,
    // the bytes that wait to be written
    pub(crate) answers: Vec<u8>,
}

impl Client {
    pub(crate) fn new(alloc: Global, number: u32) -> Self
        ensures number { result.number ≡ number }
        ensures feed { result.feed ≡ record { rest = []; fault = None } }
        ensures waiting { result.waiting.items ≡ [] }
        ensures unanswered { result.unanswered ≡ None }
        ensures answers { result.answers.items ≡ [] }
    {
        Client {
            number,
            feed: Feed::new(alloc),
            waiting: Vec::new(alloc),
            unanswered: None,
            answers: Vec::new(alloc),
        }
    }

    /// Whether its next request may enter: it has one, and none before that is unanswered.
    pub(crate) fn is_ready(&self) -> bool
        ensures { result ≡ is_ready (peer_of self.now) }
    {
        self.unanswered.is_none() && self.waiting.len() > 0
    }

    /// Whether a request of it waits or is unanswered, or bytes wait to be written to it.
    pub(crate) fn is_waiting(&self) -> bool
        ensures { result ≡ is_waiting (peer_of self.now) }
    {
        self.unanswered.is_some() || self.waiting.len() > 0 || self.answers.len() > 0
    }

    /// Whether it has this number, and waits for something.
    pub(crate) fn waits(&self, number: u32) -> bool
        ensures { result ≡ waits number (peer_of self.now) }
    {
        self.number == number && self.is_waiting()
    }

    /// Takes bytes that it sent. False if they break a frame, after which it can't be read any further.
    pub(crate) fn hear(&mut self, piece: &[u8]) -> Result<bool, AllocError>
        ensures { IfOk result (λ whole. Hears whole piece.now self.old self.new) }
    {
        match self.feed.feed(piece) {
            Ok(mut requests) => {
                self.waiting.append(&mut requests)?;
                Ok(true)
            }
            Err(WireFault::Memory) => Err(AllocError),
            Err(WireFault::FrameTooLarge) => Ok(false),
            Err(WireFault::BadFrame) => Ok(false),
            Err(WireFault::BadWord) => Ok(false),
        }
    }

    /// Its next request, which enters under this number, if it may.
    pub(crate) fn enter(&mut self, id: u64) -> Option<Request>
        ensures { Enters id result self.old self.new }
    {
        if !self.is_ready() {
            return None;
        }
        self.unanswered = Some(id);
        Some(self.waiting.remove(0))
    }

    /// Queues the answer if it is that of the client's request. False if not.
    pub(crate) fn answer(&mut self, id: u64, answer: &Answer) -> Result<bool, AllocError>
        ensures { IfOk result (λ taken. IsAnswered id answer.now taken self.old self.new) }
    {
        if self.unanswered != Some(id) {
            return Ok(false);
        }
        write_answer(answer, &mut self.answers)?;
        self.unanswered = None;
        Ok(true)
    }

    // Takes the bytes that a read put at the start of the buffer. False if that is the end, or breaks a frame.
    fn take(&mut self, buffer: &[u8], found: Option<usize>) -> Result<bool, AllocError>
        requires { IfSome found (λ count. count ≤ length buffer.now) }
        ensures { IfOk result (λ stays. IsTaken stays
            (option_map (λ count. take count buffer.now) found) self.old self.new) }
    {
        match found {
            Some(count) => {
                if count == 0 {
                    return Ok(false);
                }
                let stays = self.hear(&buffer[..count])?;
                Ok(stays)
            }
            None => Ok(true),
        }
    }

    /// Reads it once, if it may be read. False if it is to be closed: the read failed, it sends no more, or it broke a frame.
    pub(crate) fn read<D: Door>(&mut self, door: &mut D) -> Result<bool, AllocError>
        ensures limit { IfOk result (λ stays. most_waiting ≤ length self.old.waiting.items
            → IsPassedOver stays self.old self.new (D.calls door.old) (D.calls door.new)) }
        ensures once { IfOk result (λ stays. length self.old.waiting.items < most_waiting
            → IsReadOnce stays self.old self.new (D.calls door.old) (D.calls door.new)) }
        ensures same { OnOk result (self.new.number ≡ self.old.number) }
        ensures connects { OnOk result (SameClients (D.connected door.old) (D.connected door.new)) }
    {
        if self.waiting.len() >= MOST_WAITING {
            return Ok(true);
        }
        let mut piece = [0u8; MOST_READ];
        match door.read(self.number, &mut piece) {
            Ok(found) => {
                let stays = self.take(&piece, found)?;
                Ok(stays)
            }
            Err(_) => Ok(false),
        }
    }

    /// Writes the waiting bytes, in one call, if there are any. False if the write failed.
    pub(crate) fn write<D: Door>(&mut self, door: &mut D) -> Result<bool, AllocError>
        ensures none { IfOk result (λ stays. length self.old.answers.items ≡ 0
            → IsPassedOver stays self.old self.new (D.calls door.old) (D.calls door.new)) }
        ensures once { IfOk result (λ stays. 0 < length self.old.answers.items
            → IsWrittenOnce stays self.old self.new (D.calls door.old) (D.calls door.new)) }
        ensures same { OnOk result (self.new.number ≡ self.old.number) }
        ensures connects { OnOk result (SameClients (D.connected door.old) (D.connected door.new)) }
    {
        if self.answers.len() == 0 {
            return Ok(true);
        }
        match door.write(self.number, &self.answers) {
            Ok(count) => {
                self.answers = self.answers.split_off(count)?;
                Ok(true)
            }
            Err(_) => Ok(false),
        }
    }
}
