//! The door over a unix socket.
ghost use Rattle.std.specs.Prelude.{◌≡◌, ◌≤◌, ℕ, [], true, false, is_some, length, None, IfOk, IfErr, IfSome, OnOk};
ghost use Rattle.up_edge.specs.Journals.{calls_of};
ghost use Rattle.up_edge.specs.Calls.{no_calls, with_failure};
ghost use Rattle.up_edge.specs.Clients.{has_client};
ghost use Rattle.up_edge.specs.Sockets.{path_refusal, IsOfSystem, SaysWhy};

use crate::buffer::{copy_of, fill, zeros};
use crate::door::Door;
use crate::door_call::DoorCall;
use crate::door_fault::DoorFault;
use crate::journal::Journal;
use crate::passed::Passed;
use crate::socket::{SocketFault, listen, path_refusal};
use mio::net::{UnixListener, UnixStream};
use mio::{Events, Interest, Poll, Token};
use slab::Slab;
use std::alloc::Global;
use std::fs::{File, Files};
use std::io;
use std::io::{ErrorKind, Read, Write};
use std::net::Net;
use std::time::Duration;
use up_text::Items;

/// How many ready sockets one pause takes note of. The others are left for the next.
const MOST_EVENTS: usize = 64;

/// The token of the listener. No client has it, since a client's token fits in 32 bits.
const LISTENER: usize = usize::MAX;

/// A door over a unix socket, whose calls don't wait.
pub struct UnixDoor {
    alloc: Global,
    listener: UnixListener,
    poll: Poll,
    events: Events,
    clients: Slab<UnixStream>,
    // a client of which a read is refused once it finds nothing
    dismissed: Option<u32>,
    // the calls that failed since the record was emptied
    failed: Vec<DoorCall>,
    journal: Journal<Passed>,
}

// Written out, so that what drops a door is proved here once, and not in each crate above.
impl Drop for UnixDoor {
    fn drop(self) {
        let UnixDoor {
            alloc: _,
            listener: _,
            poll: _,
            events: _,
            clients: _,
            dismissed: _,
            failed: _,
            journal: _,
        } = self;
    }
}

// The client that was waiting to be let in, if any.
enum Arrival {
    Client(UnixStream),
    Nobody,
    Failed,
}

// Whether an error only means that there is nothing to do now.
fn is_for_later(error: &io::Error) -> bool {
    matches!(error.kind(), ErrorKind::WouldBlock | ErrorKind::Interrupted)
}

// The waiting client, which is registered with the poll under the token.
fn admit(listener: &UnixListener, poll: &Poll, token: usize) -> Arrival {
    match listener.accept() {
        Ok((stream, _)) => watched(poll, stream, token),
        Err(error) => {
            if is_for_later(&error) {
                Arrival::Nobody
            } else {
                Arrival::Failed
            }
        }
    }
}

fn watched(poll: &Poll, mut stream: UnixStream, token: usize) -> Arrival {
    let both = Interest::READABLE | Interest::WRITABLE;
    match poll.registry().register(&mut stream, Token(token), both) {
        Ok(()) => Arrival::Client(stream),
        Err(_) => Arrival::Failed,
    }
}

// The number of bytes that the client sent; `None` if it sent none yet, unless it is dismissed: then the read is refused.
fn receive(
    stream: &UnixStream,
    bytes: &mut [u8],
    is_dismissed: bool,
) -> Result<Option<usize>, DoorCall>
    ensures within { IfOk result (λ found. IfSome found (λ count. count ≤ length bytes.old)) }
    ensures dismissed { is_dismissed ≡ true → IfOk result (λ found. is_some found ≡ true) }
{
    let mut stream = stream;
    match stream.read(bytes) {
        Ok(count) => Ok(Some(count)),
        Err(error) => {
            if !is_for_later(&error) {
                Err(DoorCall::Read)
            } else if is_dismissed {
                Err(DoorCall::Silence)
            } else {
                Ok(None)
            }
        }
    }
}

// The number of bytes that the client's socket took; 0 if it takes none now.
fn send(stream: &UnixStream, bytes: &[u8]) -> Result<usize, DoorFault>
    ensures { IfOk result (λ count. count ≤ length bytes.now) }
{
    let mut stream = stream;
    match stream.write(bytes) {
        Ok(count) => Ok(count),
        Err(error) => {
            if is_for_later(&error) {
                Ok(0)
            } else {
                Err(DoorFault)
            }
        }
    }
}

// A door at a path that is valid for a socket.
fn open<R: Files<File = File> + Net>(
    rt: &R,
    alloc: Global,
    path: &str,
) -> Result<UnixDoor, SocketFault>
    ensures refused { IfErr result (λ fault. IsOfSystem fault) }
    ensures calls { IfOk result (λ door. calls_of door.journal ≡ no_calls) }
    ensures connected { IfOk result (λ door. (client : ℕ) → has_client door.clients client ≡ false) }
{
    let listener = listen(rt, alloc, path)?;
    let poll = match Poll::new(rt) {
        Ok(poll) => poll,
        Err(error) => return Err(SocketFault::Unusable(error.kind())),
    };
    let Ok(events) = Events::with_capacity(alloc, MOST_EVENTS) else {
        return Err(SocketFault::Memory);
    };
    let mut door = UnixDoor {
        alloc,
        listener,
        poll,
        events,
        clients: Slab::new(alloc),
        dismissed: None,
        failed: Vec::new(alloc),
        journal: Journal::new(alloc),
    };
    match door.watch() {
        Ok(()) => Ok(door),
        Err(error) => {
            drop(door);
            Err(SocketFault::Unusable(error.kind()))
        }
    }
}

impl UnixDoor {
    /// A door at a path where nothing exists yet. Only its owner can use the socket. Refused for an empty path, one of more
    /// than 101 bytes, and one that exists; it is not removed when the door is dropped. The folder `PATH.new` in which it is made is taken
    /// over from an ended start of the same user.
    pub fn bind<R: Files<File = File> + Net>(
        rt: &R,
        alloc: Global,
        path: &str,
    ) -> Result<Self, SocketFault>
        ensures refused { IfErr result (λ fault. SaysWhy path.now fault) }
        ensures usable { OnOk result (path_refusal path.now ≡ None) }
        ensures calls { IfOk result (λ door. calls_of door.journal ≡ no_calls) }
        ensures connected { IfOk result (λ door. (client : ℕ) → has_client door.clients client ≡ false) }
    {
        match path_refusal(path) {
            Some(refusal) => Err(refusal),
            None => open(rt, alloc, path),
        }
    }

    /// Waits until a client or a byte comes, a client takes bytes again, or the time is over. Call it only after a round that did
    /// nothing: what became ready before a read, a write or an accept is not reported again.
    pub fn pause(&mut self, most: Duration) -> io::Result<()>
        ensures journal { self.new.journal ≡ self.old.journal }
        ensures clients { self.new.clients ≡ self.old.clients }
    {
        self.poll.poll(&mut self.events, Some(most))
    }

    // Registers the listener with the poll.
    fn watch(&mut self) -> io::Result<()>
        ensures journal { self.new.journal ≡ self.old.journal }
        ensures clients { self.new.clients ≡ self.old.clients }
    {
        let registry = self.poll.registry();
        registry.register(&mut self.listener, Token(LISTENER), Interest::READABLE)
    }

    /// The calls that failed since the record was emptied, oldest first. One is left out if out of memory for it.
    pub fn failed(&self) -> &[DoorCall]
        ensures { result.now ≡ self.now.failed.items }
    {
        self.failed.as_slice()
    }

    /// Dismisses a client, or none any more: a read of it that finds nothing is refused, and counted as a fault.
    pub fn dismiss(&mut self, client: Option<u32>)
        ensures dismissed { self.new.dismissed ≡ client }
        ensures failed { self.new.failed ≡ self.old.failed }
        ensures journal { self.new.journal ≡ self.old.journal }
        ensures clients { self.new.clients ≡ self.old.clients }
    {
        self.dismissed = client;
    }

    // Counts a call that failed, and keeps it, unless out of memory.
    fn fail_call(&mut self, call: DoorCall) -> DoorFault
        ensures calls { calls_of self.new.journal ≡ with_failure (calls_of self.old.journal) }
        ensures clients { self.new.clients ≡ self.old.clients }
    {
        self.journal.count_fault();
        let _ = self.failed.push(call);
        DoorFault
    }
}

impl Door for UnixDoor {
    ghost use Rattle.up_edge.specs.Journals.{calls_of};
    ghost use Rattle.up_edge.specs.Clients.{has_client};

    ghost calls = { λ door. calls_of door.journal };

    ghost connected = { λ door. has_client door.clients };

    fn accept(&mut self) -> Result<Option<u32>, DoorFault> {
        if !self.journal.make_room() || self.clients.reserve(1).is_err() {
            return Err(self.fail_call(DoorCall::Accept));
        }
        let Ok(client) = u32::try_from(self.clients.vacant_key()) else {
            return Err(self.fail_call(DoorCall::Accept));
        };
        match admit(&self.listener, &self.poll, client as usize) {
            Arrival::Client(stream) => {
                let _ = self.clients.insert_reserved(stream);
                self.journal.add(Passed::Accepted(Some(client)));
                Ok(Some(client))
            }
            Arrival::Nobody => {
                self.journal.add(Passed::Accepted(None));
                Ok(None)
            }
            Arrival::Failed => Err(self.fail_call(DoorCall::Accept)),
        }
    }

    fn read(&mut self, client: u32, buffer: &mut [u8]) -> Result<Option<usize>, DoorFault> {
        if !self.journal.make_room() {
            return Err(self.fail_call(DoorCall::Read));
        }
        let Ok(mut bytes) = zeros(self.alloc, buffer.len()) else {
            return Err(self.fail_call(DoorCall::Read));
        };
        let Some(stream) = self.clients.get(client as usize) else {
            return Err(self.fail_call(DoorCall::Read));
        };
        match receive(stream, &mut bytes, self.dismissed == Some(client)) {
            Ok(Some(count)) => {
                bytes.truncate(count);
                fill(buffer, &bytes);
                self.journal
                    .add(Passed::Read(client, Some(Items::new(bytes))));
                Ok(Some(count))
            }
            Ok(None) => {
                self.journal.add(Passed::Read(client, None));
                Ok(None)
            }
            Err(call) => Err(self.fail_call(call)),
        }
    }

    fn write(&mut self, client: u32, bytes: &[u8]) -> Result<usize, DoorFault> {
        if !self.journal.make_room() {
            return Err(self.fail_call(DoorCall::Write));
        }
        let Ok(mut told) = copy_of(self.alloc, bytes) else {
            return Err(self.fail_call(DoorCall::Write));
        };
        let Some(stream) = self.clients.get(client as usize) else {
            return Err(self.fail_call(DoorCall::Write));
        };
        match send(stream, bytes) {
            Ok(count) => {
                told.truncate(count);
                self.journal.add(Passed::Wrote(client, Items::new(told)));
                Ok(count)
            }
            Err(_) => Err(self.fail_call(DoorCall::Write)),
        }
    }

    fn close(&mut self, client: u32) {
        drop(self.clients.try_remove(client as usize));
        if self.journal.make_room() {
            self.journal.add(Passed::Closed(client));
        } else {
            let _ = self.fail_call(DoorCall::Close);
        }
    }

    fn faults(&self) -> u64 {
        self.journal.faults()
    }

    fn happened(&self) -> &[Passed] {
        self.journal.entries()
    }

    fn clear_record(&mut self) {
        self.journal.clear();
        self.failed.clear();
    }
}
