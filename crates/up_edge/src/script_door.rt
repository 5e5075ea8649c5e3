//! The door that plays a script.
ghost use Rattle.std.specs.Prelude.{◌≡◌, ◌≤◌, ℕ, [], false, length, take, drop, IfOk, IfSome, min};
ghost use Rattle.up_edge.specs.Calls.{no_calls, with_failure};
ghost use Rattle.up_edge.specs.Clients.{has_client};
ghost use Rattle.up_edge.specs.Journals.{calls_of};
ghost use Rattle.up_edge.specs.Speaking.{IsWithin};

use crate::buffer::{copy_of, fill};
use crate::door::Door;
use crate::door_fault::DoorFault;
use crate::failure::{Failure, Failures};
use crate::journal::Journal;
use crate::passed::Passed;
use crate::visitor::{Spoken, Visitor};
use slab::Slab;
use std::alloc::Global;
use up_text::Items;

/// A door that plays a script. Some of its calls may fail: accepts, reads, writes and closes are counted together, from 0 on; a close
/// that fails closes, and is not recorded.
pub struct ScriptDoor {
    alloc: Global,
    visits: Vec<Option<Visitor>>,
    next_visit: usize,
    // the index of each client's visit
    clients: Slab<usize>,
    failures: Failures,
    journal: Journal<Passed>,
}

// Written out, so that what drops a door is proved here once, and not in each crate above.
impl Drop for ScriptDoor {
    fn drop(self) {
        let ScriptDoor {
            alloc: _,
            visits: _,
            next_visit: _,
            clients: _,
            failures: _,
            journal: _,
        } = self;
    }
}

impl ScriptDoor {
    /// A door to which these clients come, at most one per accept: `None` means nobody yet, and after the last one nobody comes.
    pub fn new(alloc: Global, visits: Vec<Option<Visitor>>, failures: Vec<Failure>) -> Self
        ensures visits { result.visits ≡ visits }
        ensures failures { result.failures.failures.items ≡ failures.items }
        ensures calls { calls_of result.journal ≡ no_calls }
        ensures connected { (client : ℕ) → has_client result.clients client ≡ false }
    {
        ScriptDoor {
            alloc,
            visits,
            next_visit: 0,
            clients: Slab::new(alloc),
            failures: Failures::new(failures),
            journal: Journal::new(alloc),
        }
    }

    fn fail_call(&mut self) -> DoorFault
        ensures calls { calls_of self.new.journal ≡ with_failure (calls_of self.old.journal) }
        ensures clients { self.new.clients ≡ self.old.clients }
    {
        self.journal.count_fault();
        DoorFault
    }

    // The visit that begins at this accept, if any.
    fn next_visit(&mut self) -> Option<usize>
        ensures journal { self.new.journal ≡ self.old.journal }
        ensures clients { self.new.clients ≡ self.old.clients }
    {
        let visit = self.next_visit;
        let comes = match self.visits.get(visit) {
            Some(Some(_)) => true,
            Some(None) | None => false,
        };
        self.next_visit = visit.saturating_add(1);
        comes.then_some(visit)
    }

    // The outcome of a read of the client.
    fn speak(&mut self, client: u32, most: usize) -> Spoken
        ensures spoken { IsWithin most result }
        ensures journal { self.new.journal ≡ self.old.journal }
        ensures clients { self.new.clients ≡ self.old.clients }
    {
        let Some(visit) = self.clients.get(client as usize).copied() else {
            return Spoken::Failed;
        };
        match self.visits.get_mut(visit) {
            Some(Some(visitor)) => visitor.speak(self.alloc, most),
            Some(None) | None => Spoken::Failed,
        }
    }

    // The number of bytes that a write to the client takes.
    fn take(&mut self, client: u32, count: usize) -> Option<usize>
        ensures within { IfSome result (λ taken. taken ≤ count) }
        ensures journal { self.new.journal ≡ self.old.journal }
        ensures clients { self.new.clients ≡ self.old.clients }
    {
        let visit = self.clients.get(client as usize).copied()?;
        match self.visits.get_mut(visit) {
            Some(Some(visitor)) => Some(visitor.take(count)),
            Some(None) | None => None,
        }
    }
}

impl Door for ScriptDoor {
    ghost use Rattle.up_edge.specs.Journals.{calls_of};
    ghost use Rattle.up_edge.specs.Clients.{has_client};

    ghost calls = { λ door. calls_of door.journal };

    ghost connected = { λ door. has_client door.clients };

    fn accept(&mut self) -> Result<Option<u32>, DoorFault> {
        if self.failures.next_fails()
            || !self.journal.make_room()
            || self.clients.reserve(1).is_err()
        {
            return Err(self.fail_call());
        }
        let Ok(client) = u32::try_from(self.clients.vacant_key()) else {
            return Err(self.fail_call());
        };
        match self.next_visit() {
            Some(visit) => {
                let _ = self.clients.insert_reserved(visit);
                self.journal.add(Passed::Accepted(Some(client)));
                Ok(Some(client))
            }
            None => {
                self.journal.add(Passed::Accepted(None));
                Ok(None)
            }
        }
    }

    fn read(&mut self, client: u32, buffer: &mut [u8]) -> Result<Option<usize>, DoorFault> {
        if self.failures.next_fails() || !self.journal.make_room() {
            return Err(self.fail_call());
        }
        match self.speak(client, buffer.len()) {
            Spoken::Bytes(bytes) => {
                let count = bytes.len();
                fill(buffer, &bytes);
                self.journal
                    .add(Passed::Read(client, Some(Items::new(bytes))));
                Ok(Some(count))
            }
            Spoken::Nothing => {
                self.journal.add(Passed::Read(client, None));
                Ok(None)
            }
            Spoken::Failed => Err(self.fail_call()),
        }
    }

    fn write(&mut self, client: u32, bytes: &[u8]) -> Result<usize, DoorFault> {
        if self.failures.next_fails() || !self.journal.make_room() {
            return Err(self.fail_call());
        }
        let Ok(mut told) = copy_of(self.alloc, bytes) else {
            return Err(self.fail_call());
        };
        match self.take(client, bytes.len()) {
            Some(count) => {
                told.truncate(count);
                self.journal.add(Passed::Wrote(client, Items::new(told)));
                Ok(count)
            }
            None => Err(self.fail_call()),
        }
    }

    fn close(&mut self, client: u32) {
        let _ = self.clients.try_remove(client as usize);
        if !self.failures.next_fails() && self.journal.make_room() {
            self.journal.add(Passed::Closed(client));
        } else {
            self.journal.count_fault();
        }
    }

    fn faults(&self) -> u64 {
        self.journal.faults()
    }

    fn happened(&self) -> &[Passed] {
        self.journal.entries()
    }

    fn clear_record(&mut self) {
        self.journal.clear();
    }
}
