//! The record of calls and the count of faults that a host, a door and a source keep.
ghost use Rattle.std.specs.Prelude.{◌≡◌, ◌<◌, ◌≤◌, true, false, vec_capacity, vec_len};
ghost use Rattle.std.specs.Bool.{OnTrue, OnFalse};
ghost use Rattle.up_edge.specs.Calls.{no_calls, with_entry, with_failure, emptied};
ghost use Rattle.up_edge.specs.Journals.{calls_of, room, HasRoom};

use std::alloc::Global;

/// A record of the calls that succeeded, oldest first, and how many failed.
#[derive(Drop)]
pub struct Journal<T> {
    entries: Vec<T>,
    // the total number of entries that were removed when the record was emptied
    cleared: u64,
    faults: u64,
}

impl<T> Journal<T> {
    pub fn new(alloc: Global) -> Self
        ensures calls { calls_of result ≡ no_calls }
    {
        Journal {
            entries: Vec::new(alloc),
            cleared: 0,
            faults: 0,
        }
    }

    /// Reserves room for one more entry. False if out of memory.
    pub fn make_room(&mut self) -> bool
        ensures room { OnTrue result (HasRoom self.new) }
        ensures full { OnFalse result (room self.old ≡ 0) }
        ensures calls { calls_of self.new ≡ calls_of self.old }
    {
        match self.entries.reserve(1) {
            Ok(()) => true,
            Err(_) => false,
        }
    }

    /// Adds the entry of a call that succeeded. Its room was reserved before the call acted.
    pub fn add(&mut self, entry: T)
    where
        T: Drop,
        requires { HasRoom self.old }
        ensures calls { calls_of self.new ≡ with_entry entry (calls_of self.old) }
    {
        match self.entries.push(entry) {
            Ok(()) => {}
            Err(_) => unreachable!(),
        }
    }

    pub fn count_fault(&mut self)
        ensures calls { calls_of self.new ≡ with_failure (calls_of self.old) }
    {
        self.faults = self.faults.saturating_add(1);
    }

    /// The record, oldest first.
    pub fn entries(&self) -> &[T]
        ensures { result.now ≡ (calls_of self.now).entries }
    {
        self.entries.as_slice()
    }

    pub fn faults(&self) -> u64
        ensures { result ≡ (calls_of self.now).faults }
    {
        let faults = self.faults;
        faults
    }

    /// Empties the record and keeps its memory.
    pub fn clear(&mut self)
    where
        T: Drop,
        ensures calls { calls_of self.new ≡ emptied (calls_of self.old) }
    {
        self.cleared = self.cleared.saturating_add(self.entries.len() as u64);
        self.entries.clear();
    }
}
