//! The host that plays a script.
ghost use Rattle.std.specs.Prelude.{◌≡◌, ◌+◌, ◌<◌, ◌++◌, ◌∷◌, ℕ, List, [], length, Some, None, IfSome, MatchOption, vec_len, slice_get, if◌then◌else◌, is_some};
ghost use Rattle.up_edge.specs.Calls.{no_calls, with_failure};
ghost use Rattle.up_edge.specs.Failing.{call_after};
ghost use Rattle.up_edge.specs.Journals.{calls_of};
ghost use Rattle.up_edge.specs.Scripts.{AreCopies, IsFound};

use crate::failure::{Failure, Failures};
use crate::happened::Happened;
use crate::host::Host;
use crate::host_fault::HostFault;
use crate::journal::Journal;
use std::alloc::Global;
use up_model::{How, Order, Process, Who};

/// The end of a process.
type End = (Who, Process, How);

/// The answers of a scripted host, call by call.
#[derive(Drop)]
pub struct Script {
    /// The process numbers of the processes that are spawned; after the last one a spawn is refused.
    pub pids: Vec<u32>,
    /// The ends that the polls find; after the last one they find none. An end waits until a process lives.
    pub ends: Vec<Option<End>>,
    /// The readings of the clock; after the last one it is repeated. Before the first it reads 0.
    pub readings: Vec<u64>,
}

/// A host that plays a script. Some of its calls may fail: spawns, polls, signals and readings are counted together, from 0 on.
pub struct ScriptHost {
    alloc: Global,
    script: Script,
    next_pid: usize,
    next_end: usize,
    next_reading: usize,
    reading: u64,
    living: usize,
    failures: Failures,
    journal: Journal<Happened>,
}

// Written out, so that what drops a host is proved here once, and not in each crate above.
impl Drop for ScriptHost {
    fn drop(self) {
        let ScriptHost {
            alloc: _,
            script: _,
            next_pid: _,
            next_end: _,
            next_reading: _,
            reading: _,
            living: _,
            failures: _,
            journal: _,
        } = self;
    }
}

fn copy_end(end: &End) -> Option<End>
    ensures { IfSome result (λ copied. copied ≡ end.now) }
{
    let who = end.0.copy().ok()?;
    Some((who, end.1, end.2))
}

impl ScriptHost {
    /// A host that plays this script, in which these calls fail.
    pub fn new(alloc: Global, script: Script, failures: Vec<Failure>) -> Self
        ensures script { result.script ≡ script }
        ensures failures { result.failures.failures.items ≡ failures.items }
        ensures calls { calls_of result.journal ≡ no_calls }
        ensures living { result.living ≡ 0 }
    {
        ScriptHost {
            alloc,
            script,
            next_pid: 0,
            next_end: 0,
            next_reading: 0,
            reading: 0,
            living: 0,
            failures: Failures::new(failures),
            journal: Journal::new(alloc),
        }
    }

    fn fail_call(&mut self) -> HostFault
        ensures calls { calls_of self.new.journal ≡ with_failure (calls_of self.old.journal) }
        ensures living { self.new.living ≡ self.old.living }
    {
        self.journal.count_fault();
        HostFault
    }

    // The process number of the next process, which lives from now on.
    fn start(&mut self) -> Option<u32>
        ensures pid { IfSome result (λ pid. slice_get self.old.script.pids.items self.old.next_pid
            ≡ Some pid) }
        ensures living { self.new.living ≡ self.old.living + (if is_some result then 1 else 0) }
        ensures next { self.new.next_pid ≡ self.old.next_pid + (if is_some result then 1 else 0) }
        ensures journal { self.new.journal ≡ self.old.journal }
    {
        let pid = *self.script.pids.get(self.next_pid)?;
        let living = self.living.checked_add(1)?;
        self.living = living;
        self.next_pid += 1;
        Some(pid)
    }

    // The end that the next poll finds, twice: for the record and for the caller. Nothing is found while no process lives.
    fn found(&self) -> Found
        ensures { IsFound self.now.living self.now.script.ends.items self.now.next_end result }
    {
        if self.living == 0 {
            return Found::Nothing;
        }
        match self.script.ends.get(self.next_end) {
            Some(Some(end)) => copies_of(end),
            Some(None) | None => Found::Nothing,
        }
    }

    // Passes over a poll that was to find nothing.
    fn pass_nothing(&mut self)
        ensures next { slice_get self.old.script.ends.items self.old.next_end ≡ Some None
            → self.new.next_end ≡ self.old.next_end + 1 }
        ensures journal { self.new.journal ≡ self.old.journal }
        ensures living { self.new.living ≡ self.old.living }
    {
        if let Some(None) = self.script.ends.get(self.next_end) {
            self.next_end += 1;
        }
    }

    // Passes over an end, so that one process fewer lives.
    fn pass_end(&mut self)
        requires { 0 < self.old.living }
        ensures next { self.new.next_end ≡ call_after self.old.next_end }
        ensures journal { self.new.journal ≡ self.old.journal }
        ensures living { self.new.living + 1 ≡ self.old.living }
    {
        self.next_end = self.next_end.saturating_add(1);
        self.living -= 1;
    }

    // The next reading of the clock; after the last one, that again.
    fn read_clock(&mut self) -> u64
        ensures reading { MatchOption (slice_get self.old.script.readings.items self.old.next_reading)
            (result ≡ self.old.reading)
            (λ reading. (result ≡ reading) × (self.new.next_reading ≡ self.old.next_reading + 1)) }
        ensures stays { self.new.reading ≡ result }
        ensures journal { self.new.journal ≡ self.old.journal }
        ensures living { self.new.living ≡ self.old.living }
    {
        if let Some(reading) = self.script.readings.get(self.next_reading) {
            self.reading = *reading;
            self.next_reading += 1;
        }
        self.reading
    }
}

// The outcome of a poll of a script.
enum Found {
    // An end, for the record and for the caller.
    End(End, End),
    Nothing,
    // Out of memory for it.
    Failed,
}

fn copies_of(end: &End) -> Found
    ensures { AreCopies result end.now }
{
    let Some(told) = copy_end(end) else {
        return Found::Failed;
    };
    match copy_end(end) {
        Some(end) => Found::End(told, end),
        None => Found::Failed,
    }
}

impl Host for ScriptHost {
    ghost use Rattle.up_edge.specs.Journals.{calls_of};

    ghost calls = { λ host. calls_of host.journal };

    ghost living = { λ host. host.living };

    fn spawn(&mut self, order: &Order) -> Result<u32, HostFault> {
        if self.failures.next_fails() || !self.journal.make_room() {
            return Err(self.fail_call());
        }
        let Ok(told) = order.copy(self.alloc) else {
            return Err(self.fail_call());
        };
        match self.start() {
            Some(pid) => {
                self.journal.add(Happened::Spawned(told, pid));
                Ok(pid)
            }
            None => {
                drop(told);
                Err(self.fail_call())
            }
        }
    }

    fn poll(&mut self) -> Result<Option<End>, HostFault> {
        if self.failures.next_fails() || !self.journal.make_room() {
            return Err(self.fail_call());
        }
        match self.found() {
            Found::End(told, end) => {
                self.pass_end();
                self.journal.add(Happened::Polled(Some(told)));
                Ok(Some(end))
            }
            Found::Nothing => {
                self.pass_nothing();
                self.journal.add(Happened::Polled(None));
                Ok(None)
            }
            Found::Failed => Err(self.fail_call()),
        }
    }

    fn signal(&mut self, who: &Who, pid: u32, signal: u8) -> Result<(), HostFault> {
        if self.failures.next_fails() || !self.journal.make_room() {
            return Err(self.fail_call());
        }
        match who.copy() {
            Ok(told) => {
                self.journal.add(Happened::Signalled(told, pid, signal));
                Ok(())
            }
            Err(_) => Err(self.fail_call()),
        }
    }

    fn now(&mut self) -> Result<u64, HostFault> {
        if self.failures.next_fails() || !self.journal.make_room() {
            return Err(self.fail_call());
        }
        let reading = self.read_clock();
        self.journal.add(Happened::Now(reading));
        Ok(reading)
    }

    fn faults(&self) -> u64 {
        self.journal.faults()
    }

    fn happened(&self) -> &[Happened] {
        self.journal.entries()
    }

    fn clear_record(&mut self) {
        self.journal.clear();
    }
}
