//! The host of real processes.
ghost use Rattle.std.specs.Prelude.{◌≡◌, ◌⊎◌, ◌+◌, ◌<◌, ◌++◌, ◌∷◌, ℕ, List, [], length, Some, None, IfSome, IfOk, if◌then◌else◌, is_some, option_map, take, vec_len, vec_capacity};
ghost use Rattle.std.specs.Bool.{OnTrue};
ghost use Rattle.std.specs.List.{HoldsAt, swap_remove};
ghost use Rattle.up_edge.specs.Calls.{Reports, no_calls, with_failure};
ghost use Rattle.up_edge.specs.Journals.{calls_of, HasRoom};
ghost use Rattle.up_edge.specs.Living.{LivesAfterPoll};
ghost use Rattle.up_edge.specs.Looking.{LooksOn};
ghost use Rattle.up_edge.specs.declared.happened.Happened.TheVariants.{Polled};

use crate::child::{Look, Running, find_end, place_of, reap};
use crate::command::{command_of, kill_command};
use crate::happened::Happened;
use crate::host::Host;
use crate::host_fault::HostFault;
use crate::journal::Journal;
use std::alloc::Global;
use std::io;
use std::io::ErrorKind;
use std::process::{Child, Command, OpenProcess, Processes};
use std::rt::Clock;
use std::time::Instant;
use up_model::{How, Order, Process, Who};
use up_stanza::{KILL, signal_name};

/// A process that the system refused to start.
#[derive(Drop)]
pub struct Refusal {
    pub who: Who,
    pub process: Process,
    /// The system's reason.
    pub error: io::Error,
}

/// A host over the system's processes and its clock, whose readings start at 0.
pub struct RealHost<R: Processes> {
    system: R,
    alloc: Global,
    start: Instant,
    children: Vec<Running<R::Started>>,
    // the shells that send signals; their ends are not reported
    helpers: Vec<Child<R::Started>>,
    // the place where the next look at the children begins
    next: usize,
    journal: Journal<Happened>,
    refusals: Vec<Refusal>,
}

// Written out, so that what drops a host is proved here once, and not in each crate above.
impl<R: Processes + Drop> Drop for RealHost<R> {
    fn drop(self) {
        let RealHost {
            system: _,
            alloc: _,
            start: _,
            children: _,
            helpers: _,
            next: _,
            journal: _,
            refusals: _,
        } = self;
    }
}

fn spawn_order<R: Processes>(
    system: &R,
    alloc: Global,
    order: &Order,
) -> io::Result<Child<R::Started>> {
    match command_of(alloc, order) {
        Ok(Some(command)) => started_by(system, command),
        // An order without words names no program.
        Ok(None) => Err(io::Error::from(ErrorKind::NotFound)),
        Err(refused) => Err(io::Error::from(refused)),
    }
}

fn started_by<R: Processes>(system: &R, mut command: Command) -> io::Result<Child<R::Started>> {
    let child = command.spawn(system);
    drop(command);
    child
}

// Starts a shell that sends the signal. None for a signal without a name, or if the shell can't be started.
fn kill_by_shell<R: Processes>(
    system: &R,
    alloc: Global,
    pid: u32,
    signal: u8,
) -> Option<Child<R::Started>> {
    let name = signal_name(signal)?;
    match kill_command(alloc, name, pid) {
        Ok(command) => started_by(system, command).ok(),
        Err(_) => None,
    }
}

// Milliseconds since the start.
fn reading(clock: &impl Clock, start: &Instant) -> Option<u64> {
    match start.elapsed(clock) {
        Ok(time) => u64::try_from(time.as_millis()).ok(),
        Err(_) => None,
    }
}

impl<R: Processes> RealHost<R> {
    /// A host without children, whose clock begins at 0. Refused if the system has no clock.
    pub fn new(alloc: Global, system: R) -> io::Result<Self>
    where
        R: Clock + Drop,
        ensures calls { IfOk result (λ host. calls_of host.journal ≡ no_calls) }
        ensures living { IfOk result (λ host. host.children.items ≡ []) }
        ensures refusals { IfOk result (λ host. host.refusals.items ≡ []) }
    {
        let start = Instant::now(&system)?;
        Ok(RealHost {
            system,
            alloc,
            start,
            children: Vec::new(alloc),
            helpers: Vec::new(alloc),
            next: 0,
            journal: Journal::new(alloc),
            refusals: Vec::new(alloc),
        })
    }

    // Keeps the reason why the system refused an order, unless out of memory.
    fn note_refusal(&mut self, order: &Order, error: io::Error)
        ensures refusals { (self.new.refusals.items ≡ self.old.refusals.items
            ++ record { who = order.now.who; process = order.now.process; error = error } ∷ [])
            ⊎ (self.new.refusals.items ≡ self.old.refusals.items) }
        ensures children { self.new.children ≡ self.old.children }
        ensures journal { self.new.journal ≡ self.old.journal }
    {
        let Ok(who) = order.who.copy() else {
            return;
        };
        let refusal = Refusal {
            who,
            process: order.process,
            error,
        };
        let _ = self.refusals.push(refusal);
    }

    /// The starts that the system refused since the record was emptied, oldest first. One is left out if out of memory for it.
    pub fn refusals(&self) -> &[Refusal]
        ensures { result.now ≡ self.now.refusals.items }
    {
        self.refusals.as_slice()
    }

    // Starts the process of an order as one more child.
    fn start(&mut self, order: &Order) -> Option<u32>
        ensures children { length self.new.children.items
            ≡ length self.old.children.items + (if is_some result then 1 else 0) }
        ensures child { IfSome result (λ pid. HoldsAt (λ running. (running.who ≡ order.now.who)
            × (running.process ≡ order.now.process) × (running.pid ≡ pid))
            self.new.children.items (length self.old.children.items)) }
        ensures others { take (length self.old.children.items) self.new.children.items ≡ self.old.children.items }
        ensures journal { self.new.journal ≡ self.old.journal }
    {
        if self.children.reserve(1).is_err() {
            return None;
        }
        let Ok(who) = order.who.copy() else {
            return None;
        };
        let child = match spawn_order(&self.system, self.alloc, order) {
            Ok(child) => child,
            Err(error) => {
                drop(who);
                self.note_refusal(order, error);
                return None;
            }
        };
        let pid = child.id();
        let running = Running {
            who,
            process: order.process,
            pid,
            child,
        };
        match self.children.push(running) {
            Ok(()) => Some(pid),
            Err(_) => unreachable!(),
        }
    }

    // The end of the child at a place, twice: for the record and for the caller. If out of memory for both, the child stays.
    fn take_end(&mut self, place: usize, how: How) -> Option<(End, End)>
        requires { place < length self.old.children.items }
        ensures equal { IfSome result (λ ends. ends.0 ≡ ends.1) }
        ensures child { IfSome result (λ ends. HoldsAt (λ running. ends.1
            ≡ (running.who, running.process, how)) self.old.children.items place) }
        ensures children { length self.new.children.items + (if is_some result then 1 else 0)
            ≡ length self.old.children.items }
        ensures gone { IfSome result (λ ends. HoldsAt (λ running. self.new.children.items
            ≡ swap_remove self.old.children.items place running) self.old.children.items place) }
        ensures kept { result ≡ None → self.new.children ≡ self.old.children }
        ensures journal { self.new.journal ≡ self.old.journal }
    {
        let running = &self.children[place];
        let process = running.process;
        let Ok(told) = running.who.copy() else {
            return None;
        };
        let Ok(who) = told.copy() else {
            return None;
        };
        drop(self.children.swap_remove(place));
        Some(((told, process, how), (who, process, how)))
    }

    // Looks at some of the children.
    fn look(&mut self) -> Look
        ensures looks { LooksOn result self.old.next self.new.next (length self.old.children.items) }
        ensures children { length self.new.children.items ≡ length self.old.children.items }
        ensures journal { self.new.journal ≡ self.old.journal }
    {
        find_end(&mut self.children, &mut self.next)
    }

    // Reports the end of the child where the next look begins. If out of memory for it, the call failed, and the child stays.
    fn report_end(&mut self, how: How) -> Result<Option<End>, HostFault>
        requires room { HasRoom self.old.journal }
        requires child { self.old.next < length self.old.children.items }
        ensures reports { Reports Polled (calls_of self.old.journal) result (calls_of self.new.journal) }
        ensures lives { LivesAfterPoll (length self.old.children.items) result (length self.new.children.items) }
    {
        match self.take_end(self.next, how) {
            Some((told, end)) => {
                self.journal.add(Happened::Polled(Some(told)));
                Ok(Some(end))
            }
            None => Err(self.fail_call()),
        }
    }

    // Sends a signal to the child with this name and process number. False if that failed.
    fn send(&mut self, who: &Who, pid: u32, signal: u8) -> bool
        ensures sent { OnTrue result ((place : ℕ) × HoldsAt (λ running. (running.who ≡ who.now)
            × (running.pid ≡ pid)) self.old.children.items place) }
        ensures children { length self.new.children.items ≡ length self.old.children.items }
        ensures journal { self.new.journal ≡ self.old.journal }
    {
        match place_of(self.children.as_slice(), who, pid) {
            Some(place) => self.send_to(place, pid, signal),
            None => false,
        }
    }

    // Sends a signal to the child at a place, any but KILL by a helper. False if that failed.
    fn send_to(&mut self, place: usize, pid: u32, signal: u8) -> bool
        requires { place < length self.old.children.items }
        ensures children { length self.new.children.items ≡ length self.old.children.items }
        ensures journal { self.new.journal ≡ self.old.journal }
    {
        if signal == KILL {
            return self.children[place].child.kill().is_ok();
        }
        if self.helpers.reserve(1).is_err() {
            return false;
        }
        let Some(helper) = kill_by_shell(&self.system, self.alloc, pid, signal) else {
            return false;
        };
        match self.helpers.push(helper) {
            Ok(()) => true,
            Err(_) => unreachable!(),
        }
    }

    fn fail_call(&mut self) -> HostFault
        ensures calls { calls_of self.new.journal ≡ with_failure (calls_of self.old.journal) }
        ensures children { self.new.children ≡ self.old.children }
    {
        self.journal.count_fault();
        HostFault
    }
}

/// The end of a process.
type End = (Who, Process, How);

impl<R: Processes + Clock> Host for RealHost<R> {
    ghost use Rattle.std.specs.Prelude.{length};
    ghost use Rattle.up_edge.specs.Journals.{calls_of};

    ghost calls = { λ host. calls_of host.journal };

    ghost living = { λ host. length host.children.items };

    fn spawn(&mut self, order: &Order) -> Result<u32, HostFault> {
        if !self.journal.make_room() {
            return Err(self.fail_call());
        }
        let Ok(told) = order.copy(self.alloc) else {
            return Err(self.fail_call());
        };
        match self.start(order) {
            Some(pid) => {
                self.journal.add(Happened::Spawned(told, pid));
                Ok(pid)
            }
            None => {
                drop(told);
                Err(self.fail_call())
            }
        }
    }

    fn poll(&mut self) -> Result<Option<(Who, Process, How)>, HostFault> {
        if !self.journal.make_room() {
            return Err(self.fail_call());
        }
        match self.look() {
            Look::Ended(how) => self.report_end(how),
            Look::Nothing => {
                reap(&mut self.helpers);
                self.journal.add(Happened::Polled(None));
                Ok(None)
            }
            Look::Failed => Err(self.fail_call()),
        }
    }

    fn signal(&mut self, who: &Who, pid: u32, signal: u8) -> Result<(), HostFault> {
        if !self.journal.make_room() {
            return Err(self.fail_call());
        }
        let Ok(told) = who.copy() else {
            return Err(self.fail_call());
        };
        if self.send(who, pid, signal) {
            self.journal.add(Happened::Signalled(told, pid, signal));
            Ok(())
        } else {
            drop(told);
            Err(self.fail_call())
        }
    }

    fn now(&mut self) -> Result<u64, HostFault> {
        if !self.journal.make_room() {
            return Err(self.fail_call());
        }
        match reading(&self.system, &self.start) {
            Some(time) => {
                self.journal.add(Happened::Now(time));
                Ok(time)
            }
            None => Err(self.fail_call()),
        }
    }

    fn faults(&self) -> u64 {
        self.journal.faults()
    }

    fn happened(&self) -> &[Happened] {
        self.journal.entries()
    }

    fn clear_record(&mut self) {
        self.journal.clear();
        self.refusals.clear();
    }
}
