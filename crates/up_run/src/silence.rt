//! How long each client has been silent: has sent no whole request, while it waited for nothing.
ghost use Rattle.std.specs.Prelude.{◌≡◌, ◌*◌, ◌-◌, ◌^◌, [], map, min};
ghost use Rattle.std.specs.List.{position};
ghost use Rattle.up_run.specs.Silences.{Begins, excused, first_over, is_of, is_over, Names, Notes, NotesAll, reading_in, without};

use std::alloc::Global;
use up_daemon::Daemon;
use up_edge::{Happened, Passed};

/// The default of how long a client may be silent, in seconds.
pub const MOST_SILENCE: u64 = 60;

// A client, and since when it has been silent, by the host's clock.
#[derive(Clone, Copy)]
struct Silence {
    client: u32,
    since: u64,
}

/// How long each client has been silent. One is left out if out of memory for it.
#[derive(Drop)]
pub(crate) struct Silences {
    list: Vec<Silence>,
    // the last reading of the clock
    reading: u64,
    // how long a client may be silent, in milliseconds; 0 for ever
    most: u64,
}

// The first reading of the clock in a host's record, or the one before.
fn reading_in(before: u64, happened: &[Happened]) -> u64
    ensures { result ≡ reading_in before happened.now }
{
    for entry in happened {
        if let Happened::Now(reading) = entry {
            return *reading;
        }
    }
    before
}

// Whether a client that has been silent since `since` has been so for too long.
fn is_over(since: u64, now: u64, most: u64) -> bool
    ensures { result ≡ is_over since now most }
{
    most > 0 && now.saturating_sub(since) >= most
}

fn is_of(client: u32, silence: &Silence) -> bool
    ensures { result ≡ is_of client silence.now }
{
    silence.client == client
}

fn place_of(silences: &[Silence], client: u32) -> Option<usize>
    ensures { result ≡ position (is_of client) silences.now }
{
    silences.iter().position(|silence| is_of(client, silence))
}

// The silence of a client, which begins anew if it is over while the client waits for something.
fn excused(silence: Silence, now: u64, most: u64, daemon: &Daemon) -> Silence
    ensures { result ≡ excused now most daemon.now silence }
{
    if is_over(silence.since, now, most) && daemon.is_waiting(silence.client) {
        Silence {
            client: silence.client,
            since: now,
        }
    } else {
        silence
    }
}

impl Silences {
    /// No client, with how long one may be silent in seconds; 0 for ever.
    pub(crate) fn new(alloc: Global, seconds: u64) -> Self
        ensures list { result.list.items ≡ [] }
        ensures now { result.reading ≡ 0 }
        ensures most { result.most ≡ min (seconds * 1000) (2 ^ 64 - 1) }
    {
        Silences {
            list: Vec::new(alloc),
            reading: 0,
            most: seconds.saturating_mul(1_000),
        }
    }

    // The client's silence begins now.
    fn begin(&mut self, client: u32)
        ensures list { Begins client self.old.reading self.old.list.items self.new.list.items }
        ensures now { self.new.reading ≡ self.old.reading }
        ensures most { self.new.most ≡ self.old.most }
    {
        let silence = Silence {
            client,
            since: self.reading,
        };
        match place_of(self.list.as_slice(), client) {
            Some(place) => self.list[place] = silence,
            None => {
                let _ = self.list.push(silence);
            }
        }
    }

    fn end(&mut self, client: u32)
        ensures list { self.new.list.items ≡ without client self.old.list.items }
        ensures now { self.new.reading ≡ self.old.reading }
        ensures most { self.new.most ≡ self.old.most }
    {
        self.list.retain(|silence| !is_of(client, silence));
    }

    // Notes one call of the door. Each whole request is answered, so that a write shows that one came.
    fn note_passed(&mut self, passed: &Passed)
        ensures list { Notes self.old.reading passed.now self.old.list.items self.new.list.items }
        ensures now { self.new.reading ≡ self.old.reading }
        ensures most { self.new.most ≡ self.old.most }
    {
        match passed {
            Passed::Accepted(Some(client)) => self.begin(*client),
            Passed::Wrote(client, bytes) => {
                if !bytes.as_slice().is_empty() {
                    self.begin(*client);
                }
            }
            Passed::Closed(client) => self.end(*client),
            Passed::Accepted(None) | Passed::Read(_, _) => {}
        }
    }

    #[tactic(auto, using(crate::proofs::Noting::notes_more))]
    fn note_all(&mut self, passed: &[Passed])
        ensures list { NotesAll self.old.reading passed.now self.old.list.items self.new.list.items }
        ensures now { self.new.reading ≡ self.old.reading }
        ensures most { self.new.most ≡ self.old.most }
    {
        for entry in passed {
            self.note_passed(entry);
        }
    }

    /// Notes a round, by the records of its host and door.
    pub(crate) fn note(&mut self, happened: &[Happened], passed: &[Passed])
        ensures now { self.new.reading ≡ reading_in self.old.reading happened.now }
        ensures list { NotesAll self.new.reading passed.now self.old.list.items self.new.list.items }
        ensures most { self.new.most ≡ self.old.most }
    {
        self.reading = reading_in(self.reading, happened);
        self.note_all(passed);
    }

    // Restarts the silence of each client that has been silent for too long but waits for something.
    #[tactic(auto, using(crate::proofs::Noting::written_over))]
    fn excuse_waiting(&mut self, daemon: &Daemon)
        ensures list { self.new.list.items ≡ map (excused self.old.reading self.old.most daemon.now) self.old.list.items }
        ensures now { self.new.reading ≡ self.old.reading }
        ensures most { self.new.most ≡ self.old.most }
    {
        for i in 0..self.list.len() {
            self.list[i] = excused(self.list[i], self.reading, self.most, daemon);
        }
    }

    // The first client that has been silent for too long.
    fn first_silent(&self) -> Option<Silence>
        ensures { result ≡ first_over self.now.reading self.now.most self.now.list.items }
    {
        for silence in &self.list {
            if is_over(silence.since, self.reading, self.most) {
                return Some(*silence);
            }
        }
        None
    }

    /// A client that has been silent for too long. It comes last the next time, so that none keeps the others in.
    pub(crate) fn silent_client(&mut self, daemon: &Daemon) -> Option<u32>
        ensures named { (let silences = map (excused self.old.reading self.old.most daemon.now)
            self.old.list.items in Names silences (first_over self.old.reading self.old.most silences) result self.new.list.items) }
        ensures now { self.new.reading ≡ self.old.reading }
        ensures most { self.new.most ≡ self.old.most }
    {
        self.excuse_waiting(daemon);
        let silence = self.first_silent()?;
        self.end(silence.client);
        let _ = self.list.push(silence);
        Some(silence.client)
    }
}
