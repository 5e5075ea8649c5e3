//! The daemon: an engine between a host, a door and a source of configurations.
ghost use Rattle.std.specs.Prelude.{◌≡◌, ◌≢◌, [], true, false, Ok, Err, IfOk, OnErr, OnOk};
ghost use Rattle.up_daemon.specs.Connected.{AreConnected};
ghost use Rattle.up_daemon.specs.RoundStates.{HasItsClients};
ghost use Rattle.up_daemon.specs.Working.{IsOver, OfOpened, RunsRound, numbers_in};
ghost use Rattle.up_engine.specs.Stands.{Stands, IsDown};
ghost use Rattle.up_model.specs.Chronicle.{Chronicle};
ghost use Rattle.up_model.specs.Configuration.{Configuration};

use crate::clients::Clients;
use crate::error::DaemonError;
use crate::log::{Log, Round};
use crate::work::Work;
use std::alloc::{AllocError, Global};
use std::mem;
use up_edge::{Door, Host, Source};
use up_engine::Engine;
use up_model::Event;

/// An engine between a host, a door and a source of configurations, which works in rounds.
pub struct Daemon {
    work: Work,
    // the events that the next round feeds first
    first: Vec<Event>,
    // an earlier round was refused
    refused: bool,
}

// Written out, so that what drops a daemon is proved here once, and not in each crate above.
impl Drop for Daemon {
    fn drop(self) {
        let Daemon {
            work: _,
            first: _,
            refused: _,
        } = self;
    }
}

// The parts of a round, in order, with the events that are fed first.
fn do_parts<H: Host, D: Door, S: Source>(
    work: &mut Work,
    first: Vec<Event>,
    host: &mut H,
    door: &mut D,
    source: &mut S,
) -> Result<(), AllocError>
    ensures round { OnOk result (
        OfOpened work.old (D.connected door.old) first.items (H.calls host.old) (D.calls door.old) (S.calls source.old)
        (λ config c start. IsOver config c start work.new (H.calls host.new) (D.calls door.new) (S.calls source.new))) }
    ensures connected { OnOk result (AreConnected (D.connected door.old) (numbers_in work.old)
        → AreConnected (D.connected door.new) (numbers_in work.new)) }
{
    host.clear_record();
    door.clear_record();
    source.clear_record();
    work.begin(host, first)?;
    work.read_clock(host)?;
    work.find_ends(host)?;
    work.hear(door)?;
    work.serve(host, source)?;
    work.turn(host)?;
    work.write(door)?;
    Ok(())
}

impl Daemon {
    ghost use Rattle.up_daemon.specs.Daemons.{engine_of, clients_of, next_of, first_of, daemon_state, was_refused};
    ghost use Rattle.up_daemon.specs.Answering.{Told};
    ghost use Rattle.up_daemon.specs.Peers.{one_waits};

    /// A daemon without clients, over this engine as it is.
    pub fn new(alloc: Global, engine: Engine) -> Self
        ensures engine { engine_of result ≡ engine }
        ensures refused { was_refused result ≡ false }
        ensures clients { clients_of result ≡ [] }
        ensures next { next_of result ≡ 1 }
        ensures first { first_of result ≡ [] }
    {
        Daemon::begin(alloc, engine, Vec::new(alloc))
    }

    /// A daemon without clients, over this engine as it is. Its first round begins with these events.
    pub fn begin(alloc: Global, engine: Engine, first: Vec<Event>) -> Self
        ensures engine { engine_of result ≡ engine }
        ensures refused { was_refused result ≡ false }
        ensures clients { clients_of result ≡ [] }
        ensures next { next_of result ≡ 1 }
        ensures first { first_of result ≡ first.items }
    {
        Daemon {
            work: Work {
                alloc,
                engine,
                clients: Clients::new(alloc),
                next: 1,
                log: Log::new(alloc),
            },
            first,
            refused: false,
        }
    }

    /// Whether a client with this number waits for something: a request of it waits or is unanswered, or an answer isn't written whole.
    pub fn is_waiting(&self, client: u32) -> bool
        ensures { result ≡ one_waits client (clients_of self.now) }
    {
        self.work.clients.waits(client)
    }

    /// One round: feeds the events with which the daemon begins, if it is the first; reads the clock, looks for ends, lets clients in, reads
    /// each once, lets their requests enter, turns the queue of events, and writes once to each client with waiting bytes. The orders of
    /// each step are carried out at once. For a request to reload the configuration the source is called once, and its result is loaded.
    /// It never waits.
    /// Refused with `Down` if the engine is down or an earlier round was refused, and with `Memory`; what it did before that remains done.
    pub fn round<H: Host, D: Door, S: Source>(
        &mut self,
        host: &mut H,
        door: &mut D,
        source: &mut S,
    ) -> Result<Round, DaemonError>
        ensures answers { IfOk result (λ round. (config : Configuration) (c : Chronicle)
            → Stands (engine_of self.old) config c
            → Told (engine_of self.new) round.fed round.gave config c) }
        ensures round { IfOk result (λ round. RunsRound (engine_of self.old)
            (daemon_state self.old (H.calls host.old) (D.calls door.old) (S.calls source.old) (D.connected door.old))
            round.fed round.gave
            (daemon_state self.new (H.calls host.new) (D.calls door.new) (S.calls source.new) (D.connected door.new))) }
        ensures connected { OnOk result (
            HasItsClients (daemon_state self.old (H.calls host.old) (D.calls door.old) (S.calls source.old) (D.connected door.old))
            → HasItsClients
            (daemon_state self.new (H.calls host.new) (D.calls door.new) (S.calls source.new) (D.connected door.new))) }
        ensures begun { OnOk result (first_of self.new ≡ []) }
        ensures remembers { OnErr result (was_refused self.new ≡ true) }
        ensures goes_on { OnOk result ((was_refused self.old ≡ false) × (was_refused self.new ≡ false)) }
        ensures refused { was_refused self.old ≡ true → result ≡ Err DaemonError.Down }
        ensures down { IsDown (engine_of self.old) → result ≡ Err DaemonError.Down }
        ensures untouched { result ≡ Err DaemonError.Down → (H.calls host.new ≡ H.calls host.old)
            × (D.calls door.new ≡ D.calls door.old) × (S.calls source.new ≡ S.calls source.old) }
        ensures up { was_refused self.old ≡ false → (config : Configuration) (c : Chronicle)
            → Stands (engine_of self.old) config c → result ≢ Err DaemonError.Down }
    {
        if self.refused || self.work.engine.is_down() {
            self.refused = true;
            return Err(DaemonError::Down);
        }
        self.refused = true;
        self.work.log = Log::new(self.work.alloc);
        let first = mem::replace(&mut self.first, Vec::new(self.work.alloc));
        do_parts(&mut self.work, first, host, door, source)?;
        self.refused = false;
        let log = mem::replace(&mut self.work.log, Log::new(self.work.alloc));
        Ok(log.into_round())
    }
}
