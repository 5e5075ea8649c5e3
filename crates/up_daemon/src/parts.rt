//! The parts of a round, in order.
ghost use Rattle.std.specs.Prelude.{◌≡◌, ◌<◌, [], IfOk, OnOk, true, false};
ghost use Rattle.up_daemon.specs.Asking.{IsAsked};
ghost use Rattle.up_daemon.specs.Connected.{AreConnected};
ghost use Rattle.up_edge.specs.declared.passed.Passed.{Passed};
ghost use Rattle.up_daemon.specs.Peers.{peers_of};
ghost use Rattle.up_daemon.specs.Rounds.{Advances, AdvancesIf};
ghost use Rattle.up_daemon.specs.RoundStates.{Beginning, ReadingClock, FindingEnds, LettingIn, TakingRequests, TakingTurns, WritingTo, with_clients};
ghost use Rattle.up_daemon.specs.Working.{part_after, Leads};
ghost use Rattle.up_edge.specs.Calls.{Calls};
ghost use Rattle.up_edge.specs.declared.happened.Happened.{Happened};
ghost use Rattle.up_model.specs.declared.loaded.Loaded.{Loaded};

use crate::work::Work;
use std::alloc::AllocError;
use up_edge::{Door, Host, Source};
use up_model::{Command, Event, Input, Loaded, Request};

/// The maximum number of turns of a round.
const MOST_TURNS: u32 = 256;

// The input for a request: for one to reload the configuration the source is called once.
fn input_of<S: Source>(source: &mut S, id: u64, request: Request) -> Input
    ensures { IsAsked id request result (S.calls source.old) (S.calls source.new) }
{
    if request.command != Command::ReloadConfiguration {
        return Input::Request { id, request };
    }
    drop(request);
    match source.load() {
        Ok(loaded) => Input::Load { id, loaded },
        Err(_) => Input::Load {
            id,
            loaded: Loaded::Unread,
        },
    }
}

impl Work {
    ghost use Rattle.up_daemon.specs.Ending.{ends_left, waiting_of};
    ghost use Rattle.up_daemon.specs.Working.{Goes, IsUntouched, NoneEnters, state_of, numbers_in};

    /// Feeds the events with which the daemon begins, one after another.
    pub(crate) fn begin<H: Host>(
        &mut self,
        host: &mut H,
        first: Vec<Event>,
    ) -> Result<(), AllocError>
        ensures goes { OnOk result (Goes (Beginning first.items) self.old (H.calls host.old) ReadingClock self.new (H.calls host.new)) }
        ensures numbers { OnOk result (numbers_in self.new ≡ numbers_in self.old) }
    {
        for event in first {
            self.take(host, Input::Emit(event))?;
        }
        Ok(())
    }

    /// Reads the clock once. A reading that fails is left for the next round.
    pub(crate) fn read_clock<H: Host>(&mut self, host: &mut H) -> Result<(), AllocError>
        ensures goes { OnOk result (Goes ReadingClock self.old (H.calls host.old) FindingEnds self.new (H.calls host.new)) }
        ensures numbers { OnOk result (numbers_in self.new ≡ numbers_in self.old) }
    {
        match host.now() {
            Ok(reading) => {
                self.take(host, Input::Clock(reading))?;
                Ok(())
            }
            Err(_) => Ok(()),
        }
    }

    // Looks for one end. False if none is found, or the look failed.
    fn find_end<H: Host>(&mut self, host: &mut H) -> Result<bool, AllocError>
        ensures goes { IfOk result (λ found. Goes FindingEnds self.old (H.calls host.old) (part_after found)
            self.new (H.calls host.new)) }
        ensures fewer { IfOk result (λ found. found ≡ true
            → ends_left (H.living host.new) self.new [] < ends_left (H.living host.old) self.old []) }
        ensures numbers { OnOk result (numbers_in self.new ≡ numbers_in self.old) }
    {
        match host.poll() {
            Ok(Some(end)) => {
                let (who, process, how) = end;
                self.take(host, Input::Ended { who, process, how })?;
                Ok(true)
            }
            Ok(None) => Ok(false),
            Err(_) => Ok(false),
        }
    }

    /// Looks for ends until none is found.
    pub(crate) fn find_ends<H: Host>(&mut self, host: &mut H) -> Result<(), AllocError>
        ensures goes { OnOk result (Goes FindingEnds self.old (H.calls host.old) LettingIn self.new (H.calls host.new)) }
        ensures numbers { OnOk result (numbers_in self.new ≡ numbers_in self.old) }
    {
        while self.find_end(host)? {}
        Ok(())
    }

    /// Lets clients in, and reads each once.
    pub(crate) fn hear<D: Door>(&mut self, door: &mut D) -> Result<(), AllocError>
        ensures untouched { IsUntouched self.old self.new }
        ensures hears { OnOk result ((host : Calls Happened) (source : Calls Loaded)
            → AdvancesIf (AreConnected (D.connected door.old) (numbers_in self.old))
            LettingIn (state_of self.old host (D.calls door.old) source [])
            TakingRequests (state_of self.new host (D.calls door.new) source [])) }
        ensures connected { OnOk result (AreConnected (D.connected door.old) (numbers_in self.old)
            → AreConnected (D.connected door.new) (numbers_in self.new)) }
    {
        self.clients.let_in(door)?;
        self.clients.read(door)?;
        Ok(())
    }

    /// Writes once to each client that has waiting bytes.
    pub(crate) fn write<D: Door>(&mut self, door: &mut D) -> Result<(), AllocError>
        ensures untouched { IsUntouched self.old self.new }
        ensures writes { OnOk result ((host : Calls Happened) (source : Calls Loaded)
            → Advances (WritingTo (peers_of self.old.clients.list.items))
            (with_clients [] (state_of self.old host (D.calls door.old) source []))
            (WritingTo []) (state_of self.new host (D.calls door.new) source [])) }
        ensures connected { OnOk result (AreConnected (D.connected door.old) (numbers_in self.old)
            → AreConnected (D.connected door.new) (numbers_in self.new)) }
    {
        self.clients.write(door)?;
        Ok(())
    }

    // Lets one request enter. False if none may.
    fn serve_one<H: Host, S: Source>(
        &mut self,
        host: &mut H,
        source: &mut S,
    ) -> Result<bool, AllocError>
        ensures goes { OnOk result ((door : Calls Passed) → Leads TakingRequests self.old.engine
            (state_of self.old (H.calls host.old) door (S.calls source.old) []) TakingRequests
            self.new.engine (state_of self.new (H.calls host.new) door (S.calls source.new) [])) }
        ensures rest { IfOk result (λ served. served ≡ false → NoneEnters self.new) }
        ensures fewer { IfOk result (λ served. served ≡ true → waiting_of self.new < waiting_of self.old) }
        ensures numbers { OnOk result (numbers_in self.new ≡ numbers_in self.old) }
    {
        let id = self.next;
        let Some(following) = id.checked_add(1) else {
            return Ok(false);
        };
        match self.clients.enter(id) {
            Some(request) => {
                self.next = following;
                let given = input_of(source, id, request);
                self.take(host, given)?;
                Ok(true)
            }
            None => Ok(false),
        }
    }

    /// Lets requests enter until none may.
    pub(crate) fn serve<H: Host, S: Source>(
        &mut self,
        host: &mut H,
        source: &mut S,
    ) -> Result<(), AllocError>
        ensures goes { OnOk result ((door : Calls Passed) → Leads TakingRequests self.old.engine
            (state_of self.old (H.calls host.old) door (S.calls source.old) []) (TakingTurns 0)
            self.new.engine (state_of self.new (H.calls host.new) door (S.calls source.new) [])) }
        ensures numbers { OnOk result (numbers_in self.new ≡ numbers_in self.old) }
    {
        while self.serve_one(host, source)? {}
        Ok(())
    }

    /// Turns the queue of events until a turn would touch none, at most 256 times.
    pub(crate) fn turn<H: Host>(&mut self, host: &mut H) -> Result<(), AllocError>
        ensures turns { OnOk result ((door : Calls Passed) (source : Calls Loaded)
            → Leads (TakingTurns 0) self.old.engine (state_of self.old (H.calls host.old) door source [])
            (WritingTo (peers_of self.new.clients.list.items)) self.new.engine
            (with_clients [] (state_of self.new (H.calls host.new) door source []))) }
        ensures numbers { OnOk result (numbers_in self.new ≡ numbers_in self.old) }
    {
        for turn in 0..MOST_TURNS {
            if !self.engine.has_turn() {
                return Ok(());
            }
            self.take(host, Input::Turn)?;
        }
        Ok(())
    }
}
