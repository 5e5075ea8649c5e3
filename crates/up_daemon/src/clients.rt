//! The clients of the daemon, in the order of their arrival.
ghost use Rattle.std.specs.List.{AllByRecursion, list_any};
ghost use Rattle.std.specs.Prelude.{◌≡◌, ◌≤◌, ◌<◌, ◌+◌, ◌++◌, ◌∷◌, ℕ, List, [], true, false, IfOk, OnOk, IfSome, IfNone, vec_len};
ghost use Rattle.up_daemon.specs.Connected.{AreConnected};
ghost use Rattle.up_daemon.specs.Peers.{Peer, peer_of, peers_of, numbers_of, waits, one_waits, IsEntered, IsAtRest, IsQueued};
ghost use Rattle.up_daemon.specs.Rounds.{Advances, AdvancesIf};
ghost use Rattle.up_daemon.specs.RoundStates.{LettingIn, ReadingFrom, WritingTo, RoundState};
ghost use Rattle.up_daemon.specs.Seating.{seen, at_door, with_stayer, stayer};
ghost use Rattle.up_daemon.specs.Visits.{most_clients, LetsIn};

mod client;

use client::Client;
use std::alloc::{AllocError, Global};
use std::mem;
use up_edge::Door;
use up_model::{Answer, Request};

/// The maximum number of connected clients.
const MOST_CLIENTS: usize = 64;

/// The connected clients, oldest first.
#[derive(Drop)]
pub(crate) struct Clients {
    alloc: Global,
    list: Vec<Client>,
}

// Reads the client once, if it may be read, and closes it if it can't be read any further. False if it was closed.
fn read_or_close<D: Door>(client: &mut Client, door: &mut D) -> Result<bool, AllocError>
    ensures reads { IfOk result (λ stays. (unread : List Peer) (state : RoundState)
        → Advances (ReadingFrom (peer_of client.old ∷ unread)) (at_door (D.calls door.old) state)
        (ReadingFrom unread) (at_door (D.calls door.new) (with_stayer stays client.new state))) }
    ensures connected { IfOk result (λ stays. (before after : List ℕ)
        → AreConnected (D.connected door.old) (before ++ client.old.number ∷ after)
        → AreConnected (D.connected door.new) (before ++ stayer stays client.new.number after)) }
{
    if client.read(door)? {
        return Ok(true);
    }
    door.close(client.number);
    Ok(false)
}

// Writes once to the client, if bytes wait for it, and closes it if the write fails. False if it was closed.
fn write_or_close<D: Door>(client: &mut Client, door: &mut D) -> Result<bool, AllocError>
    ensures writes { IfOk result (λ stays. (unwritten : List Peer) (state : RoundState)
        → Advances (WritingTo (peer_of client.old ∷ unwritten)) (at_door (D.calls door.old) state)
        (WritingTo unwritten) (at_door (D.calls door.new) (with_stayer stays client.new state))) }
    ensures connected { IfOk result (λ stays. (before after : List ℕ)
        → AreConnected (D.connected door.old) (before ++ client.old.number ∷ after)
        → AreConnected (D.connected door.new) (before ++ stayer stays client.new.number after)) }
{
    if client.write(door)? {
        return Ok(true);
    }
    door.close(client.number);
    Ok(false)
}

fn one_waits(clients: &[Client], number: u32) -> bool
    ensures { result ≡ list_any (λ client. waits number (peer_of client)) clients.now }
{
    clients.iter().any(|client| client.waits(number))
}

impl Clients {
    pub(crate) fn new(alloc: Global) -> Self
        ensures { result.list.items ≡ [] }
    {
        Clients {
            alloc,
            list: Vec::new(alloc),
        }
    }

    // Lets one client in. False if nobody waits, the door failed, or the maximum number is connected.
    fn let_one_in<D: Door>(&mut self, door: &mut D) -> Result<bool, AllocError>
        ensures full { OnOk result (most_clients ≤ vec_len self.old.list
            → (self.new.list.items ≡ self.old.list.items) × (D.calls door.new ≡ D.calls door.old)) }
        ensures accepts { IfOk result (λ came. vec_len self.old.list < most_clients
            → LetsIn came (D.connected door.old) self.old.list.items self.new.list.items (D.calls door.old)
            (D.calls door.new)) }
        ensures refuses { IfOk result (λ came. most_clients ≤ vec_len self.old.list → came ≡ false) }
        ensures grows { IfOk result (λ came. came ≡ true
            → vec_len self.new.list ≡ vec_len self.old.list + 1) }
        ensures connected { OnOk result (AreConnected (D.connected door.old) (numbers_of (peers_of self.old.list.items))
            → AreConnected (D.connected door.new) (numbers_of (peers_of self.new.list.items))) }
    {
        if self.list.len() >= MOST_CLIENTS {
            return Ok(false);
        }
        self.list.reserve(1)?;
        match door.accept() {
            Ok(Some(number)) => {
                self.list.push(Client::new(self.alloc, number))?;
                Ok(true)
            }
            Ok(None) => Ok(false),
            Err(_) => Ok(false),
        }
    }

    /// Lets in the clients that wait, while there is room for them.
    pub(crate) fn let_in<D: Door>(&mut self, door: &mut D) -> Result<(), AllocError>
        ensures lets_in { OnOk result ((state : RoundState)
            → AdvancesIf (AreConnected (D.connected door.old) (numbers_of (peers_of self.old.list.items)))
            LettingIn (seen self.old.list.items (D.calls door.old) state)
            (ReadingFrom (peers_of self.new.list.items)) (seen [] (D.calls door.new) state)) }
        ensures connected { OnOk result (AreConnected (D.connected door.old) (numbers_of (peers_of self.old.list.items))
            → AreConnected (D.connected door.new) (numbers_of (peers_of self.new.list.items))) }
    {
        for turn in 0..MOST_CLIENTS {
            if !self.let_one_in(door)? {
                return Ok(());
            }
        }
        Ok(())
    }

    /// Reads each client once that has few enough requests. One that can't be read any further is closed.
    pub(crate) fn read<D: Door>(&mut self, door: &mut D) -> Result<(), AllocError>
        ensures reads { OnOk result ((state : RoundState)
            → Advances (ReadingFrom (peers_of self.old.list.items)) (seen [] (D.calls door.old) state)
            (ReadingFrom []) (seen self.new.list.items (D.calls door.new) state)) }
        ensures connected { OnOk result (AreConnected (D.connected door.old) (numbers_of (peers_of self.old.list.items))
            → AreConnected (D.connected door.new) (numbers_of (peers_of self.new.list.items))) }
    {
        let kept = Vec::with_capacity(self.alloc, self.list.len())?;
        let unread = mem::replace(&mut self.list, kept);
        for client in unread {
            let mut client = client;
            if read_or_close(&mut client, door)? {
                self.list.push(client)?;
            }
        }
        Ok(())
    }

    /// Writes once to each client that has waiting bytes. One that can't be written to is closed.
    pub(crate) fn write<D: Door>(&mut self, door: &mut D) -> Result<(), AllocError>
        ensures writes { OnOk result ((state : RoundState)
            → Advances (WritingTo (peers_of self.old.list.items)) (seen [] (D.calls door.old) state)
            (WritingTo []) (seen self.new.list.items (D.calls door.new) state)) }
        ensures connected { OnOk result (AreConnected (D.connected door.old) (numbers_of (peers_of self.old.list.items))
            → AreConnected (D.connected door.new) (numbers_of (peers_of self.new.list.items))) }
    {
        let kept = Vec::with_capacity(self.alloc, self.list.len())?;
        let unwritten = mem::replace(&mut self.list, kept);
        for client in unwritten {
            let mut client = client;
            if write_or_close(&mut client, door)? {
                self.list.push(client)?;
            }
        }
        Ok(())
    }

    /// The next request that may enter, under this number: that of the first client that has one and waits for no answer.
    pub(crate) fn enter(&mut self, id: u64) -> Option<Request>
        ensures entered { IfSome result (λ request. IsEntered id request (peers_of self.old.list.items)
            (peers_of self.new.list.items)) }
        ensures rest { IfNone result ((self.new.list.items ≡ self.old.list.items)
            × AllByRecursion IsAtRest (peers_of self.old.list.items)) }
        ensures numbers { numbers_of (peers_of self.new.list.items) ≡ numbers_of (peers_of self.old.list.items) }
    {
        for index in 0..self.list.len() {
            if let Some(request) = self.list[index].enter(id) {
                return Some(request);
            }
        }
        None
    }

    pub(crate) fn waits(&self, number: u32) -> bool
        ensures { result ≡ one_waits number (peers_of self.now.list.items) }
    {
        one_waits(self.list.as_slice(), number)
    }

    /// Queues the answer for the client whose request has this number, if it is still connected.
    pub(crate) fn answer(&mut self, id: u64, answer: &Answer) -> Result<(), AllocError>
        ensures { OnOk result (IsQueued id answer.now (peers_of self.old.list.items)
            (peers_of self.new.list.items)) }
    {
        for index in 0..self.list.len() {
            if self.list[index].answer(id, answer)? {
                return Ok(());
            }
        }
        Ok(())
    }
}
