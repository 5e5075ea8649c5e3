//! The queue of live events, with the turn that is due.
ghost use Rattle.std.specs.Prelude.{◌≡◌, ◌++◌, ◌∷◌, [], length, option_map, IfOk, IfSome, IsSomeAnd, OnErr, Some, None};
ghost use Rattle.std.specs.Option.{option_copied};
ghost use Rattle.up_event.specs.LiveEvents.{named, AreDistinct, new_live, with_change, without, as_handled, with_hold, without_hold, outcome_of, next_turn, IsLive, IsHeld, MayBeHeld, MayFinish};
ghost use Rattle.up_event.specs.Turns.{has_turn, is_turn_of};

use crate::live::{self, Finished, LiveEvent, TurnKind};
use crate::queue::Queue;
use std::alloc::{AllocError, Global};
use std::marker::Model;
use up_model::{Event, EventId};

/// The live events. Contracts see them as a list, oldest first.
#[derive(Drop)]
pub struct Events {
    queue: Queue,
    // The turn that is due, so that nobody searches for it past events that are held.
    next: Option<(EventId, TurnKind)>,
}

impl Model for Events {
    ghost use Rattle.std.specs.Prelude.{◌≡◌, List};
    ghost use Rattle.up_event.specs.declared.live.LiveEvent.{LiveEvent};
    ghost use Rattle.up_event.specs.LiveEvents.{next_turn, AreDistinct};

    ghost Value = { List LiveEvent };

    ghost view = { λ e. e.queue };

    ghost invariant = { λ e. (e.next ≡ next_turn e.queue) × AreDistinct e.queue };
}

fn is_turn_of(turn: Option<(EventId, TurnKind)>, id: EventId) -> bool
    ensures { result ≡ is_turn_of id turn }
{
    match turn {
        Some((other, _)) => other.key == id.key,
        None => false,
    }
}

fn has_turn(queue: &Queue, id: EventId) -> bool
    ensures { result ≡ has_turn (named id queue.now) }
{
    match queue.find(id) {
        Some(live) => live::turn_of(live).is_some(),
        None => false,
    }
}

impl Events {
    pub fn new(alloc: Global) -> Self
        ensures { result ≡ [] }
    {
        Events {
            queue: Queue::new(alloc),
            next: None,
        }
    }

    pub fn len(&self) -> usize
        ensures count { result ≡ length self.now }
        ensures distinct { AreDistinct self.now }
    {
        self.queue.len()
    }

    pub fn get(&self, id: EventId) -> &Event
        requires { IsLive id self.now }
        ensures { IsSomeAnd (named id self.now) (λ live. live.event ≡ result.now) }
    {
        self.queue.get(id)
    }

    pub fn find(&self, id: EventId) -> Option<&LiveEvent>
        ensures { option_copied result ≡ named id self.now }
    {
        self.queue.find(id)
    }

    /// Adds an event as the newest, with the client that waits for it. Its id may be that of an event that has finished.
    pub fn push(&mut self, event: Event, waiter: Option<u64>) -> Result<EventId, AllocError>
        ensures pushed { IfOk result (λ id. self.new ≡ self.old ++ new_live id event waiter ∷ []) }
        ensures fresh { IfOk result (λ id. named id self.old ≡ None) }
        ensures live { IfOk result (λ id. named id self.new ≡ Some (new_live id event waiter)) }
        ensures refused { OnErr result (self.new ≡ self.old) }
        ensures distinct { AreDistinct self.new }
    {
        let id = self.queue.push(event, waiter)?;
        self.next = self.next.or(Some((id, TurnKind::Handle)));
        Ok(id)
    }

    /// What the next turn does: it takes up or finishes the oldest event that isn't both taken up and held.
    pub fn next_turn(&self) -> Option<(EventId, TurnKind)>
        ensures turn { result ≡ next_turn self.now }
        ensures live { IfSome result (λ turn. IsLive turn.0 self.now) }
        ensures finishes { IfSome result (λ turn. turn.1 ≡ TurnKind.Finish → MayFinish turn.0 self.now) }
        ensures distinct { AreDistinct self.now }
    {
        self.next
    }

    /// Notes that a turn took an event up.
    pub fn handled(&mut self, id: EventId)
        requires { IsLive id self.old }
        ensures changed { self.new ≡ with_change id as_handled self.old }
        ensures distinct { AreDistinct self.new }
    {
        self.queue.handled(id);
        if is_turn_of(self.next, id) {
            self.next = self.queue.turn_since(id);
        }
    }

    /// Holds an event once more: until all its holds are released, it can't finish.
    pub fn hold(&mut self, id: EventId)
        requires { MayBeHeld id self.old }
        ensures changed { self.new ≡ with_change id with_hold self.old }
        ensures distinct { AreDistinct self.new }
    {
        self.queue.hold(id);
        if is_turn_of(self.next, id) {
            self.next = self.queue.turn_since(id);
        }
    }

    /// Releases one hold of an event.
    pub fn release(&mut self, id: EventId, failed: bool)
        requires { IsHeld id self.old }
        ensures changed { self.new ≡ with_change id (without_hold failed) self.old }
        ensures distinct { AreDistinct self.new }
    {
        self.queue.release(id, failed);
        if has_turn(&self.queue, id) {
            self.next = self.queue.first_turn();
        }
    }

    pub fn finish(&mut self, id: EventId) -> Finished
        requires { MayFinish id self.old }
        ensures outcome { option_map outcome_of (named id self.old) ≡ Some result }
        ensures gone { self.new ≡ without id self.old }
        ensures distinct { AreDistinct self.new }
    {
        if is_turn_of(self.next, id) {
            self.next = self.queue.turn_after(id);
        }
        self.queue.finish(id)
    }
}
