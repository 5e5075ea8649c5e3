//! The live events in a linked list, from the oldest to the newest.
ghost use Rattle.std.specs.Prelude.{◌≡◌, ◌++◌, ◌∷◌, [], length, option_map, IfOk, IsSomeAnd, OnErr, Some, None};
ghost use Rattle.std.specs.Option.{option_copied};
ghost use Rattle.up_event.specs.Links.{after, first, from};
ghost use Rattle.up_event.specs.LiveEvents.{named, AreDistinct, new_live, with_change, without, as_handled, with_hold, without_hold, outcome_of, next_turn, IsLive, IsHeld, MayBeHeld, MayFinish};

use crate::live::{self, Finished, LiveEvent, TurnKind};
use crate::nodes::{self, Node};
use slab::Slab;
use std::alloc::{AllocError, Global};
use std::marker::Model;
use up_model::{Event, EventId};

/// The live events. Contracts see them as a list, oldest first.
#[derive(Drop)]
pub(crate) struct Queue {
    nodes: Slab<Node>,
    oldest: Option<usize>,
    newest: Option<usize>,
}

impl Model for Queue {
    ghost use Rattle.std.specs.Prelude.{List};
    ghost use Rattle.slab.specs.Slab.{slab_len};
    ghost use Rattle.up_event.specs.declared.live.LiveEvent.{LiveEvent};

    ghost Value = { List LiveEvent };

    ghost use Rattle.up_event.specs.Links.{AreLinked, walk};

    ghost view = { λ e. walk e.nodes (slab_len e.nodes) e.oldest };

    ghost invariant = { λ e. AreLinked e.nodes e.oldest e.newest (walk e.nodes (slab_len e.nodes) e.oldest) };
}

impl Queue {
    pub(crate) fn new(alloc: Global) -> Self
        ensures { result ≡ [] }
    {
        Queue {
            nodes: Slab::new(alloc),
            oldest: None,
            newest: None,
        }
    }

    pub(crate) fn len(&self) -> usize
        ensures count { result ≡ length self.now }
        ensures distinct { AreDistinct self.now }
    {
        self.nodes.len()
    }

    pub(crate) fn get(&self, id: EventId) -> &Event
        requires { IsLive id self.now }
        ensures { IsSomeAnd (named id self.now) (λ live. live.event ≡ result.now) }
    {
        &self.nodes[id.key].live.event
    }

    pub(crate) fn find(&self, id: EventId) -> Option<&LiveEvent>
        ensures { option_copied result ≡ named id self.now }
    {
        match self.nodes.get(id.key) {
            Some(node) => Some(&node.live),
            None => None,
        }
    }

    /// Adds an event as the newest.
    pub(crate) fn push(&mut self, event: Event, waiter: Option<u64>) -> Result<EventId, AllocError>
        ensures pushed { IfOk result (λ id. self.new ≡ self.old ++ new_live id event waiter ∷ []) }
        ensures fresh { IfOk result (λ id. named id self.old ≡ None) }
        ensures live { IfOk result (λ id. named id self.new ≡ Some (new_live id event waiter)) }
        ensures refused { OnErr result (self.new ≡ self.old) }
        ensures distinct { AreDistinct self.new }
    {
        let id = nodes::append(&mut self.nodes, self.newest, event, waiter)?;
        self.oldest = self.oldest.or(Some(id.key));
        self.newest = Some(id.key);
        Ok(id)
    }

    // The first turn that is due for an event from this place on.
    fn turn_from(&self, start: Option<usize>) -> Option<(EventId, TurnKind)>
        requires { first (from start self.now) ≡ start }
        ensures { result ≡ next_turn (from start self.now) }
    {
        let mut at = start;
        while let Some(key) = at {
            let node = &self.nodes[key];
            if let Some(turn) = live::turn_of(&node.live) {
                return Some(turn);
            }
            at = node.newer;
        }
        None
    }

    /// The first turn that is due.
    pub(crate) fn first_turn(&self) -> Option<(EventId, TurnKind)>
        ensures { result ≡ next_turn self.now }
    {
        self.turn_from(self.oldest)
    }

    /// The first turn that is due for this event or for a newer one.
    pub(crate) fn turn_since(&self, id: EventId) -> Option<(EventId, TurnKind)>
        requires { IsLive id self.now }
        ensures { result ≡ next_turn (from (Some id.key) self.now) }
    {
        self.turn_from(Some(id.key))
    }

    /// The first turn that is due for an event that is newer than this one.
    pub(crate) fn turn_after(&self, id: EventId) -> Option<(EventId, TurnKind)>
        requires { IsLive id self.now }
        ensures { result ≡ next_turn (after id.key self.now) }
    {
        self.turn_from(self.nodes[id.key].newer)
    }

    pub(crate) fn handled(&mut self, id: EventId)
        requires { IsLive id self.old }
        ensures changed { self.new ≡ with_change id as_handled self.old }
        ensures distinct { AreDistinct self.new }
    {
        nodes::handle(&mut self.nodes, id.key);
    }

    pub(crate) fn hold(&mut self, id: EventId)
        requires { MayBeHeld id self.old }
        ensures changed { self.new ≡ with_change id with_hold self.old }
        ensures distinct { AreDistinct self.new }
    {
        nodes::hold(&mut self.nodes, id.key);
    }

    pub(crate) fn release(&mut self, id: EventId, failed: bool)
        requires { IsHeld id self.old }
        ensures changed { self.new ≡ with_change id (without_hold failed) self.old }
        ensures distinct { AreDistinct self.new }
    {
        nodes::release(&mut self.nodes, id.key, failed);
    }

    pub(crate) fn finish(&mut self, id: EventId) -> Finished
        requires { MayFinish id self.old }
        ensures outcome { option_map outcome_of (named id self.old) ≡ Some result }
        ensures gone { self.new ≡ without id self.old }
        ensures distinct { AreDistinct self.new }
    {
        let node = nodes::take_out(&mut self.nodes, id.key);
        self.oldest = nodes::end_without(node.older, self.oldest, node.newer);
        self.newest = nodes::end_without(node.newer, self.newest, node.older);
        live::outcome_of(node.live)
    }
}
