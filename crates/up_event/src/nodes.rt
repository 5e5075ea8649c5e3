//! The nodes in which the live events are kept: each is linked to the next older and the next newer one.
ghost use Rattle.std.specs.Prelude.{◌≡◌, ℕ, ◌+◌, ◌<◌, ◌^◌, IfSome, IsSomeAnd, IfOk, OnOk, OnErr, Some};
ghost use Rattle.slab.specs.Slab.{get, slab_len, ContainsKey};
ghost use Rattle.up_event.specs.Links.{Changes, IsNeighbour, after_push, after_removal, end_without, with_live, with_newer, with_older};
ghost use Rattle.up_event.specs.LiveEvents.{as_handled, with_hold, new_live, without_hold};

use crate::live::{self, LiveEvent};
use slab::Slab;
use std::alloc::AllocError;
use up_model::{Event, EventId};

/// A live event between its neighbours.
#[derive(Drop)]
pub(crate) struct Node {
    pub(crate) live: LiveEvent,
    pub(crate) older: Option<usize>,
    pub(crate) newer: Option<usize>,
}

/// Sets the newer neighbour of the node at a key, if any.
pub(crate) fn set_newer(nodes: &mut Slab<Node>, at: Option<usize>, newer: Option<usize>)
    requires { IfSome at (ContainsKey nodes.old) }
    ensures { Changes nodes.old nodes.new (with_newer at newer) }
{
    if let Some(key) = at {
        nodes[key].newer = newer;
    }
}

/// Sets the older neighbour of the node at a key, if any.
pub(crate) fn set_older(nodes: &mut Slab<Node>, at: Option<usize>, older: Option<usize>)
    requires { IfSome at (ContainsKey nodes.old) }
    ensures { Changes nodes.old nodes.new (with_older at older) }
{
    if let Some(key) = at {
        nodes[key].older = older;
    }
}

/// Notes that the event at a key was taken up.
pub(crate) fn handle(nodes: &mut Slab<Node>, key: usize)
    requires { ContainsKey nodes.old key }
    ensures { Changes nodes.old nodes.new (with_live key as_handled) }
{
    nodes[key].live.handled = true;
}

pub(crate) fn hold(nodes: &mut Slab<Node>, key: usize)
    requires { IsSomeAnd (get nodes.old key) (λ node. node.live.holds + 1 < 2 ^ 128) }
    ensures { Changes nodes.old nodes.new (with_live key with_hold) }
{
    nodes[key].live.holds += 1;
}

pub(crate) fn release(nodes: &mut Slab<Node>, key: usize, failed: bool)
    requires { IsSomeAnd (get nodes.old key) (λ node. 0 < node.live.holds) }
    ensures { Changes nodes.old nodes.new (with_live key (without_hold failed)) }
{
    let live = &mut nodes[key].live;
    live.holds -= 1;
    live.spoilt = live.spoilt || failed;
}

/// Adds an event after the newest one.
pub(crate) fn append(
    nodes: &mut Slab<Node>,
    newest: Option<usize>,
    event: Event,
    waiter: Option<u64>,
) -> Result<EventId, AllocError>
    requires { IfSome newest (ContainsKey nodes.old) }
    ensures was_vacant { IfOk result (λ id. get nodes.old id.key ≡ None) }
    ensures nodes { IfOk result (λ id. (key : ℕ) →
        get nodes.new key ≡ after_push newest (new_live id event waiter) key (get nodes.old key)) }
    ensures count { OnOk result (slab_len nodes.new ≡ slab_len nodes.old + 1) }
    ensures refused { OnErr result (nodes.new ≡ record nodes.old { capacity = nodes.new.capacity }) }
{
    if nodes.reserve(1).is_err() {
        drop(event);
        return Err(AllocError);
    }
    let id = EventId {
        key: nodes.vacant_key(),
    };
    let live = live::new_live(id, event, waiter);
    nodes.insert_reserved(Node {
        live,
        older: newest,
        newer: None,
    });
    set_newer(nodes, newest, Some(id.key));
    Ok(id)
}

/// Takes an event out from between its neighbours.
pub(crate) fn take_out(nodes: &mut Slab<Node>, key: usize) -> Node
    requires { IsSomeAnd (get nodes.old key)
        (λ node. IsNeighbour nodes.old key node.older × IsNeighbour nodes.old key node.newer) }
    ensures taken { get nodes.old key ≡ Some result }
    ensures nodes { (other : ℕ) →
        get nodes.new other ≡ after_removal key result.older result.newer other (get nodes.old other) }
    ensures count { slab_len nodes.new + 1 ≡ slab_len nodes.old }
{
    let node = nodes.remove(key);
    set_newer(nodes, node.older, node.newer);
    set_older(nodes, node.newer, node.older);
    node
}

/// An end of the queue after an event was taken out: the event on its inner side, if there was none beyond it.
pub(crate) fn end_without(
    beyond: Option<usize>,
    end: Option<usize>,
    inner: Option<usize>,
) -> Option<usize>
    ensures { result ≡ end_without beyond end inner }
{
    match beyond {
        None => inner,
        Some(_) => end,
    }
}
