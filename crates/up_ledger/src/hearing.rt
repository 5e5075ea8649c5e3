//! Offers to triggers, and the firing of triggers.
ghost use Rattle.std.specs.Prelude.{◌≡◌, map, IfOk, OnOk};
ghost use Rattle.up_ledger.specs.Hearing.{Fires, Hears, trigger_at, trigger_in};
ghost use Rattle.up_job.specs.JobLists.{changed_at};
ghost use Rattle.up_job.specs.Lending.{with_stop_on};
ghost use Rattle.up_job.specs.Lists.{with_at};

use std::alloc::{AllocError, Global};
use up_expr::Condition;
use up_image::Place;
use up_job::{InstanceKey, Instances};
use up_marks::{Firing, Offer, Trigger};
use up_model::{Event, EventId};
use up_text::Env;

/// Offers an event to the leaves of an instance's `stop on` at these places.
pub(crate) fn offer_to_stop(
    instances: &mut Instances,
    key: InstanceKey,
    alloc: Global,
    condition: &Option<Condition>,
    places: &[Place],
    id: EventId,
    event: &Event,
    env: &Env,
) -> Result<Offer, AllocError>
    ensures only { OnOk result (instances.new
        ≡ changed_at key (with_stop_on (trigger_at key instances.new)) instances.old) }
    ensures hears { IfOk result (λ offer. Hears (trigger_at key instances.old) (trigger_at key instances.new)
        condition.now (map (λ place. place.node) places.now) id event.now env.now offer) }
{
    if instances.at(key).is_none() {
        return Err(AllocError);
    }
    instances
        .stop_on_mut(key)
        .offer(alloc, condition, places, id, event, env)
}

/// An instance's `stop on` fires.
pub(crate) fn fire_stop(
    instances: &mut Instances,
    key: InstanceKey,
    alloc: Global,
    condition: &Option<Condition>,
) -> Result<Firing, AllocError>
    ensures only { OnOk result (instances.new
        ≡ changed_at key (with_stop_on (trigger_at key instances.new)) instances.old) }
    ensures fires { IfOk result (λ firing. Fires (trigger_at key instances.old) (trigger_at key instances.new)
        condition.now firing) }
{
    if instances.at(key).is_none() {
        return Err(AllocError);
    }
    instances.stop_on_mut(key).fire(alloc, condition)
}

/// Offers an event to the leaves of a job's `start on` at these places.

pub(crate) fn offer_to_start(
    starts: &mut Vec<Trigger>,
    job: usize,
    alloc: Global,
    condition: &Option<Condition>,
    places: &[Place],
    id: EventId,
    event: &Event,
    env: &Env,
) -> Result<Offer, AllocError>
    ensures only { OnOk result (starts.new.items
        ≡ with_at job (λ old. trigger_in job starts.new.items) starts.old.items) }
    ensures hears { IfOk result (λ offer. Hears (trigger_in job starts.old.items) (trigger_in job starts.new.items)
        condition.now (map (λ place. place.node) places.now) id event.now env.now offer) }
{
    if job >= starts.len() {
        return Err(AllocError);
    }
    starts[job].offer(alloc, condition, places, id, event, env)
}

/// A job's `start on` fires.

pub(crate) fn fire_start(
    starts: &mut Vec<Trigger>,
    job: usize,
    alloc: Global,
    condition: &Option<Condition>,
) -> Result<Firing, AllocError>
    ensures only { OnOk result (starts.new.items
        ≡ with_at job (λ old. trigger_in job starts.new.items) starts.old.items) }
    ensures fires { IfOk result (λ firing. Fires (trigger_in job starts.old.items) (trigger_in job starts.new.items)
        condition.now firing) }
{
    if job >= starts.len() {
        return Err(AllocError);
    }
    starts[job].fire(alloc, condition)
}
