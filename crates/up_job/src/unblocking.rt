//! An event that has finished blocks nobody.
ghost use Rattle.std.specs.Prelude.{◌≡◌, ◌+◌, ◌||◌, ◌&&◌, nat_le, nat_lt, if◌then◌else◌};
ghost use Rattle.up_job.specs.Lists.{with_at};
ghost use Rattle.up_job.specs.Unblocking.{blocked_from, is_event, unblocked};
ghost use Rattle.up_job.specs.Waiting.{any_waits, is_wait};

use crate::change::Change;
use crate::instance::Instance;
use up_model::EventId;

fn is_wait(its: &Change) -> bool
    ensures { result ≡ is_wait its.now }
{
    match its {
        Change::Waits(event) => event.is_some(),
        _ => false,
    }
}

/// Whether one of several may wait for an event after a change.
pub(crate) fn may_wait(before: bool, its: &Change) -> bool
    ensures { result ≡ (before || is_wait its.now) }
{
    before || is_wait(its)
}

/// The index of a job before which no instance waits for an event, after a change of one of this job.
pub(crate) fn quiet_after(quiet: usize, its: &Change, job: usize) -> usize
    ensures { result ≡ (if is_wait its.now && nat_lt job quiet then job else quiet) }
{
    if is_wait(its) && job < quiet {
        job
    } else {
        quiet
    }
}

/// The index of a job from which on no instance waits for an event, after a change of one of this job. There are `count` jobs.
pub(crate) fn calm_after(calm: usize, its: &Change, job: usize, count: usize) -> usize
    ensures { result ≡ (if (is_wait its.now && nat_le calm job) && nat_lt job count then job + 1 else calm) }
{
    if is_wait(its) && calm <= job && job < count {
        job + 1
    } else {
        calm
    }
}

pub(crate) fn any_waits(instances: &[Instance]) -> bool
    ensures { result ≡ any_waits instances.now }
{
    instances.iter().any(|instance| instance.blocker.is_some())
}

fn is_event(event: Option<EventId>, id: EventId) -> bool
    ensures { result ≡ is_event id event }
{
    match event {
        Some(other) => other.key == id.key,
        None => false,
    }
}

fn unblock(instance: &mut Instance, id: EventId)
    ensures { instance.new ≡ unblocked id instance.old }
{
    if is_event(instance.blocker, id) {
        instance.blocker = None;
    }
}

#[tactic(auto, using(crate::proofs::Places::set_with_at, crate::proofs::Places::none_with_at))]
pub(crate) fn unblock_at(instances: &mut Vec<Instance>, at: usize, id: EventId)
    ensures { instances.new.items ≡ with_at at (unblocked id) instances.old.items }
{
    if at < instances.len() {
        unblock(&mut instances[at], id);
    }
}

fn is_blocked(instance: &Instance, id: EventId) -> bool
    ensures { result ≡ is_event id instance.now.blocker }
{
    is_event(instance.blocker, id)
}

#[tactic(auto, using(crate::proofs::Blocked::blocked_left))]
pub(crate) fn first_blocked(instances: &[Instance], id: EventId) -> Option<usize>
    ensures { result ≡ blocked_from id 0 instances.now }
{
    for (at, instance) in instances.iter().enumerate() {
        if is_blocked(instance, id) {
            return Some(at);
        }
    }
    None
}
