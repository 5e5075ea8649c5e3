//! Events that are held once more, or once less.
ghost use Rattle.std.specs.Prelude.{◌≡◌, ◌==◌, not, OnOk, true};
ghost use Rattle.std.specs.Option.{option_copied};
ghost use Rattle.up_ledger.specs.Eventing.{holds_of};
ghost use Rattle.up_event.specs.LiveEvents.{with_change, with_hold, MayBeHeld};
ghost use Rattle.up_ledger.specs.Counting.{event_of};
ghost use Rattle.up_ledger.specs.Holding.{freed, changed_by, all_changed, held_by_kept, as_holders};
ghost use Rattle.up_marks.specs.Triggers.{kept_by};
ghost use Rattle.std.specs.Prelude.{false, replicate};

use std::alloc::{AllocError, Global};
use up_event::Events;
use up_job::{Holder, Instance};
use up_model::EventId;

fn event_of(holder: Holder) -> Option<EventId>
    ensures { result ≡ event_of holder }
{
    match holder {
        Holder::Event(id) => Some(id),
        Holder::Client { .. } => None,
    }
}

fn may_be_held(events: &Events, id: EventId) -> bool
    ensures { result ≡ true → MayBeHeld id events.now }
{
    match events.find(id) {
        Some(live) => live.holds < u128::MAX,
        None => false,
    }
}

fn hold_event(events: &mut Events, id: EventId) -> Result<(), AllocError>
    ensures { OnOk result (events.new ≡ with_change id with_hold events.old) }
{
    if !may_be_held(events, id) {
        return Err(AllocError);
    }
    events.hold(id);
    Ok(())
}

fn hold_one(events: &mut Events, holder: Holder) -> Result<(), AllocError>
    ensures { OnOk result (events.new ≡ changed_by with_hold (event_of holder) events.old) }
{
    match event_of(holder) {
        Some(id) => hold_event(events, id)?,
        None => {}
    }
    Ok(())
}

/// Adds a hold to the event of each of these holders.
#[tactic(auto, using(crate::proofs::Holds::holders_left))]
pub(crate) fn hold_all(events: &mut Events, holders: &[Holder]) -> Result<(), AllocError>
    ensures { OnOk result (events.new ≡ all_changed with_hold holders.now events.old) }
{
    for holder in holders {
        hold_one(events, *holder)?;
    }
    Ok(())
}

fn is_held(events: &Events, id: EventId) -> bool
    ensures { result ≡ (not (holds_of id events.now == 0)) }
{
    match events.find(id) {
        Some(live) => live.holds != 0,
        None => false,
    }
}

#[tactic(auto, using(crate::proofs::Holds::freed_held, crate::proofs::Holds::freed_none, crate::proofs::Holds::may_release))]
fn free_event(events: &mut Events, id: EventId, failed: bool)
    ensures { events.new ≡ with_change id (freed failed) events.old }
{
    if is_held(events, id) {
        events.release(id, failed);
    }
}

fn free_one(events: &mut Events, holder: Holder, failed: bool)
    ensures { events.new ≡ changed_by (freed failed) (event_of holder) events.old }
{
    match event_of(holder) {
        Some(id) => free_event(events, id, failed),
        None => {}
    }
}

/// Removes a hold from the event of each of these holders. Takes no memory.
#[tactic(auto, using(crate::proofs::Holds::holders_left))]
pub(crate) fn free_all(events: &mut Events, holders: &[Holder], failed: bool)
    ensures { events.new ≡ all_changed (freed failed) holders.now events.old }
{
    for holder in holders {
        free_one(events, *holder, failed);
    }
}

/// Removes a hold from each event that an instance holds. Takes no memory.
pub(crate) fn free_held(events: &mut Events, kept: Option<&Instance>, failed: bool)
    ensures { events.new ≡ all_changed (freed failed) (held_by_kept (option_copied kept.entry)) events.old }
{
    match kept {
        Some(kept) => free_all(events, kept.holders.as_slice(), failed),
        None => {}
    }
}

/// Removes a hold from each of these events. Takes no memory.
#[tactic(auto, using(crate::proofs::Holds::ids_left))]
pub(crate) fn free_ids(events: &mut Events, ids: &[EventId])
    ensures { events.new ≡ all_changed (freed false) (as_holders ids.now) events.old }
{
    for id in ids {
        free_event(events, *id, false);
    }
}

/// Removes a hold from each event that an instance held, for each leaf of its `stop on` too.
pub(crate) fn free_all_of(
    alloc: Global,
    events: &mut Events,
    gone: &Instance,
) -> Result<(), AllocError>
    ensures { OnOk result (events.new ≡ all_changed (freed false) (as_holders (kept_by gone.now.stop_on))
        (all_changed (freed false) gone.now.holders events.old)) }
{
    let ids = gone.stop_on.kept(alloc)?;
    free_all(events, gone.holders.as_slice(), false);
    free_ids(events, ids.as_slice());
    Ok(())
}

#[tactic(auto, using(crate::proofs::Holds::times_left))]
pub(crate) fn hold_times(events: &mut Events, id: EventId, times: usize) -> Result<(), AllocError>
    ensures { OnOk result (events.new ≡ all_changed with_hold (as_holders (replicate times id)) events.old) }
{
    for held in 0..times {
        hold_event(events, id)?;
    }
    Ok(())
}
