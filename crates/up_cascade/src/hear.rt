//! How each job hears of the event that a turn takes up.
ghost use Rattle.std.specs.Prelude.{◌≡◌, ◌≤◌, ◌<◌, ◌||◌, ℕ, true, ◌++◌, [], length, Some, IsOk, IfOk, IfSome, MatchOption, OnOk};
ghost use Rattle.up_book.specs.Hearers.{one_hears};
ghost use Rattle.up_marks.specs.Ruling.{may_hear};
ghost use Rattle.up_book.specs.Histories.{KeepsPlaces, OfEvent, OfOffer};
ghost use Rattle.up_book.specs.Keys.{Stepping, job_at, name_at};
ghost use Rattle.up_cascade.specs.Histories.{taken_up};
ghost use Rattle.up_cascade.specs.Settling.{settle_one, ListsAfter};
ghost use Rattle.up_cascade.specs.Settling as settling;
ghost use Rattle.up_cascade.specs.Unfired.{NoneHolds};
ghost use Rattle.up_cascade.specs.Unheard.{AreUnheard, NoneHears};
ghost use Rattle.up_model.specs.Chronicle.{Chronicle};
ghost use Rattle.up_model.specs.Due.{due};
ghost use Rattle.up_model.specs.Readings.{event_at};
ghost use Rattle.up_model.specs.Instances.{instances_of};
ghost use Rattle.up_model.specs.Offers as model;
ghost use Rattle.up_model.specs.Values.{Bytes};

use crate::moves::{file_of, moves};
use crate::offers::{offer_start, offer_stop};
use crate::settle::settle_each;
use crate::setup::Setup;
use std::alloc::{AllocError, Global};
use up_book::Book;
use up_image::JobFile;
use up_job::InstanceKey;
use up_model::EventId;

// Offers the event to the `stop on` of an instance's file, and moves the instance on as long as it may; returns whether it is still there.
fn hear_by<B: Book>(
    alloc: Global,
    setup: &Setup,
    book: &mut B,
    file: &JobFile,
    key: InstanceKey,
    event: EventId,
) -> Result<bool, AllocError>
    ensures after { OnOk result (OfOffer (B.stands book.old Stepping) (B.event_place book.old) setup.now key event (λ c its e.
        its.file ≡ file.now → B.stands book.new Stepping setup.now
        (settle_one 5 file.now its (model.stop_offer setup.now file.now its.place e c ++ c)))) }
    ensures lists { IfOk result (λ stays.
        OfOffer (B.stands book.old Stepping) (B.event_place book.old) setup.now key event (λ c its e.
        its.file ≡ file.now → ListsAfter stays its c (settle_one 5 file.now its (model.stop_offer setup.now file.now its.place e c ++ c)))) }
    ensures events { OnOk result (OfOffer (B.stands book.old Stepping) (B.event_place book.old) setup.now key event (λ c its e.
        its.file ≡ file.now → KeepsPlaces B.event_place book.old book.new c
        (settle_one 5 file.now its (model.stop_offer setup.now file.now its.place e c ++ c)))) }
{
    offer_stop(alloc, setup, book, file, key, event)?;
    let stays = moves(alloc, setup, book, file.job(), key)?;
    Ok(stays)
}

// Offers the event to an instance's `stop on`; returns whether the instance is still there.
fn hear_stop<B: Book>(
    alloc: Global,
    setup: &Setup,
    book: &mut B,
    key: InstanceKey,
    event: EventId,
) -> Result<bool, AllocError>
    ensures after { OnOk result (OfOffer (B.stands book.old Stepping) (B.event_place book.old) setup.now key event (λ c its e.
        B.stands book.new Stepping setup.now
        (settle_one 5 its.file its (model.stop_offer setup.now its.file its.place e c ++ c)))) }
    ensures lists { IfOk result (λ stays.
        OfOffer (B.stands book.old Stepping) (B.event_place book.old) setup.now key event (λ c its e.
        ListsAfter stays its c (settle_one 5 its.file its (model.stop_offer setup.now its.file its.place e c ++ c)))) }
    ensures events { OnOk result (OfOffer (B.stands book.old Stepping) (B.event_place book.old) setup.now key event (λ c its e.
        KeepsPlaces B.event_place book.old book.new c
        (settle_one 5 its.file its (model.stop_offer setup.now its.file its.place e c ++ c)))) }
{
    match file_of(book, key)? {
        Some(file) => {
            let stays = hear_by(alloc, setup, book, &file, key, event)?;
            Ok(stays)
        }
        None => Ok(false),
    }
}

// Offers the event to the `stop on` of each instance of a job.
fn hear_stops<B: Book>(
    alloc: Global,
    setup: &Setup,
    book: &mut B,
    index: usize,
    event: EventId,
) -> Result<(), AllocError>
    ensures after { OnOk result ((c : Chronicle) (name : Bytes) (e : ℕ) → B.stands book.old Stepping setup.now c
        → name_at setup.now index ≡ Some name → B.event_place book.old c event ≡ Some e
        → B.stands book.new Stepping setup.now (settling.hear_stops setup.now (instances_of name c) e c)) }
    ensures events { OnOk result ((c : Chronicle) (name : Bytes) (e : ℕ)
        → B.stands book.old Stepping setup.now c → name_at setup.now index ≡ Some name
        → B.event_place book.old c event ≡ Some e → KeepsPlaces B.event_place book.old book.new c
        (settling.hear_stops setup.now (instances_of name c) e c)) }
{
    let mut at = 0;
    for turn in 0..book.count(index) {
        let key = InstanceKey { job: index, at };
        if hear_stop(alloc, setup, book, key, event)? {
            at += 1;
        }
    }
    Ok(())
}

// Offers the event to a job's `start on`. Then only the instance that this starts may move on.
fn hear_start<B: Book>(
    alloc: Global,
    setup: &Setup,
    book: &mut B,
    index: usize,
    file: &JobFile,
    event: EventId,
) -> Result<(), AllocError>
    ensures after { OnOk result ((c : Chronicle) (e : ℕ) → B.stands book.old Stepping setup.now c
        → job_at setup.now index ≡ Some file.now → B.event_place book.old c event ≡ Some e
        → B.stands book.new Stepping setup.now (settling.hear_start setup.now file.now e c)) }
    ensures events { OnOk result ((c : Chronicle) (e : ℕ) → B.stands book.old Stepping setup.now c
        → job_at setup.now index ≡ Some file.now → B.event_place book.old c event ≡ Some e
        → KeepsPlaces B.event_place book.old book.new c (settling.hear_start setup.now file.now e c)) }
{
    offer_start(alloc, setup, book, index, file, event)?;
    settle_each(alloc, setup, book, index)?;
    Ok(())
}

fn hear<B: Book>(
    alloc: Global,
    setup: &Setup,
    book: &mut B,
    index: usize,
    file: &JobFile,
    event: EventId,
) -> Result<(), AllocError>
    ensures after { OnOk result ((c : Chronicle) (e : ℕ) → B.stands book.old Stepping setup.now c
        → job_at setup.now index ≡ Some file.now → B.event_place book.old c event ≡ Some e
        → B.stands book.new Stepping setup.now (settling.hear setup.now file.now e c)) }
    ensures events { OnOk result ((c : Chronicle) (e : ℕ) → B.stands book.old Stepping setup.now c
        → job_at setup.now index ≡ Some file.now → B.event_place book.old c event ≡ Some e
        → KeepsPlaces B.event_place book.old book.new c (settling.hear setup.now file.now e c)) }
{
    hear_stops(alloc, setup, book, index, event)?;
    hear_start(alloc, setup, book, index, file, event)?;
    Ok(())
}

// The first job at or after an index of the table that hears of the event, with its index.
fn next_hearer<'a, B: Book>(
    setup: &'a Setup,
    book: &B,
    event: EventId,
    from: usize,
) -> Option<(usize, &'a JobFile)>
    ensures next { OfEvent (B.stands book.now Stepping) (B.event_place book.now) setup.now event (λ c e.
        MatchOption result (AreUnheard setup.now (event_at e c) c from (length setup.now.jobs)) (λ found.
        (job_at setup.now found.0 ≡ Some found.1.now) × AreUnheard setup.now (event_at e c) c from found.0)) }
    ensures hears { OfEvent (B.stands book.now Stepping) (B.event_place book.now) setup.now event (λ c e. IfSome
        result (λ found. (may_hear found.1.now.start_on (event_at e c) || one_hears (event_at e c) (instances_of
        found.1.now.name c)) ≡ true)) }
    ensures within { IfSome result (λ found. (from ≤ found.0) × (found.0 < length setup.now.jobs)
        × (found.0 < 18446744073709551615)) }
{
    let jobs = setup.jobs();
    let mut from = from;
    // A job may be found by its file's `stop on` that has no instance.
    'candidates: while let Some(index) = book.next_hearer(jobs, event, from) {
        if index >= jobs.len() {
            return None;
        }
        let file = &jobs[index];
        if book.hears(index, file, event) {
            return Some((index, file));
        }
        from = index + 1;
    }
    None
}

/// Each job hears of the event that a turn takes up, one after another. The jobs that don't name it, or that rule it out by the literal
/// values of their leaves, are passed over: they remember nothing of it.
pub fn hear_all<B: Book>(
    alloc: Global,
    setup: &Setup,
    book: &mut B,
    event: EventId,
) -> Result<(), AllocError>
    ensures after { OnOk result ((c : Chronicle) (e : ℕ) → due setup.now c ≡ [] → NoneHolds setup.now c
        → B.stands book.old Stepping setup.now (taken_up e c)
        → B.event_place book.old (taken_up e c) event ≡ Some e
        → B.stands book.new Stepping setup.now
        (settling.hear_all setup.now setup.now.jobs e (taken_up e c))) }
    ensures unheard { OfEvent (B.stands book.old Stepping) (B.event_place book.old) setup.now event (λ c e.
        NoneHears setup.now (event_at e c) c → IsOk result × (book.new ≡ book.old)) }
{
    setup.names_differ();
    let mut from = 0;
    'hearers: while let Some((index, file)) = next_hearer(setup, book, event, from) {
        book.passes_by();
        hear(alloc, setup, book, index, file, event)?;
        from = index + 1;
    }
    book.passes_by();
    Ok(())
}
