//! Does what is due until nothing is.
ghost use Rattle.std.specs.Prelude.{◌≡◌, ◌++◌, Some, OnOk};
ghost use Rattle.up_book.specs.Histories.{KeepsPlaces, OfWhole};
ghost use Rattle.up_book.specs.Keys.{Stepping, name_at};
ghost use Rattle.up_cascade.specs.Settling as settling;
ghost use Rattle.up_model.specs.Chronicle.{Chronicle};
ghost use Rattle.up_model.specs.Instances.{instances_of};
ghost use Rattle.up_model.specs.Replies.{answering_last};
ghost use Rattle.up_model.specs.Values.{Bytes};

use crate::moves::moves_on;
use crate::setup::Setup;
use std::alloc::{AllocError, Global};
use up_book::Book;
use up_job::InstanceKey;

/// Moves each instance of the job at an index on, as long as it may.
pub(crate) fn settle_each<B: Book>(
    alloc: Global,
    setup: &Setup,
    book: &mut B,
    index: usize,
) -> Result<(), AllocError>
    ensures after { OnOk result ((c : Chronicle) (name : Bytes) → B.stands book.old Stepping setup.now c
        → name_at setup.now index ≡ Some name
        → B.stands book.new Stepping setup.now (settling.settle_each (instances_of name c) c)) }
    ensures events { OnOk result ((c : Chronicle) (name : Bytes) → B.stands book.old Stepping setup.now c
        → name_at setup.now index ≡ Some name
        → KeepsPlaces B.event_place book.old book.new c (settling.settle_each (instances_of name c) c)) }
{
    let mut at = 0;
    for turn in 0..book.count(index) {
        let key = InstanceKey { job: index, at };
        if moves_on(alloc, setup, book, key)? {
            at += 1;
        }
    }
    Ok(())
}

// Moves all instances on, job by job.
fn settle_all<B: Book>(alloc: Global, setup: &Setup, book: &mut B) -> Result<(), AllocError>
    ensures { OnOk result ((c : Chronicle) → B.stands book.old Stepping setup.now c
        → B.stands book.new Stepping setup.now (settling.settle_all setup.now.jobs c)) }
{
    let jobs = setup.jobs();
    for index in 0..jobs.len() {
        settle_each(alloc, setup, book, index)?;
    }
    Ok(())
}

/// Moves all instances on, job by job, and answers the client of this step if it doesn't wait.
pub fn settle_jobs<B: Book>(alloc: Global, setup: &Setup, book: &mut B) -> Result<(), AllocError>
    ensures { OnOk result ((c : Chronicle) → B.stands book.old Stepping setup.now c
        → B.stands book.new Stepping setup.now (answering_last (settling.settle_all setup.now.jobs c)
        ++ settling.settle_all setup.now.jobs c)) }
{
    settle_all(alloc, setup, book)?;
    book.reply_last()?;
    Ok(())
}

/// Moves one instance on, and answers the client of this step if it doesn't wait.
pub fn settle_alone<B: Book>(
    alloc: Global,
    setup: &Setup,
    book: &mut B,
    key: InstanceKey,
) -> Result<(), AllocError>
    ensures { OnOk result (OfWhole (B.stands book.old Stepping) setup.now key (λ c its. B.stands book.new
        Stepping setup.now (answering_last (settling.settle_one 5 its.file its c) ++ settling.settle_one 5
        its.file its c))) }
{
    moves_on(alloc, setup, book, key)?;
    book.reply_last()?;
    Ok(())
}
