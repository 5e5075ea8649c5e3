//! The effect of the timer.
ghost use Rattle.std.specs.Prelude.{◌≡◌, ℕ, false, List, ◌∷◌, ◌++◌, [], Some, IsOk, IfOk, OnOk};
ghost use Rattle.up_book.specs.Histories.{OfFiled};
ghost use Rattle.up_book.specs.Keys.{name_at, Mode, Stepping};
ghost use Rattle.up_engine.specs.Found.{AreKeysOf};
ghost use Rattle.up_model.specs.Chronicle.{Chronicle};
ghost use Rattle.up_model.specs.Clock as clock;
ghost use Rattle.up_model.specs.Configuration.{Configuration};
ghost use Rattle.up_model.specs.Files.{names_in_order};
ghost use Rattle.up_model.specs.Instances.{instances_of};
ghost use Rattle.up_model.specs.Predicates.{entries_if};
ghost use Rattle.up_model.specs.Values.{Bytes};

use std::alloc::{AllocError, Global};
use up_book::Book;
use up_image::JobFile;
use up_job::InstanceKey;

// Adds an instance, if the timer is to kill its main process.
fn add_if_due<B: Book>(
    book: &B,
    key: InstanceKey,
    keys: &mut Vec<InstanceKey>,
) -> Result<(), AllocError>
    ensures after { OnOk result ((mode : Mode) (config : Configuration)
        → OfFiled (B.stands book.now mode) config key (λ c i job. (done : List ℕ) → AreKeysOf config c keys.old.items done
        → AreKeysOf config c keys.new.items (done ++ entries_if (clock.kill_due job i c) (i ∷ [])))) }
    ensures free { (mode : Mode) (config : Configuration) → OfFiled (B.stands book.now mode) config key (λ c i job.
        clock.kill_due job i c ≡ false → IsOk result) }
{
    if book.is_overdue(key) {
        keys.push(key)?;
    }
    Ok(())
}

// Adds those of a job's instances whose main process the timer is to kill.
fn add_overdue<B: Book>(
    book: &B,
    index: usize,
    keys: &mut Vec<InstanceKey>,
) -> Result<(), AllocError>
    ensures after { OnOk result ((mode : Mode) (config : Configuration) (c : Chronicle) (name : Bytes) (done : List ℕ)
        → B.stands book.now mode config c → name_at config index ≡ Some name
        → AreKeysOf config c keys.old.items done
        → AreKeysOf config c keys.new.items (done ++ clock.overdue (instances_of name c) c)) }
    ensures free { (mode : Mode) (config : Configuration) (c : Chronicle) (name : Bytes)
        → B.stands book.now mode config c → name_at config index ≡ Some name
        → clock.overdue (instances_of name c) c ≡ [] → IsOk result }
{
    for at in 0..book.count(index) {
        add_if_due(book, InstanceKey { job: index, at }, keys)?;
    }
    Ok(())
}

fn no_keys(alloc: Global) -> Vec<InstanceKey>
    ensures { result.items ≡ [] }
{
    Vec::new(alloc)
}

fn all_overdue<B: Book>(
    alloc: Global,
    book: &B,
    jobs: &[JobFile],
) -> Result<Vec<InstanceKey>, AllocError>
    ensures after { IfOk result (λ keys. (mode : Mode) (config : Configuration) (c : Chronicle)
        → B.stands book.now mode config c → jobs.now ≡ config.jobs
        → AreKeysOf config c keys.items (clock.all_overdue (names_in_order config c) c)) }
    ensures free { (mode : Mode) (config : Configuration) (c : Chronicle)
        → B.stands book.now mode config c → jobs.now ≡ config.jobs
        → clock.all_overdue (names_in_order config c) c ≡ [] → IsOk result }
{
    let mut keys = no_keys(alloc);
    for index in 0..jobs.len() {
        add_overdue(book, index, &mut keys)?;
    }
    Ok(keys)
}

// Sends KILL to the main process of each of these.
fn kill_each<B: Book>(book: &mut B, keys: &[InstanceKey]) -> Result<(), AllocError>
    ensures after { OnOk result ((config : Configuration) (c : Chronicle) (places : List ℕ)
        → B.stands book.old Stepping config c → AreKeysOf config c keys.now places
        → B.stands book.new Stepping config (clock.killing places ++ c)) }
    ensures free { keys.now ≡ [] → IsOk result }
{
    for key in keys {
        book.kill(*key)?;
    }
    Ok(())
}

/// Kills each main process whose time is up.
pub(crate) fn kill_overdue<B: Book>(
    alloc: Global,
    book: &mut B,
    jobs: &[JobFile],
) -> Result<(), AllocError>
    ensures after { OnOk result ((config : Configuration) (c : Chronicle) → B.stands book.old Stepping config c
        → jobs.now ≡ config.jobs
        → B.stands book.new Stepping config
        (clock.killing (clock.all_overdue (names_in_order config c) c) ++ c)) }
    ensures free { (config : Configuration) (c : Chronicle) → B.stands book.old Stepping config c
        → jobs.now ≡ config.jobs
        → clock.all_overdue (names_in_order config c) c ≡ [] → IsOk result }
{
    if u128::from(book.now()) < book.alarm() {
        return Ok(());
    }
    let keys = all_overdue(alloc, book, jobs)?;
    kill_each(book, keys.as_slice())?;
    book.set_alarm();
    Ok(())
}
