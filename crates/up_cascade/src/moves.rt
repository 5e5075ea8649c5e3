//! The moves of instances from state to state.
ghost use Rattle.std.specs.Prelude.{◌≡◌, ℕ, false, not, ◌&&◌, ◌||◌, ◌∷◌, [], ◌++◌, Some, IfOk, OnOk};
ghost use Rattle.up_book.specs.Histories.{KeepsPlaces, OfInstance, OfWhole};
ghost use Rattle.up_book.specs.Keys.{Mode, Stepping, instance_at};
ghost use Rattle.up_cascade.specs.Histories.{after_entering};
ghost use Rattle.up_cascade.specs.Settling.{settle_one, ListsAfter};
ghost use Rattle.up_model.specs.declared.state.State.TheVariants as entered;
ghost use Rattle.up_model.specs.Chronicle.{Chronicle};
ghost use Rattle.up_model.specs.Chronicle as entry;
ghost use Rattle.up_model.specs.Configuration.{Configuration};
ghost use Rattle.up_model.specs.Instances.{Instance};
ghost use Rattle.up_model.specs.Life as life;
ghost use Rattle.up_model.specs.Moves as model;
ghost use Rattle.up_model.specs.Readings as read;
ghost use Rattle.up_model.specs.Replies as replies;
ghost use Rattle.up_model.specs.Predicates.{entries_if, is_waiting};
ghost use Rattle.up_stanza.specs.declared.process.Process.TheVariants as process;

use crate::events::job_event;
use crate::life::has_process;
use crate::setup::Setup;
use std::alloc::{AllocError, Global};
use up_book::Book;
use up_image::JobFile;
use up_job::{InstanceKey, entering, next_state};
use up_model::{EntryActions, Goal, JobDef, JobEvent, Process, State};

// Whether the order of a process was answered; true if the job doesn't have it.
fn is_answered<B: Book>(book: &B, job: &JobDef, key: InstanceKey, process: Process) -> bool
    ensures { (mode : Mode) (config : Configuration) → OfInstance (B.stands book.now mode) config key (λ c i.
        result ≡ model.is_over job.now i (life.ForAnswer process) c) }
{
    !has_process(job, process) || !book.awaits(key, process)
}

fn is_at_work<B: Book>(book: &B, key: InstanceKey, process: Process) -> bool
    ensures { (mode : Mode) (config : Configuration) → OfInstance (B.stands book.now mode) config key (λ c i.
        result ≡ (read.is_awaited i process c || read.lives i process c)) }
{
    book.awaits(key, process) || book.lives(key, process)
}

// Whether a process was refused or has ended; true if the job doesn't have it.
fn is_through<B: Book>(book: &B, job: &JobDef, key: InstanceKey, process: Process) -> bool
    ensures { (mode : Mode) (config : Configuration) → OfInstance (B.stands book.now mode) config key (λ c i.
        result ≡ model.is_over job.now i (life.ForProcess process) c) }
{
    !has_process(job, process) || !is_at_work(book, key, process)
}

fn is_main_gone<B: Book>(book: &B, job: &JobDef, key: InstanceKey) -> bool
    ensures { (mode : Mode) (config : Configuration) → OfInstance (B.stands book.now mode) config key (λ c i.
        result ≡ (model.has_process job.now process.Main && not (read.lives i process.Main c))) }
{
    has_process(job, Process::Main) && !book.lives(key, Process::Main)
}

// Whether there is a reason to leave the state running.
fn is_changed<B: Book>(book: &B, job: &JobDef, key: InstanceKey) -> bool
    ensures { (mode : Mode) (config : Configuration) → OfInstance (B.stands book.now mode) config key (λ c i.
        result ≡ model.is_over job.now i life.ForChange c) }
{
    !book.goal(key).is_start() || book.was_restarted(key) || is_main_gone(book, job, key)
}

// Whether an instance is done waiting in a state.
fn is_over<B: Book>(book: &B, job: &JobDef, key: InstanceKey, from: State) -> bool
    ensures { (mode : Mode) (config : Configuration) → OfInstance (B.stands book.now mode) config key (λ c i.
        result ≡ model.is_over job.now i (life.wait_in from) c) }
{
    match from {
        State::Waiting => book.goal(key).is_start(),
        State::Starting => !book.is_blocked(key),
        State::PreStart => is_through(book, job, key, Process::PreStart),
        State::Spawned => is_answered(book, job, key, Process::Main),
        State::PostStart => is_through(book, job, key, Process::PostStart),
        State::Running => is_changed(book, job, key),
        State::PreStop => is_through(book, job, key, Process::PreStop),
        State::Stopping => !book.is_blocked(key),
        State::Killed => !book.lives(key, Process::Main),
        State::PostStop => is_through(book, job, key, Process::PostStop),
    }
}

fn may_leave<B: Book>(book: &B, job: &JobDef, key: InstanceKey) -> bool
    ensures { (mode : Mode) (config : Configuration) → OfInstance (B.stands book.now mode) config key (λ c i.
        result ≡ model.may_leave job.now i c) }
{
    let from = book.state_of(key);
    is_over(book, job, key, from)
}

// The next state; an instance that is waiting with goal stop stays there.
fn following(goal: Goal, from: State, has_main: bool, lives: bool) -> State
    ensures { result ≡ life.next_state goal from has_main lives }
{
    match (goal, from) {
        (Goal::Stop, State::Waiting) => State::Waiting,
        _ => next_state(goal, from, has_main, lives),
    }
}

fn next_of<B: Book>(book: &B, job: &JobDef, key: InstanceKey) -> State
    ensures { (mode : Mode) (config : Configuration) → OfInstance (B.stands book.now mode) config key (λ c i.
        result ≡ model.next_of job.now i c) }
{
    let goal = book.goal(key);
    let from = book.state_of(key);
    let lives = book.lives(key, Process::Main);
    following(goal, from, has_process(job, Process::Main), lives)
}

// Orders a process, if the job has it.
fn order<B: Book>(
    setup: &Setup,
    book: &mut B,
    job: &JobDef,
    key: InstanceKey,
    orders: Option<Process>,
) -> Result<(), AllocError>
    ensures after { OnOk result (OfInstance (B.stands book.old Stepping) setup.now key (λ c i.
        read.file_of i c ≡ Some job.now
        → B.stands book.new Stepping setup.now (model.ordering job.now i orders ++ c))) }
    ensures events { OnOk result (OfInstance (B.stands book.old Stepping) setup.now key (λ c i.
        read.file_of i c ≡ Some job.now
        → KeepsPlaces B.event_place book.old book.new c (model.ordering job.now i orders ++ c))) }
    ensures stays { OnOk result ((c : Chronicle) (i : ℕ)
        → instance_at setup.now (model.ordering job.now i orders ++ c) key ≡ instance_at setup.now c key) }
{
    match orders {
        Some(process) => {
            if has_process(job, process) {
                book.order(job, key, process)?;
            }
        }
        None => {}
    }
    Ok(())
}

fn emit<B: Book>(
    alloc: Global,
    book: &mut B,
    job: &JobDef,
    key: InstanceKey,
    to: State,
    emits: Option<JobEvent>,
) -> Result<(), AllocError>
    ensures after { OnOk result ((config : Configuration) → OfWhole (B.stands book.old Stepping) config key
        (λ c its. B.stands book.new Stepping config (model.emitting job.now (model.who_of job.now its) its.place
        to emits c ++ c))) }
    ensures events { OnOk result ((config : Configuration) → OfWhole (B.stands book.old Stepping) config key
        (λ c its. KeepsPlaces B.event_place book.old book.new c (model.emitting job.now (model.who_of job.now
        its) its.place to emits c ++ c))) }
    ensures stays { OnOk result ((config : Configuration) (c : Chronicle) (its : Instance)
        → instance_at config (model.emitting job.now (model.who_of job.now its) its.place to emits c ++ c) key
        ≡ instance_at config c key) }
{
    match emits {
        Some(kind) => {
            let event = job_event(alloc, book, job, key, kind)?;
            book.announce(key, to, event)?;
        }
        None => {}
    }
    Ok(())
}

// Sends the main process its kill signal.
fn kill<B: Book>(book: &mut B, key: InstanceKey, signal: u8, kills: bool) -> Result<(), AllocError>
    ensures after { OnOk result ((config : Configuration) → OfInstance (B.stands book.old Stepping) config key
        (λ c i.
        B.stands book.new Stepping config (entries_if kills (entry.Signalled i signal false ∷ []) ++ c))) }
    ensures events { OnOk result ((config : Configuration) → OfInstance (B.stands book.old Stepping) config key
        (λ c i. KeepsPlaces B.event_place book.old book.new c (entries_if kills (entry.Signalled i signal false
        ∷ []) ++ c))) }
    ensures stays { OnOk result ((config : Configuration) (c : Chronicle) (i : ℕ)
        → instance_at config (entries_if kills (entry.Signalled i signal false ∷ []) ++ c) key
        ≡ instance_at config c key) }
{
    if kills {
        book.signal(key, signal)?;
    }
    Ok(())
}

fn release<B: Book>(book: &mut B, key: InstanceKey, releases: bool) -> Result<(), AllocError>
    ensures after { OnOk result ((config : Configuration) → OfInstance (B.stands book.old Stepping) config key
        (λ c i. B.stands book.new Stepping config (entries_if releases (replies.releasing i false c) ++ c))) }
    ensures events { OnOk result ((config : Configuration) → OfInstance (B.stands book.old Stepping) config key
        (λ c i. KeepsPlaces B.event_place book.old book.new c (entries_if releases (replies.releasing i false c)
        ++ c))) }
{
    if releases {
        book.release(key)?;
    }
    Ok(())
}

// Enters a state, then orders the process and emits the event of its table entry.
fn enter_with<B: Book>(
    alloc: Global,
    setup: &Setup,
    book: &mut B,
    job: &JobDef,
    key: InstanceKey,
    to: State,
    table: EntryActions,
) -> Result<(), AllocError>
    ensures after { OnOk result (OfWhole (B.stands book.old Stepping) setup.now key (λ c its.
        its.file ≡ job.now → is_waiting to ≡ false
        → B.stands book.new Stepping setup.now (after_entering job.now its to table c))) }
    ensures events { OnOk result (OfWhole (B.stands book.old Stepping) setup.now key (λ c its.
        its.file ≡ job.now → is_waiting to ≡ false
        → KeepsPlaces B.event_place book.old book.new c (after_entering job.now its to table c))) }
    ensures stays { OnOk result (OfWhole (B.stands book.old Stepping) setup.now key (λ c its.
        its.file ≡ job.now → is_waiting to ≡ false
        → instance_at setup.now (after_entering job.now its to table c) key ≡ Some its)) }
{
    book.enter(key, to)?;
    order(setup, book, job, key, table.orders)?;
    emit(alloc, book, job, key, to, table.emits)?;
    Ok(())
}

// Enters a state other than waiting, with all effects of its table entry.
fn enter_other<B: Book>(
    alloc: Global,
    setup: &Setup,
    book: &mut B,
    job: &JobDef,
    key: InstanceKey,
    to: State,
    table: EntryActions,
) -> Result<(), AllocError>
    ensures after { OnOk result (OfWhole (B.stands book.old Stepping) setup.now key (λ c its. its.file ≡ job.now
        → is_waiting to ≡ false → B.stands book.new Stepping setup.now (model.enter_whole job.now (model.who_of
        job.now its) its.place to table c ++ c))) }
    ensures events { OnOk result (OfWhole (B.stands book.old Stepping) setup.now key (λ c its.
        its.file ≡ job.now → is_waiting to ≡ false → KeepsPlaces B.event_place book.old book.new c
        (model.enter_whole job.now (model.who_of job.now its) its.place to table c ++ c))) }
{
    let lives = book.lives(key, Process::Main);
    enter_with(alloc, setup, book, job, key, to, table)?;
    kill(book, key, job.kill_signal.number(), table.kills && lives)?;
    release(book, key, table.releases)?;
    Ok(())
}

// Enters waiting, which removes the instance.
fn enter_waiting<B: Book>(
    alloc: Global,
    book: &mut B,
    job: &JobDef,
    key: InstanceKey,
    from: State,
) -> Result<(), AllocError>
    ensures after { OnOk result ((config : Configuration) → OfWhole (B.stands book.old Stepping) config key
        (λ c its. B.stands book.new Stepping config (model.enter_whole job.now (model.who_of job.now its)
        its.place entered.Waiting (life.entering entered.Waiting from job.now.task) c ++ c))) }
    ensures events { OnOk result ((config : Configuration) → OfWhole (B.stands book.old Stepping) config key
        (λ c its. KeepsPlaces B.event_place book.old book.new c (model.enter_whole job.now (model.who_of job.now
        its) its.place entered.Waiting (life.entering entered.Waiting from job.now.task) c ++ c))) }
{
    let event = job_event(alloc, book, job, key, JobEvent::Stopped)?;
    book.leave(key, event)?;
    Ok(())
}

// Moves an instance on; returns whether it is still there.
fn move_on<B: Book>(
    alloc: Global,
    setup: &Setup,
    book: &mut B,
    job: &JobDef,
    key: InstanceKey,
) -> Result<bool, AllocError>
    ensures after { OnOk result (OfWhole (B.stands book.old Stepping) setup.now key (λ c its. its.file ≡ job.now
        → B.stands book.new Stepping setup.now (model.move job.now its c ++ c))) }
    ensures events { OnOk result (OfWhole (B.stands book.old Stepping) setup.now key (λ c its.
        its.file ≡ job.now → KeepsPlaces B.event_place book.old book.new c (model.move job.now its c ++ c))) }
    ensures stays { IfOk result (λ stays. OfWhole (B.stands book.old Stepping) setup.now key (λ c its.
        its.file ≡ job.now → stays ≡ not (is_waiting (model.next_of job.now its.place c)))) }
{
    let from = book.state_of(key);
    let to = next_of(book, job, key);
    if to.is_waiting() {
        enter_waiting(alloc, book, job, key, from)?;
        return Ok(false);
    }
    enter_other(
        alloc,
        setup,
        book,
        job,
        key,
        to,
        entering(to, from, job.task),
    )?;
    Ok(true)
}

/// Moves an instance on by its file as long as it may leave its state; returns whether it is still there.
pub(crate) fn moves<B: Book>(
    alloc: Global,
    setup: &Setup,
    book: &mut B,
    job: &JobDef,
    key: InstanceKey,
) -> Result<bool, AllocError>
    ensures after { OnOk result (OfWhole (B.stands book.old Stepping) setup.now key (λ c its. its.file ≡ job.now
        → B.stands book.new Stepping setup.now (settle_one 5 job.now its c))) }
    ensures events { OnOk result (OfWhole (B.stands book.old Stepping) setup.now key (λ c its.
        its.file ≡ job.now → KeepsPlaces B.event_place book.old book.new c (settle_one 5 job.now its c))) }
    ensures lists { IfOk result (λ stays. OfWhole (B.stands book.old Stepping) setup.now key (λ c its.
        its.file ≡ job.now → ListsAfter stays its c (settle_one 5 job.now its c))) }
{
    // No instance moves more than five times before it waits.
    for turn in 0..5u8 {
        if !may_leave(book, job, key) {
            return Ok(true);
        }
        if !move_on(alloc, setup, book, job, key)? {
            return Ok(false);
        }
    }
    Ok(true)
}

/// The job file that an instance was made from, for one more owner.
pub(crate) fn file_of<B: Book>(book: &B, key: InstanceKey) -> Result<Option<JobFile>, AllocError>
    ensures { IfOk result (λ file. (mode : Mode) (config : Configuration)
        → OfWhole (B.stands book.now mode) config key (λ c its. file ≡ Some its.file)) }
{
    match book.file(key) {
        Some(file) => Ok(Some(file.share()?)),
        None => Ok(None),
    }
}

/// Moves an instance on as long as it may leave its state; returns whether it is still there.
pub(crate) fn moves_on<B: Book>(
    alloc: Global,
    setup: &Setup,
    book: &mut B,
    key: InstanceKey,
) -> Result<bool, AllocError>
    ensures after { OnOk result (OfWhole (B.stands book.old Stepping) setup.now key (λ c its.
        B.stands book.new Stepping setup.now (settle_one 5 its.file its c))) }
    ensures events { OnOk result (OfWhole (B.stands book.old Stepping) setup.now key (λ c its.
        KeepsPlaces B.event_place book.old book.new c (settle_one 5 its.file its c))) }
    ensures lists { IfOk result (λ stays. OfWhole (B.stands book.old Stepping) setup.now key (λ c its.
        ListsAfter stays its c (settle_one 5 its.file its c))) }
{
    match file_of(book, key)? {
        Some(file) => {
            let stays = moves(alloc, setup, book, file.job(), key)?;
            Ok(stays)
        }
        None => Ok(false),
    }
}
