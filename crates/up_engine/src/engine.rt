//! The engine: one step for one input, and a run over a list of them.
ghost use Rattle.std.specs.Prelude.{◌≡◌, ◌++◌, IsOk, true, false, Ok, Err, [], length, is_some, Some, IsOkAnd, IfOk, OnOk};
ghost use Rattle.up_book.specs.Keys.{Resting, Stepping};
ghost use Rattle.up_engine.specs.Free.{IsFree, StopsAtNoFree};
ghost use Rattle.up_engine.specs.Requests.{answer_of};
ghost use Rattle.up_engine.specs.Sound.{IsSound};
ghost use Rattle.up_cascade.specs.Unfired.{IsAtRest};
ghost use Rattle.up_model.specs.Answers as answer;
ghost use Rattle.up_model.specs.Chronicle.{Chronicle};
ghost use Rattle.up_model.specs.Commands as commands;
ghost use Rattle.up_model.specs.Configuration.{Configuration, started_with};
ghost use Rattle.up_model.specs.Due as due;
ghost use Rattle.up_model.specs.Due.{effect};
ghost use Rattle.up_model.specs.Left.{is_calm};
ghost use Rattle.up_model.specs.Loads.{in_force};
ghost use Rattle.up_model.specs.Outputs.{outputs_of};
ghost use Rattle.up_model.specs.Queue as queue;
ghost use Rattle.up_model.specs.declared.step.Step.TheVariants.{Gave};

use crate::due::is_expected;
use crate::fault::StepError;
use crate::load::{is_load, load};
use crate::run::Run;
use crate::status::{list, status};
use crate::step::run_step;
use crate::target::known_target;
use std::alloc::{AllocError, Global};
use up_book::Book;
use up_cascade::Setup;
use up_image::Table;
use up_ledger::Ledger;
use up_model::{Answer, Input, Output, Step};
use up_text::{Env, Items, Text};

/// Runs the jobs of a table: takes one input per step, and returns what is to be done.
///
/// It keeps only the part of the past that can still matter.
pub struct Engine {
    alloc: Global,
    setup: Setup,
    book: Ledger,
    // A step ran out of memory; the engine then reports its events as they were before that step.
    down: bool,
    live: usize,
    turns: bool,
    ghost sound: { IsSound down setup book },
}

// Written out, so that what drops an engine is proved here once, and not in each crate above.
impl Drop for Engine {
    fn drop(self) {
        let Engine {
            alloc: _,
            setup: _,
            book: _,
            down: _,
            live: _,
            turns: _,
        } = self;
    }
}

// Takes an input, and does what is due until nothing is; after a load nothing is due.
fn take<B: Book>(
    alloc: Global,
    setup: &mut Setup,
    book: &mut B,
    given: Input,
) -> Result<(), AllocError>
    ensures setup { OnOk result ((start : Configuration) (c : Chronicle) → setup.old ≡ in_force start c
        → B.stands book.old Resting setup.old c → IsAtRest setup.old c
        → setup.new ≡ in_force start (answer.after start c given)) }
    ensures book { OnOk result ((start : Configuration) (c : Chronicle) → setup.old ≡ in_force start c
        → B.stands book.old Resting setup.old c → IsAtRest setup.old c
        → B.stands book.new Stepping setup.new (answer.after start c given)) }
    ensures free { (c : Chronicle) → B.stands book.old Resting setup.old c → IsFree setup.old c given
        → IsOk result × (setup.new ≡ setup.old)
        × B.stands book.new Stepping setup.old (effect setup.old given c ++ c) }
{
    if is_load(&given) {
        book.begin_step(&given, None);
        load(alloc, setup, book, given)?;
    } else {
        run_step(alloc, setup, book, given)?;
    }
    Ok(())
}

fn step_book<B: Book>(
    alloc: Global,
    setup: &mut Setup,
    book: &mut B,
    given: Input,
) -> Result<Vec<Output>, AllocError>
    ensures setup { OnOk result ((start : Configuration) (c : Chronicle) → setup.old ≡ in_force start c
        → B.stands book.old Resting setup.old c → IsAtRest setup.old c
        → setup.new ≡ in_force start (answer.after start c given)) }
    ensures after { OnOk result ((start : Configuration) (c : Chronicle) → setup.old ≡ in_force start c
        → B.stands book.old Resting setup.old c → IsAtRest setup.old c
        → B.stands book.new Resting setup.new (answer.after start c given)) }
    ensures outputs { IfOk result (λ outputs. (start : Configuration) (c : Chronicle)
        → setup.old ≡ in_force start c → B.stands book.old Resting setup.old c → IsAtRest setup.old c
        → outputs.items ≡ outputs_of (answer.after start c given)) }
    ensures free { (c : Chronicle) → B.stands book.old Resting setup.old c → IsFree setup.old c given
        → IsOkAnd result (λ outputs. outputs.items ≡ []) }
{
    take(alloc, setup, book, given)?;
    let outputs = book.end_step();
    Ok(outputs)
}

// The answer to a `status` request for the instance of a job that these variables name.
fn status_of<B: Book>(
    alloc: Global,
    setup: &Setup,
    book: &B,
    job: &str,
    vars: &Env,
) -> Result<Answer, AllocError>
    ensures { IfOk result (λ answer. (c : Chronicle) → B.stands book.now Resting setup.now c
        → answer ≡ answer_of (commands.status (commands.known_target setup.now job.now vars.now c) c)) }
{
    let target = known_target(alloc, setup, book, job, vars)?;
    let answer = status(alloc, book, target)?;
    Ok(answer)
}

impl Engine {
    ghost use Rattle.up_engine.specs.Stands.{result_map, Stands, DownAt, IsDown, StepMeans, AnswerMeans, RunMeans, TellsOf, left_of, Spends};

    /// An engine to which nothing has happened. Each process gets its environment on top of `base`, of which each job gets a copy.
    pub fn new(alloc: Global, table: Table, base: Env) -> Result<Self, AllocError>
        ensures { IfOk result (λ engine. Stands engine (started_with base table) []) }
    {
        let setup = Setup::new(alloc, table, base)?;
        setup.is_ordered();
        let book = Ledger::new(alloc, setup.jobs())?;
        Ok(Engine {
            alloc,
            setup,
            book,
            down: false,
            live: 0,
            turns: false,
        })
    }

    /// Whether a step ran out of memory, after which each further one is refused. Takes no memory.
    pub fn is_down(&self) -> bool
        ensures up { (config : Configuration) (c : Chronicle) → Stands self.now config c → result ≡ false }
        ensures down { IsDown self.now → result ≡ true }
    {
        let down = self.down;
        down
    }

    /// How many events were queued and haven't finished. Takes no memory.
    pub fn live_events(&self) -> usize
        ensures up { (config : Configuration) (c : Chronicle) → Stands self.now config c
            → result ≡ length (queue.queue c) }
        ensures down { (config : Configuration) (c : Chronicle) → DownAt self.now config c
            → result ≡ length (queue.queue c) }
    {
        if self.down {
            return self.live;
        }
        self.book.live_events()
    }

    /// Whether a turn would handle or finish an event. Takes no memory.
    pub fn has_turn(&self) -> bool
        ensures up { (config : Configuration) (c : Chronicle) → Stands self.now config c
            → result ≡ is_some (due.turn_event (in_force config c) (queue.queue c) c) }
        ensures down { (config : Configuration) (c : Chronicle) → DownAt self.now config c
            → result ≡ is_some (due.turn_event (in_force config c) (queue.queue c) c) }
    {
        if self.down {
            return self.turns;
        }
        self.book.turn().is_some()
    }

    /// The status of the instance of a job that these variables name: the text of a request `status`, or why it is refused
    /// (initctl(8)). Refused with `Memory`, which changes nothing, and with `Down` if the engine is down.
    pub fn status(&self, job: &str, vars: &Env) -> Result<Answer, StepError>
        ensures meaning { (config : Configuration) (c : Chronicle) → Stands self.now config c
            → TellsOf result (answer_of (commands.status (commands.known_target (in_force config c) job.now vars.now c) c)) }
        ensures down { IsDown self.now → result ≡ Err StepError.Down }
    {
        if self.down {
            return Err(StepError::Down);
        }
        match status_of(self.alloc, &self.setup, &self.book, job, vars) {
            Ok(answer) => Ok(answer),
            Err(_) => Err(StepError::Memory),
        }
    }

    /// The status of all instances, and of the jobs without any: the text of a request `list` (initctl(8)). Refused with `Memory`,
    /// which changes nothing, and with `Down` if the engine is down.
    pub fn list(&self) -> Result<Text, StepError>
        ensures meaning { (config : Configuration) (c : Chronicle) → Stands self.now config c
            → TellsOf result (commands.listing (in_force config c) c) }
        ensures down { IsDown self.now → result ≡ Err StepError.Down }
    {
        if self.down {
            return Err(StepError::Down);
        }
        match list(self.alloc, &self.setup, &self.book) {
            Ok(text) => Ok(text),
            Err(_) => Err(StepError::Memory),
        }
    }

    fn expects(&self, given: &Input) -> bool
        ensures { (config : Configuration) (c : Chronicle) → Stands self.now config c
            → result ≡ answer.is_expected given.now c }
    {
        is_expected(&self.setup, &self.book, given)
    }

    /// Takes one input, and returns its outputs, in order. Refused with `NotExpected` for the answer or the end of a process
    /// that isn't expected, which changes nothing; with `Memory`, after which the engine is down; and with `Down` if it is. A turn without an
    /// event, one that takes up an event of which no job hears, one that finishes an event for which nobody waits, and a reading of the
    /// clock at which no process is to be killed take no memory.
    pub fn step(&mut self, given: Input) -> Result<Vec<Output>, StepError>
        ensures meaning { (config : Configuration) (c : Chronicle) → Stands self.old config c
            → StepMeans (result_map (λ outputs. outputs.items) result) self.new config c given }
        ensures left { is_calm given ≡ true
            → Spends (result_map (λ outputs. outputs.items) result) (left_of self.old) (left_of self.new) }
        ensures down { IsDown self.old → (result ≡ Err StepError.Down) × (self.new ≡ self.old) }
        ensures free { (config : Configuration) (c : Chronicle) → Stands self.old config c
            → IsFree (in_force config c) c given → result_map (λ outputs. outputs.items) result ≡ Ok [] }
    {
        if self.down {
            drop(given);
            return Err(StepError::Down);
        }
        if !self.expects(&given) {
            drop(given);
            return Err(StepError::NotExpected);
        }
        self.live = self.book.live_events();
        self.turns = self.book.turn().is_some();
        self.down = true;
        match step_book(self.alloc, &mut self.setup, &mut self.book, given) {
            Ok(outputs) => {
                self.down = false;
                Ok(outputs)
            }
            Err(_) => Err(StepError::Memory),
        }
    }

    /// The answer to one input, as in `run`; none if out of memory, in this step or before.
    pub fn answer(&mut self, given: Input) -> Option<Step>
        ensures meaning { (config : Configuration) (c : Chronicle) → Stands self.old config c
            → AnswerMeans result self.new config c given }
        ensures free { (config : Configuration) (c : Chronicle) → Stands self.old config c
            → IsFree (in_force config c) c given → result ≡ Some (Gave []) }
    {
        match self.step(given) {
            Ok(outputs) => Some(Step::Gave(Items::new(outputs))),
            Err(StepError::NotExpected) => Some(Step::NotExpected),
            Err(StepError::Memory) => None,
            Err(StepError::Down) => None,
        }
    }

    /// Takes inputs one after another, and answers each. The memory for all answers is taken first: if that is refused with `Memory`, the
    /// engine has taken none of them. It stops at the first input that runs out of memory. Refused with `Down` if it is down.
    pub fn run(&mut self, inputs: Vec<Input>) -> Result<Run, StepError>
        ensures meaning { (config : Configuration) (c : Chronicle) → Stands self.old config c
            → RunMeans result self.new config c inputs.items }
        ensures free { (config : Configuration) (c : Chronicle) → Stands self.old config c
            → IfOk result (λ run. run.down ≡ true → StopsAtNoFree run.steps config c inputs.items) }
        ensures down { IsDown self.old → (result ≡ Err StepError.Down) × (self.new ≡ self.old) }
    {
        if self.down {
            return Err(StepError::Down);
        }
        let mut steps = Vec::with_capacity(self.alloc, inputs.len())?;
        for input in inputs {
            match self.answer(input) {
                Some(step) => match steps.push(step) {
                    Ok(()) => {}
                    Err(_) => unreachable!(),
                },
                None => {
                    let steps = Items::new(steps);
                    return Ok(Run { steps, down: true });
                }
            }
        }
        let steps = Items::new(steps);
        Ok(Run { steps, down: false })
    }
}
