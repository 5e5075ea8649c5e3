//! Runs inputs, and notes the moments that their answers show.
ghost use Rattle.std.specs.Prelude.{◌≡◌, ◌++◌, OnOk, IfOk};
ghost use Rattle.up_chart.specs.Moments.{clock_at, moments_from, no_clock, step_moments};
ghost use Rattle.up_engine.specs.Stands.{Stands};
ghost use Rattle.up_model.specs.Answers.{answer, answers, next};
ghost use Rattle.up_model.specs.Chronicle.{Chronicle};
ghost use Rattle.up_model.specs.Configuration.{Configuration};
ghost use Rattle.up_tools.specs.Views.{run_chart};

use std::alloc::{AllocError, Global};
use up_chart::{Chart, Clock, Moment, chart_of, push_step};
use up_engine::Engine;
use up_image::Table;
use up_model::Input;
use up_text::Env;

// Adds the moments of one input and its answer.
fn watch_one(
    alloc: Global,
    moments: &mut Vec<Moment>,
    time: u64,
    engine: &mut Engine,
    given: &Input,
) -> Result<(), AllocError>
    ensures moments { OnOk result ((config : Configuration) (c : Chronicle) → Stands engine.old config c
        → moments.new.items ≡ moments.old.items ++ step_moments time given.now (answer config c given.now)) }
    ensures after { OnOk result ((config : Configuration) (c : Chronicle) → Stands engine.old config c
        → Stands engine.new config (next config c given.now)) }
{
    let copied = given.copy(alloc)?;
    match engine.answer(copied) {
        Some(step) => {
            let pushed = push_step(moments, time, given, &step);
            drop(step);
            pushed
        }
        None => Err(AllocError),
    }
}

// Adds the moments of all inputs and their answers; returns the clock after them.
fn watch_all(
    alloc: Global,
    moments: &mut Vec<Moment>,
    engine: &mut Engine,
    inputs: &[Input],
) -> Result<Clock, AllocError>
    ensures moments { OnOk result ((config : Configuration) (c : Chronicle) → Stands engine.old config c
        → moments.new.items ≡ moments.old.items ++ moments_from no_clock inputs.now (answers config c inputs.now)) }
    ensures clock { IfOk result (λ clock. clock ≡ clock_at no_clock inputs.now) }
{
    let mut clock = Clock::new();
    for given in inputs {
        clock = clock.after(given);
        watch_one(alloc, moments, clock.time(), engine, given)?;
    }
    Ok(clock)
}

/// The chart of a run of these jobs.
pub(crate) fn watch(alloc: Global, table: Table, inputs: &[Input]) -> Result<Chart, AllocError>
    ensures { IfOk result (λ chart. chart ≡ run_chart table inputs.now) }
{
    let mut engine = Engine::new(alloc, table, Env::new(alloc))?;
    let mut moments = Vec::new(alloc);
    let watched = watch_all(alloc, &mut moments, &mut engine, inputs);
    drop(engine);
    let clock = watched?;
    chart_of(alloc, clock.time(), moments.as_slice())
}
