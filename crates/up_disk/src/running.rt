//! Runs the inputs of a script, and prints their outputs.
ghost use Rattle.std.specs.Prelude.{◌≡◌, [], ◌++◌, OnOk, replicate};
ghost use Rattle.std.specs.List.{flat_map};
ghost use Rattle.up_engine.specs.Stands.{Stands};
ghost use Rattle.up_model.specs.declared.input.Input.TheVariants as input;
ghost use Rattle.up_model.specs.Answers.{answer, answers, next};
ghost use Rattle.up_model.specs.Chronicle.{Chronicle};
ghost use Rattle.up_model.specs.Configuration.{Configuration, started_with};
ghost use Rattle.up_print.specs.Lines.{step_lines};
ghost use Rattle.up_disk.specs.Running.{Tells};
ghost use Rattle.up_script.specs.ScriptInputs.{inputs_of_step, inputs_of_steps};

use std::alloc::{AllocError, Global};
use up_engine::{Engine, idle_turns};
use up_image::Table;
use up_model::Input;
use up_print::push_step;
use up_script::scripted::{ScriptInputs, StepInputs};
use up_text::Env;

fn push_answer(text: &mut Vec<u8>, engine: &mut Engine, given: Input) -> Result<(), AllocError>
    ensures lines { OnOk result ((config : Configuration) (c : Chronicle) → Stands engine.old config c
        → text.new.items ≡ text.old.items ++ step_lines (answer config c given)) }
    ensures after { OnOk result ((config : Configuration) (c : Chronicle) → Stands engine.old config c
        → Stands engine.new config (next config c given)) }
{
    match engine.answer(given) {
        Some(step) => push_step(text, &step),
        None => Err(AllocError),
    }
}

// The lines of the answers to this many turns. Once a turn finds no event, those after it find none either.
fn push_turns(text: &mut Vec<u8>, engine: &mut Engine, count: u64) -> Result<(), AllocError>
    ensures { OnOk result ((config : Configuration) (c : Chronicle) → Stands engine.old config c
        → Tells text.old.items text.new.items engine.new config c (replicate count input.Turn)) }
{
    idle_turns();
    for _ in 0..count {
        if !engine.has_turn() {
            return Ok(());
        }
        push_answer(text, engine, Input::Turn)?;
    }
    Ok(())
}

fn push_step_answers(
    text: &mut Vec<u8>,
    engine: &mut Engine,
    given: StepInputs,
) -> Result<(), AllocError>
    ensures { OnOk result ((config : Configuration) (c : Chronicle) → Stands engine.old config c
        → Tells text.old.items text.new.items engine.new config c (inputs_of_step given)) }
{
    match given {
        StepInputs::Nothing => {}
        StepInputs::One(given) => push_answer(text, engine, given)?,
        StepInputs::Turns(count) => push_turns(text, engine, count)?,
    }
    Ok(())
}

fn push_answers(
    text: &mut Vec<u8>,
    engine: &mut Engine,
    steps: Vec<StepInputs>,
) -> Result<(), AllocError>
    ensures { OnOk result ((config : Configuration) (c : Chronicle) → Stands engine.old config c
        → Tells text.old.items text.new.items engine.new config c (inputs_of_steps steps.items)) }
{
    for given in steps {
        push_step_answers(text, engine, given)?;
    }
    Ok(())
}

/// Appends the lines of a run of a new engine.
pub(crate) fn push_run(
    text: &mut Vec<u8>,
    alloc: Global,
    table: Table,
    base: Env,
    inputs: ScriptInputs,
) -> Result<(), AllocError>
    ensures { OnOk result (text.new.items ≡ text.old.items
        ++ flat_map step_lines (answers (started_with base table) [] inputs)) }
{
    let mut engine = Engine::new(alloc, table, base)?;
    let pushed = push_answers(text, &mut engine, inputs.into_steps());
    drop(engine);
    pushed
}
