//! The inputs of a script.
ghost use Rattle.std.specs.Prelude.{◌≡◌, ◌++◌, [], IfOk, OnOk, replicate};
ghost use Rattle.up_model.specs.declared.input.Input.TheVariants as input;
ghost use Rattle.up_script.specs.ScriptInputs.{inputs_of_step, inputs_of_steps};

use std::alloc::{AllocError, Global};
use std::marker::Model;
use up_model::Input;
use up_text::Items;

/// The inputs of a step of a script: none, one input, or a number of turns.
#[derive(Drop)]
pub enum StepInputs {
    Nothing,
    One(Input),
    Turns(u64),
}

/// The inputs of a script. Many turns take no more room than one. Contracts see them as their list.
#[derive(Drop)]
pub struct ScriptInputs {
    steps: Vec<StepInputs>,
}

impl Model for ScriptInputs {
    ghost use Rattle.std.specs.Prelude.{List};
    ghost use Rattle.std.specs.Coded.{codes};
    ghost use Rattle.up_conf.specs.contracts.job.JobDef as job;
    ghost use Rattle.up_model.specs.declared.input.Input.{Input};
    ghost use Rattle.up_script.specs.ScriptInputs.{inputs_of_steps};

    ghost Value = { List Input };

    ghost coded = { Prim.hlevel (codes, job.the_row.coded) };

    ghost view = { λ script. inputs_of_steps script.steps.items };
}

fn push_turns(inputs: &mut Vec<Input>, count: u64) -> Result<(), AllocError>
    ensures { OnOk result (inputs.new.items ≡ inputs.old.items ++ replicate count input.Turn) }
{
    for _ in 0..count {
        inputs.push(Input::Turn)?;
    }
    Ok(())
}

fn push_inputs(inputs: &mut Vec<Input>, step: StepInputs) -> Result<(), AllocError>
    ensures { OnOk result (inputs.new.items ≡ inputs.old.items ++ inputs_of_step step) }
{
    match step {
        StepInputs::Nothing => {}
        StepInputs::One(input) => inputs.push(input)?,
        StepInputs::Turns(count) => push_turns(inputs, count)?,
    }
    Ok(())
}

fn expand(alloc: Global, steps: Vec<StepInputs>) -> Result<Vec<Input>, AllocError>
    ensures { IfOk result (λ inputs. inputs.items ≡ inputs_of_steps steps.items) }
{
    let mut inputs: Vec<Input> = Vec::new(alloc);
    for step in steps {
        push_inputs(&mut inputs, step)?;
    }
    Ok(inputs)
}

impl ScriptInputs {
    /// No inputs. Takes no memory.
    pub fn none(alloc: Global) -> Self
        ensures { result ≡ [] }
    {
        ScriptInputs {
            steps: Vec::new(alloc),
        }
    }

    pub(crate) fn push(&mut self, step: StepInputs) -> Result<(), AllocError>
        ensures { OnOk result (self.new ≡ self.old ++ inputs_of_step step) }
    {
        self.steps.push(step)?;
        Ok(())
    }

    /// The inputs of each step, in order: many turns are one item.
    pub fn into_steps(self) -> Vec<StepInputs>
        ensures { inputs_of_steps result.items ≡ self }
    {
        let ScriptInputs { steps } = self;
        steps
    }

    /// All of them, with each turn as an input of its own.
    pub fn expanded(self, alloc: Global) -> Result<Items<Input>, AllocError>
        ensures { IfOk result (λ inputs. inputs ≡ self) }
    {
        let inputs = expand(alloc, self.steps)?;
        Ok(Items::new(inputs))
    }
}
