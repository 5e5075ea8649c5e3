//! The answers to clients that waited (initctl(8)).
ghost use Rattle.std.specs.Prelude.{◌≡◌, ◌++◌, ◌∷◌, [], None, IfSome, IsOk, IfOk, OnOk};
ghost use Rattle.std.specs.Option.{option_copied};
ghost use Rattle.up_ledger.specs.Holding.{held_by_kept};
ghost use Rattle.up_ledger.specs.Asking.{number_asked};
ghost use Rattle.up_ledger.specs.Replying.{any_client, finished_replies, is_client, reply_to, replies_to, waiter_replies};
ghost use Rattle.up_model.specs.Outputs.{reply_of};
ghost use Rattle.up_model.specs.Replies as model;
ghost use Rattle.up_model.specs.declared.output.Output.TheVariants as output;
ghost use Rattle.up_model.specs.declared.request.Command.TheVariants as command;

use crate::step::Asked;
use std::alloc::{AllocError, Global};
use up_event::Finished;
use up_job::{Holder, Instance};
use up_model::{Answer, Command, Output};
use up_text::Text;

// The text for a client that waited in vain.
fn failed_text(command: Command) -> &'static str
    ensures { result.now ≡ model.failed_text command }
{
    match command {
        Command::Start => "Job failed to start",
        Command::Stop => "Job failed while stopping",
        Command::Restart => "Job failed to restart",
        Command::Status
        | Command::List
        | Command::Emit
        | Command::Reload
        | Command::ReloadConfiguration
        | Command::Version => "Event failed",
    }
}

fn answer_to(
    alloc: Global,
    command: Command,
    failed: bool,
    told: &Text,
) -> Result<Answer, AllocError>
    ensures { IfOk result (λ answer. answer ≡ model.answer_to command failed told.now) }
{
    if failed {
        let text = Text::from_str(alloc, failed_text(command))?;
        return Ok(Answer { ok: false, text });
    }
    let text = told.copy()?;
    Ok(Answer { ok: true, text })
}

// The answer to a client that waits for an event.
fn event_answer(alloc: Global, spoilt: bool) -> Result<Answer, AllocError>
    ensures { IfOk result (λ answer. answer ≡ model.answer_to command.Emit spoilt []) }
{
    let answer = answer_to(alloc, Command::Emit, spoilt, &Text::empty())?;
    Ok(answer)
}

pub(crate) fn reply(outputs: &mut Vec<Output>, id: u64, answer: Answer) -> Result<(), AllocError>
    ensures { OnOk result (outputs.new.items ≡ outputs.old.items ++ output.Reply id answer ∷ []) }
{
    outputs.push(Output::Reply { id, answer })?;
    Ok(())
}

/// Answers the request of a step, if there is one.
pub(crate) fn reply_asked(
    outputs: &mut Vec<Output>,
    asked: Option<Asked>,
    answer: Answer,
) -> Result<(), AllocError>
    ensures { OnOk result (outputs.new.items
        ≡ outputs.old.items ++ reply_of (number_asked asked) answer) }
{
    match asked {
        Some(asked) => reply(outputs, asked.id, answer)?,
        None => drop(answer),
    }
    Ok(())
}

fn reply_to_waiter(
    outputs: &mut Vec<Output>,
    alloc: Global,
    waiter: Option<u64>,
    spoilt: bool,
) -> Result<(), AllocError>
    ensures after { OnOk result (outputs.new.items ≡ outputs.old.items ++ waiter_replies waiter spoilt) }
    ensures free { waiter ≡ None → IsOk result }
{
    match waiter {
        Some(id) => {
            let answer = event_answer(alloc, spoilt)?;
            reply(outputs, id, answer)?;
        }
        None => {}
    }
    Ok(())
}

/// Answers the client that waited for an event that has finished.
pub(crate) fn reply_finished(
    outputs: &mut Vec<Output>,
    alloc: Global,
    finished: Option<Finished>,
) -> Result<(), AllocError>
    ensures after { OnOk result (outputs.new.items ≡ outputs.old.items ++ finished_replies finished) }
    ensures free { IfSome finished (λ its. its.waiter ≡ None) → IsOk result }
{
    match finished {
        Some(Finished { waiter, spoilt, .. }) => reply_to_waiter(outputs, alloc, waiter, spoilt)?,
        None => {}
    }
    Ok(())
}

fn is_client(holder: &Holder) -> bool
    ensures { result ≡ is_client holder.now }
{
    matches!(holder, Holder::Client { .. })
}

/// Whether a client holds an instance.
pub(crate) fn has_client(kept: Option<&Instance>) -> bool
    ensures { result ≡ any_client (held_by_kept (option_copied kept.entry)) }
{
    match kept {
        Some(kept) => kept.holders.as_slice().iter().any(is_client),
        None => false,
    }
}

// Answers a holder, if it is a client.
fn reply_to(
    outputs: &mut Vec<Output>,
    alloc: Global,
    holder: Holder,
    failed: bool,
    told: &Text,
) -> Result<(), AllocError>
    ensures { OnOk result (outputs.new.items ≡ outputs.old.items ++ reply_to holder failed told.now) }
{
    match holder {
        Holder::Client { id, command } => {
            let answer = answer_to(alloc, command, failed, told)?;
            reply(outputs, id, answer)?;
        }
        Holder::Event(_) => {}
    }
    Ok(())
}

#[tactic(auto, using(crate::proofs::Replying::replies_left))]
fn reply_to_all(
    outputs: &mut Vec<Output>,
    alloc: Global,
    holders: &[Holder],
    failed: bool,
    told: &Text,
) -> Result<(), AllocError>
    ensures { OnOk result (outputs.new.items ≡ outputs.old.items ++ replies_to holders.now failed told.now) }
{
    for holder in holders {
        reply_to(outputs, alloc, *holder, failed, told)?;
    }
    Ok(())
}

/// Answers the clients that hold an instance.
pub(crate) fn reply_held(
    outputs: &mut Vec<Output>,
    alloc: Global,
    kept: Option<&Instance>,
    failed: bool,
    told: &Text,
) -> Result<(), AllocError>
    ensures { OnOk result (outputs.new.items
        ≡ outputs.old.items ++ replies_to (held_by_kept (option_copied kept.entry)) failed told.now) }
{
    match kept {
        Some(kept) => reply_to_all(outputs, alloc, kept.holders.as_slice(), failed, told)?,
        None => {}
    }
    Ok(())
}
