//! The status text of an instance.
ghost use Rattle.std.specs.Prelude.{◌≡◌, ◌++◌, OnOk, IfOk, option_map, string_bytes};
ghost use Rattle.std.specs.Fmt.{decimal};
ghost use Rattle.up_model.specs.Status.{instance_suffix, who_name, beside_main, without_main, process_text, processes_text, status_text};

use crate::state::{Goal, State};
use crate::who::Who;
use std::alloc::{AllocError, Global};
use up_text::Text;

fn push_instance(text: &mut String, instance: &Text) -> Result<(), AllocError>
    ensures { OnOk result (string_bytes text.new ≡ string_bytes text.old ++ instance_suffix instance.now) }
{
    if instance.is("") {
        return Ok(());
    }
    text.push_str(" (")?;
    text.push_str(instance.as_str())?;
    text.push_str(")")
}

/// Appends the name of an instance for clients: its job's name, and its own in parentheses if it has one.
#[tactic(auto, unfolding(crate::specs::Status::who_name))]
pub fn push_who(text: &mut String, who: &Who) -> Result<(), AllocError>
    ensures { OnOk result (string_bytes text.new ≡ string_bytes text.old ++ who_name who.now) }
{
    text.push_str(who.job.as_str())?;
    push_instance(text, &who.instance)
}

fn beside_main(state: State) -> Option<&'static str>
    ensures { option_map (λ label. label.now) result ≡ beside_main state }
{
    match state {
        State::PostStart => Some("\n\tpost-start process "),
        State::PreStop => Some("\n\tpre-stop process "),
        State::Waiting
        | State::Starting
        | State::PreStart
        | State::Spawned
        | State::Running
        | State::Stopping
        | State::Killed
        | State::PostStop => None,
    }
}

fn without_main(state: State) -> Option<&'static str>
    ensures { option_map (λ label. label.now) result ≡ without_main state }
{
    match state {
        State::PreStart | State::PostStop => Some(", process "),
        State::PostStart => Some(", (post-start) process "),
        State::PreStop => Some(", (pre-stop) process "),
        State::Waiting
        | State::Starting
        | State::Spawned
        | State::Running
        | State::Stopping
        | State::Killed => None,
    }
}

fn push_process(text: &mut String, label: Option<&str>, pid: u32) -> Result<(), AllocError>
    ensures { OnOk result (string_bytes text.new
        ≡ string_bytes text.old ++ process_text (option_map (λ bytes. bytes.now) label.entry) pid) }
{
    let Some(label) = label else {
        return Ok(());
    };
    text.push_str(label)?;
    write!(text, "{pid}")
}

fn push_processes(
    text: &mut String,
    state: State,
    main: Option<u32>,
    own: Option<u32>,
) -> Result<(), AllocError>
    ensures { OnOk result (string_bytes text.new ≡ string_bytes text.old ++ processes_text state main own) }
{
    match (main, own) {
        (None, None) => Ok(()),
        (None, Some(own)) => push_process(text, without_main(state), own),
        (Some(main), None) => push_process(text, Some(", process "), main),
        (Some(main), Some(own)) => {
            push_process(text, Some(", process "), main)?;
            push_process(text, beside_main(state), own)
        }
    }
}

/// The text for clients: `NAME (INSTANCE) GOAL/STATE` and the living processes. `main` is the number of a living main process, and `own`
/// that of the state's own living process.
#[tactic(auto, unfolding(crate::specs::Status::status_text))]
pub fn status_text(
    alloc: Global,
    who: &Who,
    goal: Goal,
    state: State,
    main: Option<u32>,
    own: Option<u32>,
) -> Result<Text, AllocError>
    ensures { IfOk result (λ text. text ≡ status_text who.now goal state main own) }
{
    let mut text = String::new(alloc);
    push_who(&mut text, who)?;
    text.push_str(" ")?;
    text.push_str(goal.name())?;
    text.push_str("/")?;
    text.push_str(state.name())?;
    push_processes(&mut text, state, main, own)?;
    Ok(Text::new(text))
}
