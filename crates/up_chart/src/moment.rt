//! What the steps of a run show about instances, and when.
ghost use Rattle.std.specs.Prelude.{◌≡◌, ◌++◌, ◌∷◌, [], OnOk, IfOk, codes, option_map, string_bytes};
ghost use Rattle.std.specs.List.{flat_map};
ghost use Rattle.up_model.specs.Judgement.{is_success};
ghost use Rattle.up_model.specs.Status.{instance_suffix};
ghost use Rattle.up_value.specs.Bindings.{value_of};
ghost use Rattle.up_chart.specs.Moments.{asked, comes, end_sign, event_moments, heard, instance_of, life_event, moment, moments_by, name_of, order_moments, output_moments, refusal_sign, source_of, started_moments, state_by, state_told, step_moments, told_by};

use std::alloc::{AllocError, Global};
use up_model::{Command, Event, How, Input, Order, Output, Process, State, Step, Who};
use up_text::{Env, Text};

/// A sign of an instance in a step of a run.
#[derive(Drop)]
pub enum Sign {
    /// It enters a state.
    Enters(State),
    /// Events with these names started it. `source` is the instance of the last of them that belongs to an instance's life.
    StartedBy { events: Text, source: Option<Text> },
    /// A client started it, not an event.
    ByClient,
    /// Its main process couldn't be started, or was ended by a signal or with a status other than 0.
    Fails,
    /// One of its processes is sent a signal.
    Signal(u8),
    /// This isn't about an instance: an event occurs.
    Comes,
}

/// A sign of an instance, and its time.
#[derive(Drop)]
pub struct Moment {
    /// In milliseconds since the first reading of the clock.
    pub time: u64,
    /// The instance as it is printed: its job's name, and its own in parentheses if it has one. Or the name of an event that occurs, and
    /// after a space the instance to whose life it belongs.
    pub name: Text,
    pub sign: Sign,
}

fn push_instance(text: &mut String, instance: &str) -> Result<(), AllocError>
    ensures { OnOk result (string_bytes text.new ≡ string_bytes text.old ++ instance_suffix instance.now) }
{
    if instance.is_empty() {
        return Ok(());
    }
    text.push_str(" (")?;
    text.push_str(instance)?;
    text.push_str(")")
}

fn name_of(alloc: Global, job: &str, instance: &str) -> Result<Text, AllocError>
    ensures { IfOk result (λ name. name ≡ name_of job.now instance.now) }
{
    let mut name = String::from_str(alloc, job)?;
    push_instance(&mut name, instance)?;
    Ok(Text::new(name))
}

fn push_moment(
    moments: &mut Vec<Moment>,
    time: u64,
    job: &str,
    instance: &str,
    sign: Sign,
) -> Result<(), AllocError>
    ensures { OnOk result (moments.new.items ≡ moments.old.items ++ moment time job.now instance.now sign ∷ []) }
{
    match name_of(*moments.allocator(), job, instance) {
        Ok(name) => {
            moments.push(Moment { time, name, sign })?;
            Ok(())
        }
        Err(refused) => {
            drop(sign);
            Err(refused)
        }
    }
}

/// The name of an event of an instance's life, with the instance after a space.
pub(crate) fn life_event(alloc: Global, name: &str, who: &str) -> Result<Text, AllocError>
    ensures { IfOk result (λ event. event ≡ life_event name.now who.now) }
{
    let mut event = String::from_str(alloc, name)?;
    event.push_str(" ")?;
    event.push_str(who)?;
    Ok(Text::new(event))
}

fn push_comes(moments: &mut Vec<Moment>, time: u64, event: &str) -> Result<(), AllocError>
    ensures { OnOk result (moments.new.items ≡ moments.old.items ++ comes time event.now) }
{
    let name = Text::from_str(*moments.allocator(), event)?;
    moments.push(Moment {
        time,
        name,
        sign: Sign::Comes,
    })?;
    Ok(())
}

// Appends the event, if the client emits one.
fn push_asked(
    moments: &mut Vec<Moment>,
    time: u64,
    command: Command,
    name: &str,
) -> Result<(), AllocError>
    ensures { OnOk result (moments.new.items ≡ moments.old.items ++ asked time command name.now) }
{
    match command {
        Command::Emit => push_comes(moments, time, name),
        Command::Start
        | Command::Stop
        | Command::Restart
        | Command::Status
        | Command::List
        | Command::Reload
        | Command::ReloadConfiguration
        | Command::Version => Ok(()),
    }
}

fn push_sign(
    moments: &mut Vec<Moment>,
    time: u64,
    who: &Who,
    sign: Option<Sign>,
) -> Result<(), AllocError>
    ensures { OnOk result (moments.new.items ≡ moments.old.items ++ moments_by time who.now sign) }
{
    match sign {
        Some(sign) => push_moment(moments, time, who.job.as_str(), who.instance.as_str(), sign),
        None => Ok(()),
    }
}

// The sign of the end of a process, if there is one.
fn end_sign(process: Process, how: How) -> Option<Sign>
    ensures { result ≡ end_sign process how }
{
    match process {
        Process::Main => match how {
            How::Exit(0) => None,
            _ => Some(Sign::Fails),
        },
        Process::PreStop => Some(Sign::Enters(State::Running)),
        Process::PreStart | Process::PostStart | Process::PostStop => None,
    }
}

// The sign of a process that couldn't be started, if there is one.
fn refusal_sign(process: Process) -> Option<Sign>
    ensures { result ≡ refusal_sign process }
{
    match process {
        Process::Main => Some(Sign::Fails),
        Process::PreStop => Some(Sign::Enters(State::Running)),
        Process::PreStart | Process::PostStart | Process::PostStop => None,
    }
}

fn push_heard(moments: &mut Vec<Moment>, time: u64, given: &Input) -> Result<(), AllocError>
    ensures { OnOk result (moments.new.items ≡ moments.old.items ++ heard time given.now) }
{
    match given {
        Input::Emit(event) => push_comes(moments, time, event.name.as_str()),
        Input::Request { id: _, request } => {
            push_asked(moments, time, request.command, request.name.as_str())
        }
        Input::Ended { who, process, how } => {
            push_sign(moments, time, who, end_sign(*process, *how))
        }
        Input::Refused { who, process } => push_sign(moments, time, who, refusal_sign(*process)),
        _ => Ok(()),
    }
}

// The state in which the process is started.
fn state_by(process: Process) -> State
    ensures { result ≡ state_by process }
{
    match process {
        Process::Main => State::Spawned,
        Process::PreStart => State::PreStart,
        Process::PostStart => State::PostStart,
        Process::PreStop => State::PreStop,
        Process::PostStop => State::PostStop,
    }
}

// The instance named by JOB and INSTANCE, `None` if either is missing.
fn instance_of(alloc: Global, vars: &Env) -> Result<Option<Text>, AllocError>
    ensures { IfOk result (λ who. who ≡ instance_of (value_of (codes "JOB") vars.now) (value_of (codes "INSTANCE") vars.now)) }
{
    let Some(job) = vars.get("JOB") else {
        return Ok(None);
    };
    let Some(instance) = vars.get("INSTANCE") else {
        return Ok(None);
    };
    let name = name_of(alloc, job, instance)?;
    Ok(Some(name))
}

// The instance of the last event of an instance's life that started this one, by the environment of its process.
fn source_of(alloc: Global, process: Process, env: &Env) -> Result<Option<Text>, AllocError>
    ensures { IfOk result (λ source. source ≡ source_of process env.now) }
{
    match process {
        Process::PreStop | Process::PostStop => Ok(None),
        Process::Main | Process::PreStart | Process::PostStart => instance_of(alloc, env),
    }
}

// Appends the events that started an instance, or without any that a client did.
fn push_started(
    moments: &mut Vec<Moment>,
    time: u64,
    who: &Who,
    events: Option<&str>,
    source: Option<Text>,
) -> Result<(), AllocError>
    ensures { OnOk result (moments.new.items
        ≡ moments.old.items ++ started_moments time who.now (option_map (λ names. names.now) events.entry) source) }
{
    let Some(events) = events else {
        drop(source);
        return push_sign(moments, time, who, Some(Sign::ByClient));
    };
    match Text::from_str(*moments.allocator(), events) {
        Ok(events) => push_sign(moments, time, who, Some(Sign::StartedBy { events, source })),
        Err(refused) => {
            drop(source);
            Err(refused)
        }
    }
}

#[tactic(auto, unfolding(crate::specs::Moments::order_moments))]
fn push_order(moments: &mut Vec<Moment>, time: u64, order: &Order) -> Result<(), AllocError>
    ensures { OnOk result (moments.new.items ≡ moments.old.items ++ order_moments time order.now) }
{
    let source = source_of(*moments.allocator(), order.process, &order.env)?;
    push_started(
        moments,
        time,
        &order.who,
        order.env.get("UPSTART_EVENTS"),
        source,
    )?;
    push_sign(
        moments,
        time,
        &order.who,
        Some(Sign::Enters(state_by(order.process))),
    )
}

/// The state that an event of an instance's life reports.
pub(crate) fn state_told(name: &str) -> Option<State>
    ensures { result ≡ state_told name.now }
{
    match name {
        "starting" => Some(State::Starting),
        "started" => Some(State::Running),
        "stopping" => Some(State::Stopping),
        "stopped" => Some(State::Waiting),
        _ => None,
    }
}

// Appends a state, and the event that reports it.
fn push_told(
    moments: &mut Vec<Moment>,
    time: u64,
    event: &str,
    state: State,
    who: Option<Text>,
) -> Result<(), AllocError>
    ensures { OnOk result (moments.new.items ≡ moments.old.items ++ told_by time event.now state who) }
{
    let Some(name) = who else {
        return Ok(());
    };
    let event = match life_event(*moments.allocator(), event, name.as_str()) {
        Ok(event) => event,
        Err(refused) => {
            drop(name);
            return Err(refused);
        }
    };
    let entered = moments.push(Moment {
        time,
        name,
        sign: Sign::Enters(state),
    });
    match entered {
        Ok(()) => {
            moments.push(Moment {
                time,
                name: event,
                sign: Sign::Comes,
            })?;
            Ok(())
        }
        Err(refused) => {
            drop(event);
            Err(refused.into())
        }
    }
}

#[tactic(auto, unfolding(crate::specs::Moments::event_moments))]
fn push_event(moments: &mut Vec<Moment>, time: u64, event: &Event) -> Result<(), AllocError>
    ensures { OnOk result (moments.new.items ≡ moments.old.items ++ event_moments time event.now) }
{
    let name = event.name.as_str();
    let Some(state) = state_told(name) else {
        return push_comes(moments, time, name);
    };
    let who = instance_of(*moments.allocator(), &event.vars)?;
    push_told(moments, time, name, state, who)
}

fn push_output(moments: &mut Vec<Moment>, time: u64, output: &Output) -> Result<(), AllocError>
    ensures { OnOk result (moments.new.items ≡ moments.old.items ++ output_moments time output.now) }
{
    match output {
        Output::Spawn(order) => push_order(moments, time, order),
        Output::Signal {
            who,
            pid: _,
            signal,
        } => { push_sign(moments, time, who, Some(Sign::Signal(*signal))) }
        Output::Emitted(event) => push_event(moments, time, event),
        Output::Reply { id: _, answer: _ } => Ok(()),
    }
}

fn push_outputs(moments: &mut Vec<Moment>, time: u64, outputs: &[Output]) -> Result<(), AllocError>
    ensures { OnOk result (moments.new.items
        ≡ moments.old.items ++ flat_map (output_moments time) outputs.now) }
{
    for output in outputs {
        push_output(moments, time, output)?;
    }
    Ok(())
}

/// Appends the moments of an input and its answer at this time. An input that wasn't expected adds none.
pub fn push_step(
    moments: &mut Vec<Moment>,
    time: u64,
    given: &Input,
    step: &Step,
) -> Result<(), AllocError>
    ensures { OnOk result (moments.new.items ≡ moments.old.items ++ step_moments time given.now step.now) }
{
    match step {
        Step::Gave(outputs) => {
            push_heard(moments, time, given)?;
            push_outputs(moments, time, outputs.as_slice())
        }
        Step::NotExpected => Ok(()),
    }
}
