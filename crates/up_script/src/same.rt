//! Whether inputs are the same.
ghost use Rattle.std.specs.Prelude.{◌≡◌, ◌<◌, List, Some, true, false, length, slice_get, ℕ};
ghost use Rattle.std.specs.List.{AllByRecursion};
ghost use Rattle.up_script.specs.Script.{has_jobs, loads_jobs};

use up_conf::Process;
use up_model::{Command, Event, How, Input, Loaded, Request, Who};
use up_text::Env;

fn same_pair(env: &Env, other: &Env, i: usize) -> bool
    requires one { i < length env.now }
    requires both { i < length other.now }
    ensures same { result ≡ true → (pair : List ℕ × List ℕ) × (slice_get env.now i ≡ Some pair)
        × (slice_get other.now i ≡ Some pair) }
    ensures differs { slice_get env.now i ≡ slice_get other.now i → result ≡ true }
{
    let (key, value) = env.at(i);
    let (other_key, other_value) = other.at(i);
    key == other_key && value == other_value
}

#[tactic(auto, using(crate::proofs::Compared::found_further, crate::proofs::Compared::all_same))]
fn same_env(env: &Env, other: &Env) -> bool
    ensures same { result ≡ true → env.now ≡ other.now }
    ensures differs { env.now ≡ other.now → result ≡ true }
{
    if env.len() != other.len() {
        return false;
    }
    for i in 0..env.len() {
        if !same_pair(env, other, i) {
            return false;
        }
    }
    true
}

fn same_event(event: &Event, other: &Event) -> bool
    ensures same { result ≡ true → event.now ≡ other.now }
    ensures differs { event.now ≡ other.now → result ≡ true }
{
    event.name.is(&other.name) && same_env(&event.vars, &other.vars)
}

fn same_who(who: &Who, other: &Who) -> bool
    ensures same { result ≡ true → who.now ≡ other.now }
    ensures differs { who.now ≡ other.now → result ≡ true }
{
    who.job.is(&other.job) && who.instance.is(other.instance.as_str())
}

fn same_command(command: Command, other: Command) -> bool
    ensures same { result ≡ true → command ≡ other }
    ensures differs { command ≡ other → result ≡ true }
{
    command == other
}

fn same_request(request: &Request, other: &Request) -> bool
    ensures same { result ≡ true → request.now ≡ other.now }
    ensures differs { request.now ≡ other.now → result ≡ true }
{
    same_command(request.command, other.command)
        && request.wait == other.wait
        && request.name.is(other.name.as_str())
        && same_env(&request.vars, &other.vars)
}

fn same_process(process: Process, other: Process) -> bool
    ensures same { result ≡ true → process ≡ other }
    ensures differs { process ≡ other → result ≡ true }
{
    process == other
}

fn same_how(how: How, other: How) -> bool
    ensures same { result ≡ true → how ≡ other }
    ensures differs { how ≡ other → result ≡ true }
{
    how == other
}

// Loaded jobs don't occur in what is read.
fn same_loaded(loaded: &Loaded, other: &Loaded) -> bool
    requires { has_jobs loaded.now ≡ false }
    ensures same { result ≡ true → loaded.now ≡ other.now }
    ensures differs { loaded.now ≡ other.now → result ≡ true }
{
    match (loaded, other) {
        (Loaded::Refused(code), Loaded::Refused(its)) => *code == *its,
        (Loaded::Unread, Loaded::Unread) => true,
        _ => false,
    }
}

fn same_input(input: &Input, other: &Input) -> bool
    requires { loads_jobs input.now ≡ false }
    ensures same { result ≡ true → input.now ≡ other.now }
    ensures differs { input.now ≡ other.now → result ≡ true }
{
    match (input, other) {
        (Input::Emit(event), Input::Emit(its)) => same_event(event, its),
        (
            Input::Request { id, request },
            Input::Request {
                id: of,
                request: its,
            },
        ) => { *id == *of && same_request(request, its) }
        (
            Input::Spawned { who, process, pid },
            Input::Spawned {
                who: of,
                process: its,
                pid: number,
            },
        ) => same_who(who, of) && same_process(*process, *its) && *pid == *number,
        (
            Input::Refused { who, process },
            Input::Refused {
                who: of,
                process: its,
            },
        ) => { same_who(who, of) && same_process(*process, *its) }
        (
            Input::Ended { who, process, how },
            Input::Ended {
                who: of,
                process: its,
                how: end,
            },
        ) => same_who(who, of) && same_process(*process, *its) && same_how(*how, *end),
        (Input::Clock(reading), Input::Clock(its)) => *reading == *its,
        (Input::Turn, Input::Turn) => true,
        (
            Input::Load { id, loaded },
            Input::Load {
                id: of,
                loaded: its,
            },
        ) => { *id == *of && same_loaded(loaded, its) }
        _ => false,
    }
}

pub(crate) fn input_at(inputs: &[Input], i: usize) -> &Input
    requires { i < length inputs.now }
    ensures { slice_get inputs.now i ≡ Some result.now }
{
    &inputs[i]
}

/// Whether both are the same inputs in the same order. The first ones come from a script, so that no load of jobs is among them.
#[tactic(auto, using(crate::proofs::Compared::one_further, crate::proofs::Compared::all_same))]
pub(crate) fn same_inputs(inputs: &[Input], others: &[Input]) -> bool
    requires { AllByRecursion (λ input. loads_jobs input ≡ false) inputs.now }
    ensures same { result ≡ true → inputs.now ≡ others.now }
    ensures differs { inputs.now ≡ others.now → result ≡ true }
{
    if inputs.len() != others.len() {
        return false;
    }
    for i in 0..inputs.len() {
        if !same_input(input_at(inputs, i), input_at(others, i)) {
            return false;
        }
    }
    true
}
