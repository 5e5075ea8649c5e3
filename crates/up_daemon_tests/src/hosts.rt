//! Rounds over hosts that play scripts, and over hosts that fail.
use crate::parts::expect;
use crate::rounds::{are_kinds, come_to, play, round_of};
use crate::scripted::{host, late_host, no_door};
use crate::stage::{Before, Scene, make_scene};
use std::alloc::{AllocError, Global};
use std::test::Fail;
use up_daemon::{DaemonError, Round};
use up_edge::{Failure, Host, ScriptHost};
use up_model::Output;
use up_print::push_outputs;
use up_text::Items;

// A daemon with this host, to which nobody comes.
fn alone(alloc: Global, host: Result<ScriptHost, AllocError>) -> Result<Scene, Fail> {
    make_scene(alloc, Before::Go, host, no_door(alloc))
}

const REFUSED: &str = "event starting JOB=\"a\" INSTANCE=\"\"
spawn a main \"/bin/d\"
  UPSTART_EVENTS=\"go\"
  UPSTART_JOB=\"a\"
  UPSTART_INSTANCE=\"\"
event stopping JOB=\"a\" INSTANCE=\"\" RESULT=\"failed\" PROCESS=\"main\"
event go/failed
event stopped JOB=\"a\" INSTANCE=\"\" RESULT=\"failed\" PROCESS=\"main\"
";

fn push_all(text: &mut Vec<u8>, steps: &[Items<Output>]) -> Result<(), AllocError> {
    for outputs in steps {
        push_outputs(text, outputs.as_slice())?;
    }
    Ok(())
}

// Whether a replay prints the outputs so.
fn are_printed(alloc: Global, steps: &[Items<Output>], wanted: &str) -> Result<bool, AllocError> {
    let mut text: Vec<u8> = Vec::new(alloc);
    let pushed = push_all(&mut text, steps);
    let is_wanted = text.as_slice() == wanted.as_bytes();
    drop(text);
    pushed?;
    Ok(is_wanted)
}

// The answer is the next input.
const ANSWERED: &str = "clock turn turn turn refused turn ..";

fn shows_refusal(alloc: Global, round: &Round) -> Result<bool, AllocError> {
    let is_answered = are_kinds(ANSWERED, round.fed.as_slice());
    Ok(is_answered && are_printed(alloc, round.gave.as_slice(), REFUSED)?)
}

fn is_refused(alloc: Global, scene: &mut Scene) -> Result<(), Fail> {
    let round = round_of(scene)?;
    let shown = shows_refusal(alloc, &round);
    drop(round);
    expect("the inputs and the outputs", shown?)?;
    expect("one fault", scene.host.faults() == 1)
}

// A host that refuses the spawn: its answer is the next input, and the job fails.
#[test]
fn a_spawn_that_is_refused_is_answered_at_once(rt: HostRuntime) -> Result<(), Fail> {
    let mut scene = alone(rt.alloc(), host(rt.alloc(), &[]))?;
    let tried = is_refused(rt.alloc(), &mut scene);
    drop(scene);
    tried
}

// How many processes are started, refused and ended in each of four rounds: the end comes in the third round, and once.
const LATE: &str = "runs|1 0 0,0 0 0,0 0 1,0 0 0";

#[test]
fn an_end_comes_once_after_a_poll_that_finds_nothing(rt: HostRuntime) -> Result<(), Fail> {
    let host = late_host(rt.alloc(), 2, &[]);
    play(alone(rt.alloc(), host), LATE)
}

// The calls of the first two rounds: a reading, a poll and a spawn; a reading and a poll.
#[test]
fn an_end_comes_once_after_a_poll_that_fails(rt: HostRuntime) -> Result<(), Fail> {
    let host = late_host(rt.alloc(), 1, &[Failure::Once(4)]);
    play(alone(rt.alloc(), host), LATE)
}

// Whether processes do this in six rounds when calls fail.
fn is_so(
    alloc: Global,
    failure: Failure,
    row: &'static str,
    faults: &'static str,
) -> Result<bool, Fail> {
    let host = late_host(alloc, 0, &[failure]);
    come_to(alone(alloc, host), row, faults)
}

// The third call is the spawn. Any other call that fails once delays what it does.
#[test]
fn each_call_of_a_host_fails_once(rt: HostRuntime) -> Result<(), Fail> {
    for call in 0..12u64 {
        let row = if call == 2 {
            "six run|0 1 0"
        } else {
            "six run|1 0 1"
        };
        if !is_so(rt.alloc(), Failure::Once(call), row, "host faults|1")? {
            return Err(Fail::from(call));
        }
    }
    Ok(())
}

// From the call after the end is found on, nothing is left to be done.
#[test]
fn each_call_of_a_host_fails_for_ever(rt: HostRuntime) -> Result<(), Fail> {
    for call in 0..8u64 {
        let row = match call {
            0..=2 => "six run|0 1 0",
            3..=4 => "six run|1 0 0",
            _ => "six run|1 0 1",
        };
        if !is_so(rt.alloc(), Failure::From(call), row, "host faults|many")? {
            return Err(Fail::from(call));
        }
    }
    Ok(())
}

#[test]
fn refusals_have_numbers(_: HostRuntime) -> Result<(), Fail> {
    expect(
        "the numbers",
        DaemonError::Down.number() == 41 && DaemonError::Memory.number() == 42,
    )
}
