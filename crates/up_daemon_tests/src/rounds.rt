//! Scripts of rounds: in each row a round or a look at what it left, and what is found, between which is `|`.
use crate::edge::calls::is_number;
use crate::stage::Scene;
use std::test::Fail;
use up_daemon::Round;
use up_edge::{Door, Host, Passed, ScriptDoor, Source};
use up_model::Input;

// Three numbers: of a door, clients that came, bytes that were written and clients that were closed; of processes, how many were started,
// refused and ended.
type Counts = (usize, usize, usize);

fn plus(first: Counts, second: Counts) -> Counts {
    (
        first.0.saturating_add(second.0),
        first.1.saturating_add(second.1),
        first.2.saturating_add(second.2),
    )
}

// Whether three words are these numbers.
fn are_counts(told: &str, found: Counts) -> bool {
    let Some((first, rest)) = told.split_once(' ') else {
        return false;
    };
    let Some((second, third)) = rest.split_once(' ') else {
        return false;
    };
    is_number(first, found.0 as u64)
        && is_number(second, found.1 as u64)
        && is_number(third, found.2 as u64)
}

fn passed_by(entry: &Passed) -> Counts {
    match entry {
        Passed::Accepted(Some(_)) => (1, 0, 0),
        Passed::Wrote(_, bytes) => (0, bytes.as_slice().len(), 0),
        Passed::Closed(_) => (0, 0, 1),
        Passed::Accepted(None) | Passed::Read(_, _) => (0, 0, 0),
    }
}

// What passed at the door in its last round.
fn passed(entries: &[Passed]) -> Counts {
    let mut sum: Counts = (0, 0, 0);
    for entry in entries {
        sum = plus(sum, passed_by(entry));
    }
    sum
}

fn run_by(input: &Input) -> Counts {
    match input {
        Input::Spawned { .. } => (1, 0, 0),
        Input::Refused { .. } => (0, 1, 0),
        Input::Ended { .. } => (0, 0, 1),
        _ => (0, 0, 0),
    }
}

// What the processes of a round did.
fn run(inputs: &[Input]) -> Counts {
    let mut sum: Counts = (0, 0, 0);
    for input in inputs {
        sum = plus(sum, run_by(input));
    }
    sum
}

fn kind_of(input: &Input) -> &'static str {
    match input {
        Input::Emit(_) => "emit",
        Input::Request { .. } => "request",
        Input::Spawned { .. } => "spawned",
        Input::Refused { .. } => "refused",
        Input::Ended { .. } => "ended",
        Input::Clock(_) => "clock",
        Input::Turn => "turn",
        Input::Load { .. } => "load",
    }
}

/// Whether words are the kinds of these inputs; others may come in place of `..` at the end.
pub(crate) fn are_kinds(words: &str, inputs: &[Input]) -> bool {
    let mut count = 0usize;
    for word in words.split(' ') {
        match inputs.get(count) {
            _ if word == ".." => return true,
            Some(input) if kind_of(input) == word => count = count.wrapping_add(1),
            _ => return false,
        }
    }
    count == inputs.len()
}

/// One round. What it is, as a scene, is dropped by a call: the prover would go through each field of what a scope drops.
pub(crate) fn round_of(scene: &mut Scene) -> Result<Round, Fail> {
    Ok(
        scene
            .daemon
            .round(&mut scene.host, &mut scene.door, &mut scene.source)?,
    )
}

fn counts_of(scene: &mut Scene, runs: bool) -> Result<Counts, Fail> {
    let round = round_of(scene)?;
    let counts = if runs {
        run(round.fed.as_slice())
    } else {
        passed(scene.door.happened())
    };
    drop(round);
    Ok(counts)
}

// Whether these are the counts of rounds, one after another.
fn are_rounds(scene: &mut Scene, runs: bool, told: &str) -> Result<bool, Fail> {
    for counts in told.split(',') {
        if !are_counts(counts, counts_of(scene, runs)?) {
            return Ok(false);
        }
    }
    Ok(true)
}

fn counts_of_six(scene: &mut Scene, runs: bool) -> Result<Counts, Fail> {
    let mut sum: Counts = (0, 0, 0);
    for _ in 0..6u32 {
        sum = plus(sum, counts_of(scene, runs)?);
    }
    Ok(sum)
}

fn feeds(scene: &mut Scene, words: &str) -> Result<bool, Fail> {
    let round = round_of(scene)?;
    let are_kinds = are_kinds(words, round.fed.as_slice());
    drop(round);
    Ok(are_kinds)
}

// Whether the first bytes that were written in the last round are these.
fn has_written(entries: &[Passed], bytes: &[u8]) -> bool {
    for entry in entries {
        if let Passed::Wrote(_, taken) = entry {
            return taken.as_slice() == bytes;
        }
    }
    false
}

fn are_faults(told: &str, faults: u64) -> bool {
    match told {
        "any" => true,
        "many" => faults > 5,
        _ => is_number(told, faults),
    }
}

fn is_left(scene: &Scene, call: &str, told: &str) -> bool {
    match call {
        "answer" => has_written(scene.door.happened(), told.as_bytes()),
        "loads" => is_number(told, scene.source.happened().len() as u64),
        "door faults" => are_faults(told, scene.door.faults()),
        "host faults" => are_faults(told, scene.host.faults()),
        "source faults" => are_faults(told, scene.source.faults()),
        _ => false,
    }
}

fn is_found(scene: &mut Scene, call: &str, told: &str) -> Result<bool, Fail> {
    match call {
        "passes" => are_rounds(scene, false, told),
        "runs" => are_rounds(scene, true, told),
        "six pass" => Ok(are_counts(told, counts_of_six(scene, false)?)),
        "six run" => Ok(are_counts(told, counts_of_six(scene, true)?)),
        "feeds" => feeds(scene, told),
        _ => Ok(is_left(scene, call, told)),
    }
}

fn holds(scene: &mut Scene, row: &str) -> Result<bool, Fail> {
    match row.split_once('|') {
        Some((call, told)) => is_found(scene, call, told),
        None => Ok(false),
    }
}

fn play_all(scene: &mut Scene, script: &str) -> Result<(), Fail> {
    for row in script.lines() {
        if !holds(scene, row)? {
            return Err(Fail::from(row));
        }
    }
    Ok(())
}

/// Plays a script with a scene; fails with the first row that isn't so.
pub(crate) fn play(scene: Result<Scene, Fail>, script: &str) -> Result<(), Fail> {
    let mut scene = scene?;
    let played = play_all(&mut scene, script);
    drop(scene);
    played
}

/// Whether some rounds pass so at the door.
pub(crate) fn passes(scene: Result<Scene, Fail>, told: &str) -> Result<bool, Fail> {
    let mut scene = scene?;
    let are_rounds = are_rounds(&mut scene, false, told);
    drop(scene);
    are_rounds
}

fn both_hold(scene: &mut Scene, first: &str, second: &str) -> Result<bool, Fail> {
    Ok(holds(scene, first)? && holds(scene, second)?)
}

/// Whether two rows are so.
pub(crate) fn come_to(scene: Result<Scene, Fail>, first: &str, second: &str) -> Result<bool, Fail> {
    let mut scene = scene?;
    let hold = both_hold(&mut scene, first, second);
    drop(scene);
    hold
}
