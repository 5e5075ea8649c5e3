//! Runs of rows in which a request for memory may be refused. Each run gives what its row says with ample memory, or stops before the
//! step that was refused, and the engine is down then.
//!
//! `rt try --test --fail-alloc N -- engine::memory` refuses the Nth request; `bench/faults` goes through all of them with the built tests.
use crate::engine::clock::RESPAWN_LIMIT;
use crate::engine::{
    Case, REQUESTS, STARTUP, Untried, case_of, engine, expected, inputs, push_outputs, rows,
};
use std::alloc::{AllocError, Global};
use std::test::Fail;
use up_engine::{Engine, Run, StepError};
use up_model::{Input, Output, Step};
use up_text::{Env, as_text};

// The job is started by a request only, since the event has no variable by which its instance could be named.
static INSTANCE_NAMES: &str = r#"instance_names
%file a.conf
start on go
instance $TTY
exec /bin/g
%script
emit go #> 1 live, turn
turn #> 1 live, turn
turn #> 0 live
request 1 start a #> 0 live
#> reply 1 failed "Unknown parameter: TTY"
request 2 start a TTY=tty1 #> 1 live, turn
#> event starting JOB="a" INSTANCE="tty1"
turn #> 1 live, turn
turn #> 0 live
#> spawn a (tty1) main "/bin/g"
#>   TTY="tty1"
#>   UPSTART_JOB="a"
#>   UPSTART_INSTANCE="tty1"
spawned a tty1 main 100 #> 1 live, turn
#> event started JOB="a" INSTANCE="tty1"
#> reply 2 ok "a (tty1) start/running, process 100"
"#;

static FAILING_TASK: &str = r#"failing_task
%file a.conf
task
exec /bin/t
%script
request 1 start a #> 1 live, turn
#> event starting JOB="a" INSTANCE=""
turn #> 1 live, turn
turn #> 0 live
#> spawn a main "/bin/t"
#>   UPSTART_JOB="a"
#>   UPSTART_INSTANCE=""
spawned a "" main 100 #> 1 live, turn
#> event started JOB="a" INSTANCE=""
ended a "" main exit 1 #> 2 live, turn
#> reply 1 failed "Job failed to start"
#> event stopping JOB="a" INSTANCE="" RESULT="failed" PROCESS="main" EXIT_STATUS="1"
"#;

fn cases() -> [&'static str; 5] {
    [
        STARTUP,
        REQUESTS,
        RESPAWN_LIMIT,
        INSTANCE_NAMES,
        FAILING_TASK,
    ]
}

// What came of a run. Where memory is refused in its midst, its steps are the first of the row's, and the engine is down; if it is refused
// before, nothing has happened, and a second run is whole.
#[derive(Clone, Copy, Debug, PartialEq, Eq)]
enum Outcome {
    Whole,
    Refused,
    Otherwise,
}

fn are_printed(alloc: Global, outputs: &[Output], lines: &str) -> Result<bool, AllocError> {
    let mut text: Vec<u8> = Vec::new(alloc);
    push_outputs(&mut text, outputs)?;
    match as_text(text.as_slice()) {
        Some(made) => Ok(made == lines),
        None => Ok(false),
    }
}

fn is_step(alloc: Global, step: &Step, row: &str) -> Result<bool, AllocError> {
    let (_, lines) = row.split_once('\n').unwrap_or((row, ""));
    match step {
        Step::Gave(outputs) => are_printed(alloc, outputs.as_slice(), lines),
        Step::NotExpected => Ok(false),
    }
}

// Whether the steps are the first of the rows.
fn are_steps(alloc: Global, steps: &[Step], rows: &[&str]) -> Result<bool, AllocError> {
    for (step, row) in steps.iter().zip(rows) {
        if !is_step(alloc, step, row)? {
            return Ok(false);
        }
    }
    Ok(steps.len() <= rows.len())
}

// Whether an engine has the live events and the turn of a row. Takes no memory.
fn is_state(engine: &Engine, row: &str) -> bool {
    match row.split_once(" live") {
        Some((live, rest)) => {
            live.parse::<usize>() == Ok(engine.live_events())
                && rest.starts_with(", turn\n") == engine.has_turn()
        }
        None => false,
    }
}

// Whether an engine has the live events and the turn that the rows leave.
fn is_left(engine: &Engine, rows: &[&str]) -> bool {
    match rows.last() {
        Some(row) => is_state(engine, row),
        None => is_state(engine, "0 live\n"),
    }
}

// Why something was refused, if it was. What came of it is dropped here, where the prover knows no more than its type's name.
fn refusal<T: Drop>(answer: Result<T, StepError>) -> Option<StepError> {
    match answer {
        Ok(_) => None,
        Err(refused) => Some(refused),
    }
}

// Whether an engine answers everything with this refusal.
fn refuses_all(alloc: Global, engine: &mut Engine) -> bool {
    let down = Some(StepError::Down);
    refusal(engine.step(Input::Turn)) == down
        && refusal(engine.run(Vec::new(alloc))) == down
        && refusal(engine.status("a", &Env::new(alloc))) == down
        && refusal(engine.list()) == down
}

// What came of a run that made steps.
fn came_of(
    alloc: Global,
    engine: &mut Engine,
    run: &Run,
    rows: &[&str],
) -> Result<Outcome, Untried> {
    let steps = run.steps.as_slice();
    let count = steps.len().min(rows.len());
    if !are_steps(alloc, steps, rows)? || !is_left(engine, &rows[..count]) {
        return Ok(Outcome::Otherwise);
    }
    if !run.down && count == rows.len() {
        return Ok(Outcome::Whole);
    }
    let is_refused = run.down && count < rows.len() && refuses_all(alloc, engine);
    if is_refused && is_left(engine, &rows[..count]) {
        return Ok(Outcome::Refused);
    }
    Ok(Outcome::Otherwise)
}

fn run_once(
    alloc: Global,
    engine: &mut Engine,
    case: &Case,
    rows: &[&str],
) -> Result<Option<Outcome>, Untried> {
    match engine.run(inputs(alloc, case)?) {
        Ok(run) => {
            let outcome = came_of(alloc, engine, &run, rows);
            drop(run);
            Ok(Some(outcome?))
        }
        Err(StepError::Memory) if is_left(engine, &[]) => Ok(None),
        Err(_) => Ok(Some(Outcome::Otherwise)),
    }
}

// A run that was refused before its first step has changed nothing: the next one is as if it were the first.
fn run_with(
    alloc: Global,
    engine: &mut Engine,
    case: &Case,
    rows: &[&str],
) -> Result<Outcome, Untried> {
    if let Some(outcome) = run_once(alloc, engine, case, rows)? {
        return Ok(outcome);
    }
    match run_once(alloc, engine, case, rows)? {
        Some(Outcome::Whole) => Ok(Outcome::Refused),
        _ => Ok(Outcome::Otherwise),
    }
}

fn run_case(alloc: Global, text: &str) -> Result<Outcome, Untried> {
    let case = case_of(text);
    let expected = expected(alloc, &case)?;
    let rows = rows(alloc, expected.as_str())?;
    let mut engine = engine(alloc, &case)?;
    let outcome = run_with(alloc, &mut engine, &case, rows.as_slice());
    drop(engine);
    outcome
}

#[test]
fn always_memory(rt: HostRuntime) -> Result<(), Fail> {
    for text in cases() {
        let name = case_of(text).name;
        assert_eq!(rt; run_case(rt.alloc(), text)?, Outcome::Whole, "{name}");
    }
    Ok(())
}

// What came of a run, also where a row's inputs, its table or the texts to compare were refused memory.
fn told(came: Result<Outcome, Untried>) -> &'static str {
    match came {
        Ok(Outcome::Whole) => "whole",
        Ok(Outcome::Refused) => "the run was refused memory",
        Ok(Outcome::Otherwise) => "otherwise",
        Err(_) => "the test was refused memory",
    }
}

#[test]
fn memory_refused(rt: HostRuntime) -> Result<(), Fail> {
    for text in cases() {
        let name = case_of(text).name;
        let told = told(run_case(rt.alloc(), text));
        println!(rt; "{name}: {told}")?;
        assert!(rt; told != "otherwise", "{name}");
    }
    Ok(())
}
