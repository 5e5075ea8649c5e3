//! The worked rows, step by step.
//!
//! The cases on a topic are one text: the prover goes through each string of an array, and through none of a text. A line `%case NAME`
//! begins a case, and `%case NAME: KEY=VALUE, ..` one with a base environment. Below it stands a bundle, as `initd replay` reads it. The
//! comments of its script that begin with `#>` tell what comes of each step: beside the statement how many events are live then, and
//! whether a turn would do something; below it the outputs, as they are printed. A process that runs in another folder than `/`, or
//! whose output is dropped, has a line of that more.
mod base;
mod chain;
mod clock;
mod expressions;
mod instances;
mod loads;
mod memory;
mod processes;
mod requests;
mod restarts;
mod tasks;
mod waiting;

use std::alloc::{AllocError, Global};
use std::process::Abort;
use std::test::Fail;
use up_conf::Folder;
use up_disk::{BundleRun, compile_bundle};
use up_engine::{Engine, StepError};
use up_model::{Input, Order, Output};
use up_print::push_output;
use up_script::bundle::MAX_BUNDLE;
use up_text::{Env, Items, Text, TextFault, as_text};

/// Why a row couldn't be tried: memory was refused, or its bundle or a name isn't readable.
#[derive(Debug, Drop)]
pub(crate) struct Untried;

impl From<AllocError> for Untried {
    fn from(_: AllocError) -> Untried {
        Untried
    }
}

impl From<TextFault> for Untried {
    fn from(_: TextFault) -> Untried {
        Untried
    }
}

/// A worked row: its name, its base environment, and its bundle.
#[derive(Clone, Copy)]
pub(crate) struct Case<'a> {
    pub(crate) name: &'a str,
    pub(crate) base: &'a str,
    pub(crate) bundle: &'a str,
}

/// The case of a text, which begins with its name.
pub(crate) fn case_of(text: &str) -> Case<'_> {
    let (head, bundle) = text.split_once('\n').unwrap_or((text, ""));
    let (name, base) = head.split_once(": ").unwrap_or((head, ""));
    Case { name, base, bundle }
}

/// Both values, unless one of them couldn't be made. The other is dropped here, where the prover knows of it no more than its type's name.
pub(crate) fn both<A: Drop, E: Drop, B: Drop, F: Drop>(
    first: Result<A, E>,
    second: Result<B, F>,
) -> Result<(A, B), Untried> {
    match first {
        Ok(first) => match second {
            Ok(second) => Ok((first, second)),
            Err(_) => Err(Untried),
        },
        Err(_) => Err(Untried),
    }
}

/// Adds a file to a folder.
pub(crate) fn add_file(
    alloc: Global,
    folder: &mut Folder,
    path: &str,
    bytes: &[u8],
) -> Result<(), AllocError> {
    let path = Text::from_str(alloc, path)?;
    let bytes = Vec::from_slice(alloc, bytes)?;
    folder.add(path, Items::new(bytes))
}

fn set_all(env: &mut Env, pairs: &str) -> Result<(), TextFault> {
    for pair in pairs.split(", ") {
        if let Some((key, value)) = pair.split_once('=') {
            env.set(key, value)?;
        }
    }
    Ok(())
}

/// The environment `KEY=VALUE, KEY=VALUE, ..`.
pub(crate) fn environment(alloc: Global, pairs: &str) -> Result<Env, Untried> {
    let mut env = Env::new(alloc);
    match set_all(&mut env, pairs) {
        Ok(()) => Ok(env),
        Err(_) => {
            drop(env);
            Err(Untried)
        }
    }
}

// Large values are dropped by a call, here and below: the prover would go through each field of what a scope drops.
fn compiled(alloc: Global, bundle: &str) -> Result<BundleRun, Untried> {
    let bytes = bundle.as_bytes();
    if bytes.len() > MAX_BUNDLE {
        return Err(Untried);
    }
    match compile_bundle(alloc, bytes) {
        Ok(Ok(run)) => Ok(run),
        Ok(Err(refusal)) => {
            drop(refusal);
            Err(Untried)
        }
        Err(_) => Err(Untried),
    }
}

/// The engine of a case, to which nothing has happened.
pub(crate) fn engine(alloc: Global, case: &Case) -> Result<Engine, Untried> {
    let (run, base) = both(compiled(alloc, case.bundle), environment(alloc, case.base))?;
    let BundleRun {
        faults,
        table,
        read,
    } = run;
    drop(faults);
    drop(read);
    Ok(Engine::new(alloc, table, base)?)
}

/// The inputs of a case.
pub(crate) fn inputs(alloc: Global, case: &Case) -> Result<Vec<Input>, Untried> {
    let BundleRun {
        faults,
        table,
        read,
    } = compiled(alloc, case.bundle)?;
    drop(faults);
    drop(table);
    match read {
        Ok(inputs) => Ok(inputs.expanded(alloc)?.into_vec()),
        Err(_) => Err(Untried),
    }
}

fn push_expected(text: &mut String, bundle: &str) -> Result<(), AllocError> {
    for line in bundle.lines() {
        if let Some((statement, comment)) = line.split_once("#> ") {
            text.push_str(if statement.is_empty() { "" } else { "|" })?;
            text.push_str(comment)?;
            text.push_str("\n")?;
        }
    }
    Ok(())
}

/// What a case expects of its steps: for each a `|`, how many events are live then and whether there is a turn, and its outputs.
pub(crate) fn expected(alloc: Global, case: &Case) -> Result<String, AllocError> {
    let mut text = String::new(alloc);
    push_expected(&mut text, case.bundle)?;
    Ok(text)
}

/// The same, step by step.
pub(crate) fn rows(alloc: Global, expected: &str) -> Result<Vec<&str>, AllocError> {
    expected.split('|').skip(1).collect(alloc)
}

fn push(text: &mut Vec<u8>, more: &str) -> Result<(), AllocError> {
    text.extend_from_slice(more.as_bytes())
}

// The line of where a process runs and whether its output is dropped, which replays don't print; none if it is as usual.
fn push_place(text: &mut Vec<u8>, order: &Order) -> Result<(), AllocError> {
    if order.dir.is("/") && !order.silent {
        return Ok(());
    }
    let silent = if order.silent { "true" } else { "false" };
    push(text, "  in ")?;
    push(text, order.dir.as_str())?;
    push(text, " silent=")?;
    push(text, silent)?;
    push(text, "\n")
}

/// Adds the lines of outputs.
pub(crate) fn push_outputs(text: &mut Vec<u8>, outputs: &[Output]) -> Result<(), AllocError> {
    for output in outputs {
        push_output(text, output)?;
        if let Output::Spawn(order) = output {
            push_place(text, order)?;
        }
    }
    Ok(())
}

fn push_answer(
    text: &mut Vec<u8>,
    alloc: Global,
    answer: Result<Vec<Output>, StepError>,
) -> Result<(), AllocError> {
    match answer {
        Ok(outputs) => {
            let pushed = push_outputs(text, outputs.as_slice());
            drop(outputs);
            pushed
        }
        Err(fault) => {
            let refused = format!(in alloc; "refused {} {fault}\n", fault.number())?;
            push(text, refused.as_str())
        }
    }
}

fn push_state(text: &mut Vec<u8>, alloc: Global, engine: &Engine) -> Result<(), AllocError> {
    let live = engine.live_events();
    let turn = if engine.has_turn() { ", turn" } else { "" };
    let state = format!(in alloc; "{live} live{turn}\n")?;
    push(text, state.as_str())
}

// A step gives what its row expects.
fn check_row(
    rt: &impl Abort,
    alloc: Global,
    engine: &mut Engine,
    given: Input,
    row: &str,
    of: (&str, usize),
) -> Result<(), AllocError> {
    let answer = engine.step(given);
    let mut text: Vec<u8> = Vec::new(alloc);
    push_state(&mut text, alloc, engine)?;
    push_answer(&mut text, alloc, answer)?;
    let made = as_text(text.as_slice());
    assert_eq!(rt; made, Some(row), "at step {} of {}", of.1, of.0);
    Ok(())
}

// The inputs are taken from the end.
fn check_rows(
    rt: &impl Abort,
    alloc: Global,
    engine: &mut Engine,
    inputs: &mut Vec<Input>,
    name: &str,
    rows: &[&str],
) -> Result<(), Untried> {
    for (place, row) in rows.iter().enumerate() {
        match inputs.pop() {
            Some(given) => check_row(rt, alloc, engine, given, row, (name, place))?,
            None => return Err(Untried),
        }
    }
    Ok(())
}

fn check_inputs(
    rt: &impl Abort,
    alloc: Global,
    engine: &mut Engine,
    case: &Case,
    rows: &[&str],
) -> Result<(), Untried> {
    let mut inputs = inputs(alloc, case)?;
    inputs.reverse();
    let steps = (inputs.len(), rows.len());
    let checked = check_rows(rt, alloc, engine, &mut inputs, case.name, rows);
    drop(inputs);
    assert_eq!(rt; steps.0, steps.1, "steps of {}", case.name);
    checked
}

fn try_case(rt: &impl Abort, alloc: Global, case: &Case) -> Result<(), Untried> {
    let expected = expected(alloc, case)?;
    let rows = rows(alloc, expected.as_str())?;
    let mut engine = engine(alloc, case)?;
    let checked = check_inputs(rt, alloc, &mut engine, case, rows.as_slice());
    drop(engine);
    checked
}

// The first line of a case, counted from that below its name, that is no statement of its script.
fn bad_line(alloc: Global, case: &Case) -> Option<u32> {
    let Ok(run) = compiled(alloc, case.bundle) else {
        return None;
    };
    let BundleRun {
        faults,
        table,
        read,
    } = run;
    drop(faults);
    drop(table);
    match read {
        Ok(inputs) => {
            drop(inputs);
            None
        }
        Err(line) => Some(line),
    }
}

/// Tries the case of a text, which begins with its name.
pub(crate) fn check_case(rt: &impl Abort, alloc: Global, text: &str) -> Result<(), Fail> {
    let case = case_of(text);
    match try_case(rt, alloc, &case) {
        Ok(()) => Ok(()),
        Err(_) => {
            assert_eq!(rt;
                bad_line(alloc, &case),
                None,
                "the bad line of {}",
                case.name
            );
            Err(Fail::new(case.name))
        }
    }
}

/// Tries the cases of a text.
pub(crate) fn check_cases(rt: &impl Abort, alloc: Global, cases: &str) -> Result<(), Fail> {
    for text in cases.split("%case ").skip(1) {
        check_case(rt, alloc, text)?;
    }
    Ok(())
}

pub(crate) static STARTUP: &str = r#"startup
%file a.conf
start on startup
exec /bin/true x
%script
emit startup #> 1 live, turn
turn #> 2 live, turn
#> event starting JOB="a" INSTANCE=""
turn #> 2 live, turn
turn #> 1 live
#> spawn a main "/bin/true" "x"
#>   UPSTART_EVENTS="startup"
#>   UPSTART_JOB="a"
#>   UPSTART_INSTANCE=""
spawned a "" main 100 #> 2 live, turn
#> event started JOB="a" INSTANCE=""
turn #> 1 live, turn
turn #> 1 live, turn
turn #> 0 live
"#;

// After the failure what started the job is spoilt, which is told when it finishes.
pub(crate) static REQUESTS: &str = r#"requests_clocks_and_refusals
%file a.conf
start on startup
exec /bin/true x
%script
request 7 start zz #> 0 live
#> reply 7 failed "Unknown job: zz"
clock 5 #> 0 live
emit startup #> 1 live, turn
turn #> 2 live, turn
#> event starting JOB="a" INSTANCE=""
turn #> 2 live, turn
turn #> 1 live
#> spawn a main "/bin/true" "x"
#>   UPSTART_EVENTS="startup"
#>   UPSTART_JOB="a"
#>   UPSTART_INSTANCE=""
refused a "" main #> 2 live, turn
#> event stopping JOB="a" INSTANCE="" RESULT="failed" PROCESS="main"
turn #> 2 live, turn
#> event startup/failed
turn #> 2 live, turn
turn #> 2 live, turn
#> event stopped JOB="a" INSTANCE="" RESULT="failed" PROCESS="main"
turn #> 2 live, turn
turn #> 1 live, turn
turn #> 1 live, turn
turn #> 0 live
"#;

static CASES: &str = r#"
%case empty_folder
%script
emit startup #> 1 live, turn
turn #> 1 live, turn
turn #> 0 live

%case stop_and_start_on_same_event
%file a.conf
start on go
stop on go
exec /bin/d
%script
emit go #> 1 live, turn
turn #> 2 live, turn
#> event starting JOB="a" INSTANCE=""
turn #> 2 live, turn
turn #> 1 live
#> spawn a main "/bin/d"
#>   UPSTART_EVENTS="go"
#>   UPSTART_JOB="a"
#>   UPSTART_INSTANCE=""
spawned a "" main 100 #> 2 live, turn
#> event started JOB="a" INSTANCE=""
turn #> 1 live, turn
turn #> 1 live, turn
turn #> 0 live
emit go #> 1 live, turn
turn #> 2 live, turn
#> event stopping JOB="a" INSTANCE="" RESULT="ok"
turn #> 2 live, turn
turn #> 1 live
#> signal a 100 TERM
ended a "" main signal TERM #> 2 live, turn
#> event starting JOB="a" INSTANCE=""
turn #> 2 live, turn
turn #> 1 live
#> spawn a main "/bin/d"
#>   UPSTART_EVENTS="go"
#>   UPSTART_JOB="a"
#>   UPSTART_INSTANCE=""

# After the stranger's end the steps are those of `STARTUP`.
%case end_of_a_stranger
%file a.conf
start on startup
exec /bin/true x
%script
ended a "" main exit 0 #> 0 live
#> refused 40 NotExpected
emit startup #> 1 live, turn
turn #> 2 live, turn
#> event starting JOB="a" INSTANCE=""
turn #> 2 live, turn
turn #> 1 live
#> spawn a main "/bin/true" "x"
#>   UPSTART_EVENTS="startup"
#>   UPSTART_JOB="a"
#>   UPSTART_INSTANCE=""
spawned a "" main 100 #> 2 live, turn
#> event started JOB="a" INSTANCE=""
turn #> 1 live, turn
turn #> 1 live, turn
turn #> 0 live
"#;

#[test]
fn worked_rows(rt: HostRuntime) -> Result<(), Fail> {
    check_case(&rt, rt.alloc(), STARTUP)?;
    check_case(&rt, rt.alloc(), REQUESTS)?;
    check_cases(&rt, rt.alloc(), CASES)
}
