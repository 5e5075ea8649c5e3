//! What an engine tells of its instances between two steps.
use crate::engine::{Case, Untried, engine, inputs};
use std::alloc::Global;
use std::test::Fail;
use up_engine::Engine;
use up_text::Env;

// Leaves the job `a` starting, as it was started and stopped.
static HURRIED: Case = Case {
    name: "status_and_list",
    base: "",
    bundle: r#"%file a.conf
start on go
exec /bin/d
%script
request 4 start --no-wait a
request 7 stop --no-wait a
"#,
};

fn hurry(alloc: Global, engine: &mut Engine) -> Result<(), Untried> {
    match engine.run(inputs(alloc, &HURRIED)?) {
        Ok(run) => {
            let down = run.down;
            drop(run);
            if down { Err(Untried) } else { Ok(()) }
        }
        Err(_) => Err(Untried),
    }
}

// Whether the engine tells this of the job, alone and in its list.
fn tells(alloc: Global, engine: &Engine, wanted: &str) -> (bool, bool) {
    let is_status = match engine.status("a", &Env::new(alloc)) {
        Ok(answer) => answer.ok && answer.text.as_str() == wanted,
        Err(_) => false,
    };
    let is_list = match engine.list() {
        Ok(text) => text.as_str() == wanted,
        Err(_) => false,
    };
    (is_status, is_list)
}

fn told(alloc: Global, engine: &mut Engine) -> Result<(bool, bool), Untried> {
    hurry(alloc, engine)?;
    Ok(tells(alloc, engine, "a stop/starting"))
}

fn told_of_one(alloc: Global) -> Result<(bool, bool), Untried> {
    let mut engine = engine(alloc, &HURRIED)?;
    let told = told(alloc, &mut engine);
    drop(engine);
    told
}

#[test]
fn status_and_list(rt: HostRuntime) -> Result<(), Fail> {
    assert_eq!(rt;
        told_of_one(rt.alloc())?,
        (true, true),
        "of `status` and of `list`"
    );
    Ok(())
}
