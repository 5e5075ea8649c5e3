//! Rounds in which clients have the configuration read again.
use crate::parts::{expect, push};
use crate::rounds::play;
use crate::scripted::{door, host};
use crate::stage::{Before, Scene, make_scene, table_of};
use std::alloc::{AllocError, Global};
use std::test::Fail;
use up_edge::{ScriptSource, SourceFault};
use up_model::Loaded;

fn source_of(alloc: Global, load: Option<Loaded>) -> Result<ScriptSource, AllocError> {
    let mut loads: Vec<Option<Loaded>> = Vec::new(alloc);
    match push(&mut loads, load) {
        Ok(()) => Ok(ScriptSource::new(alloc, loads)),
        Err(refused) => {
            drop(loads);
            Err(refused)
        }
    }
}

// A scene whose source gives this.
fn scene_of(alloc: Global, source: ScriptSource) -> Result<Scene, Fail> {
    let door = door(alloc, "reload-configuration", "", &[]);
    match make_scene(alloc, Before::Go, host(alloc, &[100]), door) {
        Ok(mut scene) => {
            scene.source = source;
            Ok(scene)
        }
        Err(fail) => {
            drop(source);
            Err(fail)
        }
    }
}

// What comes of what the source gives at a client's request. The next round empties the record, and makes no call.
fn check(alloc: Global, load: Option<Loaded>, script: &'static str) -> Result<(), Fail> {
    let source = source_of(alloc, load)?;
    play(scene_of(alloc, source), script)
}

const JOBS: &str = "\
passes|1 5 0
answer|\0\0\0\x01\0
loads|1
source faults|0
passes|0 0 0
loads|0
source faults|0
";

const REFUSED: &str = "\
passes|1 30 0
answer|\0\0\0\x1a\x01Configuration refused: 32
loads|1
source faults|0
passes|0 0 0
loads|0
source faults|0
";

const FAILED: &str = "\
passes|1 27 0
answer|\0\0\0\x17\x01Configuration not read
loads|0
source faults|1
passes|0 0 0
loads|0
source faults|1
";

#[test]
fn a_request_to_reload_is_one_call_of_the_source(rt: HostRuntime) -> Result<(), Fail> {
    let alloc = rt.alloc();
    let table = table_of(alloc, "start on go\nexec /bin/e\n")?;
    check(alloc, Some(Loaded::Files(table)), JOBS)?;
    check(alloc, Some(Loaded::Refused(32)), REFUSED)?;
    check(alloc, None, FAILED)
}

#[test]
fn a_fault_of_a_source_has_its_number(_: HostRuntime) -> Result<(), Fail> {
    expect("the number", SourceFault.number() == 63)
}
