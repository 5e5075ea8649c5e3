//! Rounds over doors that fail, and over a host that fails while clients are served.
use crate::rounds::come_to;
use crate::scripted::{door, host, late_host};
use crate::stage::{Before, make_scene};
use std::alloc::{AllocError, Global};
use std::test::Fail;
use up_edge::{Failure, ScriptDoor};

// Two clients of whom each asks once; the second goes then. Some calls of the door fail.
fn two_clients(alloc: Global, failures: &[Failure]) -> Result<ScriptDoor, AllocError> {
    door(alloc, "reload,reload end", "", failures)
}

fn is_so(alloc: Global, failure: Failure, row: &str, faults: &'static str) -> Result<bool, Fail> {
    let door = two_clients(alloc, &[failure]);
    come_to(
        make_scene(alloc, Before::Go, host(alloc, &[100]), door),
        row,
        faults,
    )
}

// What passes in six rounds if one call fails. The first round has three accepts, two reads and two writes; the second an accept, two reads
// and the close of the client that goes; the third an accept and a read. A close that fails isn't recorded.
const ONCE: &str = "\
six pass|2 52 1
six pass|2 52 1
six pass|2 52 1
six pass|2 26 2
six pass|2 26 1
six pass|2 26 2
six pass|2 26 1
six pass|2 52 1
six pass|2 52 2
six pass|2 52 1
six pass|2 52 0
six pass|2 52 1
six pass|2 52 2
";

#[test]
fn each_call_of_a_door_fails_once(rt: HostRuntime) -> Result<(), Fail> {
    let mut call = 0u64;
    for row in ONCE.lines() {
        if !is_so(rt.alloc(), Failure::Once(call), row, "door faults|1")? {
            return Err(Fail::from(call));
        }
        call = call.saturating_add(1);
    }
    Ok(())
}

// What passes if that call and all after it fail.
const FOR_EVER: &str = "\
six pass|0 0 0
six pass|1 0 0
six pass|2 0 0
six pass|2 0 0
six pass|2 0 0
six pass|2 0 0
six pass|2 26 0
six pass|2 52 0
six pass|2 52 0
six pass|2 52 0
six pass|2 52 0
six pass|2 52 1
";

#[test]
fn each_call_of_a_door_fails_for_ever(rt: HostRuntime) -> Result<(), Fail> {
    let mut call = 0u64;
    for row in FOR_EVER.lines() {
        if !is_so(rt.alloc(), Failure::From(call), row, "door faults|many")? {
            return Err(Fail::from(call));
        }
        call = call.saturating_add(1);
    }
    Ok(())
}

// Whether all passes beside a host that fails, and a job that was started.
fn are_served(alloc: Global, failure: Failure, faults: &'static str) -> Result<bool, Fail> {
    let host = late_host(alloc, 0, &[failure]);
    come_to(
        make_scene(alloc, Before::Go, host, two_clients(alloc, &[])),
        "six pass|2 52 1",
        faults,
    )
}

// Whatever call of the host fails, both clients are answered, and the one that goes is closed.
#[test]
fn clients_are_served_beside_a_host_that_fails(rt: HostRuntime) -> Result<(), Fail> {
    for call in 0..12u64 {
        let once = are_served(rt.alloc(), Failure::Once(call), "host faults|1")?;
        let for_ever = are_served(rt.alloc(), Failure::From(call), "host faults|any")?;
        if !once || !for_ever {
            return Err(Fail::from(call));
        }
    }
    Ok(())
}
