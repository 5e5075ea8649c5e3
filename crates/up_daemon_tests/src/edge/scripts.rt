//! Hosts and doors that play scripts.
use crate::edge::calls::{play, play_door};
use crate::scripted::{End, door, host_of, push_end};
use std::alloc::{AllocError, Global};
use std::test::Fail;
use up_edge::{DoorFault, Failure, Failures, HostFault, ScriptDoor, ScriptHost};
use up_model::{How, Process};

fn push_ends(alloc: Global, ends: &mut Vec<Option<End>>) -> Result<(), AllocError> {
    push_end(alloc, ends, 0, Process::Main, How::Exit(3))?;
    push_end(alloc, ends, 1, Process::Main, How::Signal(15))
}

// An end, nothing once, and another end.
fn ends(alloc: Global) -> Result<Vec<Option<End>>, AllocError> {
    let mut ends: Vec<Option<End>> = Vec::new(alloc);
    match push_ends(alloc, &mut ends) {
        Ok(()) => Ok(ends),
        Err(refused) => {
            drop(ends);
            Err(refused)
        }
    }
}

// A host with two spawns, those ends and a reading.
fn scripted(alloc: Global, failures: &[Failure]) -> Result<ScriptHost, AllocError> {
    host_of(alloc, &[100, 101], ends(alloc), &[7], failures)
}

fn play_with(
    rt: &HostRuntime,
    host: Result<ScriptHost, AllocError>,
    script: &'static str,
) -> Result<(), Fail> {
    let mut host = host?;
    let played = play(rt, &mut host, script);
    drop(host);
    played
}

const SCRIPT: &str = "\
poll|nothing
spawn / x|100
poll|exit 3
spawn / x|101
poll|nothing
poll|signal 15
spawn / x|fault
signal 15|sent
clock|7
clock|7
entries|9
faults|1
clear|cleared
entries|0
faults|1
";

#[test]
fn a_host_plays_its_script(rt: HostRuntime) -> Result<(), Fail> {
    play_with(&rt, scripted(rt.alloc(), &[]), SCRIPT)
}

const FAILING_POLL: &str = "\
spawn / x|100
poll|fault
poll|exit 3
entries|2
faults|1
";

#[test]
fn an_end_comes_after_a_poll_that_fails(rt: HostRuntime) -> Result<(), Fail> {
    play_with(&rt, scripted(rt.alloc(), &[Failure::Once(1)]), FAILING_POLL)
}

// Whether of four calls in a row these fail.
fn fail_so(failures: &mut Failures, fail: &[bool]) -> bool {
    for fails in fail {
        if failures.next_fails() != *fails {
            return false;
        }
    }
    true
}

fn is_failing(alloc: Global, failure: Failure, fail: &[bool]) -> Result<bool, AllocError> {
    let mut failures = Failures::new(Vec::from_slice(alloc, &[failure])?);
    let fail_so = fail_so(&mut failures, fail);
    drop(failures);
    Ok(fail_so)
}

#[test]
fn a_failure_is_of_one_call_or_of_each_from_it_on(rt: HostRuntime) -> Result<(), Fail> {
    let once = is_failing(rt.alloc(), Failure::Once(1), &[false, true, false, false])?;
    let from = is_failing(rt.alloc(), Failure::From(2), &[false, false, true, true])?;
    assert!(rt; once && from);
    assert!(rt; Failure::From(2).is_failing(3) && !Failure::Once(2).is_failing(3));
    Ok(())
}

#[test]
fn faults_have_their_numbers(rt: HostRuntime) {
    assert!(rt; HostFault.number() == 60 && DoorFault.number() == 62);
}

// A door to which nobody comes, and then one who says nothing, five bytes and the end, and takes two bytes at first.
fn scripted_door(alloc: Global, failures: &[Failure]) -> Result<ScriptDoor, AllocError> {
    door(alloc, "nobody,nothing abcde end", "2", failures)
}

fn play_at(door: Result<ScriptDoor, AllocError>, script: &'static str) -> Result<(), Fail> {
    let mut door = door?;
    let mut buffer = *b"...";
    let played = play_door(&mut door, &mut buffer, script);
    drop(door);
    played
}

const DOOR: &str = "\
accept|nobody
accept|0
accept|nobody
0 read|nothing
buffer|...
0 read|3
buffer|abc
0 read|2
buffer|dec
0 read|0
0 read|nothing
0 write hello|2
0 write llo|3
0 close|closed
0 read|fault
entries|11
faults|1
clear|cleared
entries|0
faults|1
";

#[test]
fn a_door_plays_its_script(rt: HostRuntime) -> Result<(), Fail> {
    play_at(scripted_door(rt.alloc(), &[]), DOOR)
}

const FAILING_CLOSE: &str = "\
accept|nobody
accept|0
0 close|closed
entries|2
faults|1
0 write x|fault
";

#[test]
fn a_close_that_fails_closes(rt: HostRuntime) -> Result<(), Fail> {
    play_at(
        scripted_door(rt.alloc(), &[Failure::Once(2)]),
        FAILING_CLOSE,
    )
}
