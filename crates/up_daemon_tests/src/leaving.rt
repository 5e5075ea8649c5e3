//! A client that can't be read while what it asked for goes on.
use crate::rounds::play;
use crate::scripted::{door, ending_host};
use crate::stage::{Before, make_scene};
use std::test::Fail;
use up_edge::Failure;
use up_model::Process;

// What passes in each round: the first client comes and asks; it can't be read, and is closed; the process ends, the main one is
// started, and nobody is answered; the second client comes, asks and is answered; nothing is left.
const ROUNDS: &str = "\
passes|1 0 0,0 0 1,0 0 0,1 33 0
answer|\0\0\0\x1d\0a start/running, process 100
passes|0 0 0
";

// The first process, that before the main one, ends in the third round. The first client comes in the first round, and the second in the
// fourth. The calls of the door in the first round are two accepts and a read; then come an accept and the read that fails.
#[test]
fn a_start_goes_on_without_its_client(rt: HostRuntime) -> Result<(), Fail> {
    let alloc = rt.alloc();
    let host = ending_host(alloc, &[99, 100], 2, Process::PreStart, &[]);
    let visits = "start,nobody,nobody,nobody,status";
    let door = door(alloc, visits, "", &[Failure::Once(4)]);
    play(make_scene(alloc, Before::Nothing, host, door), ROUNDS)
}
