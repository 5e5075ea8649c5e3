//! A request that waits for the end of a process.
use crate::rounds::play;
use crate::scripted::{door, late_host};
use crate::stage::{Before, make_scene};
use std::test::Fail;

// What passes in each round: the client comes, and the job's process is started; `stop a` enters, and the process is told to end; it lives
// on; its end is found, and the client is answered; nothing is left.
const ROUNDS: &str = "\
passes|1 0 0,0 0 0,0 0 0,0 19 0
answer|\0\0\0\x0f\0a stop/waiting
passes|0 0 0
";

// Three polls find nothing, and the fourth finds the end.
#[test]
fn a_request_that_waits_is_answered_by_an_end_rounds_later(rt: HostRuntime) -> Result<(), Fail> {
    let alloc = rt.alloc();
    let door = door(alloc, "nothing stop", "", &[]);
    play(
        make_scene(alloc, Before::Go, late_host(alloc, 3, &[]), door),
        ROUNDS,
    )
}
