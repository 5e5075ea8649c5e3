//! A daemon that begins with an event.
use crate::rounds::play;
use crate::scripted::{host, no_door};
use crate::stage::{Before, make_scene};
use std::test::Fail;

// The inputs of two rounds. The first feeds the event before the clock is read. Its job is started by the third turn, and after three more the
// queue is empty: they finish the event, take up that of the start, and finish this one. The job's process lives on.
const ROUNDS: &str = "\
feeds|emit clock turn turn turn spawned turn turn turn
feeds|clock
";

#[test]
fn a_first_round_feeds_its_first_event_before_the_clock(rt: HostRuntime) -> Result<(), Fail> {
    let alloc = rt.alloc();
    play(
        make_scene(alloc, Before::Begin, host(alloc, &[100]), no_door(alloc)),
        ROUNDS,
    )
}
