//! Rounds with clients at a door that plays a script.
use crate::parts::expect;
use crate::rounds::passes;
use crate::scripted::{door, door_of, host, push_visits};
use crate::stage::{Before, make_scene};
use std::alloc::{AllocError, Global};
use std::test::Fail;
use up_edge::{ScriptDoor, Visitor};

// In each row what one client says, how many bytes its writes take, and what passes in each round: clients that come, bytes that are written
// and clients that are closed.
const ROWS: &str = "\
# A request is answered in its round.
reload||1 26 0,0 0 0
# Half a frame waits for the rest.
half nothing rest||1 0 0,0 0 0,0 26 0
# A frame whose length is over the limit closes its client.
too-long||1 0 1,0 0 0
# An end of input closes its client.
end||1 0 1,0 0 0
# Bytes wait for a client that does not read.
reload|0 0 20|1 0 0,0 0 0,0 20 0,0 6 0,0 0 0
# A client that goes while bytes wait loses them.
reload end|0|1 0 0,0 0 1,0 0 0
";

fn check(alloc: Global, door: Result<ScriptDoor, AllocError>, told: &str) -> Result<bool, Fail> {
    passes(
        make_scene(alloc, Before::Go, host(alloc, &[100]), door),
        told,
    )
}

fn holds(alloc: Global, row: &str) -> Result<bool, Fail> {
    let Some((says, rest)) = row.split_once('|') else {
        return Ok(row.starts_with('#'));
    };
    match rest.split_once('|') {
        Some((takes, told)) => check(alloc, door(alloc, says, takes, &[]), told),
        None => Ok(false),
    }
}

fn check_rows(alloc: Global, rows: &'static str) -> Result<(), Fail> {
    for row in rows.lines() {
        if !holds(alloc, row)? {
            return Err(Fail::from(row));
        }
    }
    Ok(())
}

#[test]
fn one_client_is_read_answered_and_closed(rt: HostRuntime) -> Result<(), Fail> {
    check_rows(rt.alloc(), ROWS)
}

fn push_many(alloc: Global, visits: &mut Vec<Option<Visitor>>) -> Result<(), AllocError> {
    push_visits(alloc, visits, "nothing end", "")?;
    for _ in 0..64u32 {
        push_visits(alloc, visits, "reload", "")?;
    }
    Ok(())
}

// A door to which sixty-five clients come, of whom the first goes in the second round.
fn many_clients(alloc: Global) -> Result<ScriptDoor, AllocError> {
    let mut visits: Vec<Option<Visitor>> = Vec::new(alloc);
    let made = push_many(alloc, &mut visits);
    door_of(alloc, visits, made, &[])
}

// The first round answers 63 of 64 clients, with 26 bytes each.
const MANY: &str = "64 1638 0,0 0 1,1 26 0";

#[test]
fn the_sixty_fifth_client_waits_until_one_goes(rt: HostRuntime) -> Result<(), Fail> {
    expect(MANY, check(rt.alloc(), many_clients(rt.alloc()), MANY)?)
}
