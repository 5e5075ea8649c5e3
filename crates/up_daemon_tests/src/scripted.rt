//! Hosts and doors that play scripts. Large values are moved on or dropped by a call, here and elsewhere: the prover would go through each field
//! of what a scope drops.
use crate::edge::orders::who_of;
use crate::parts::{both, push};
use std::alloc::{AllocError, Global};
use up_edge::{Failure, Script, ScriptDoor, ScriptHost, Visitor};
use up_model::{How, Process, Who};
use up_text::Items;

/// The end of a process.
pub(crate) type End = (Who, Process, How);

/// Adds polls that find nothing so often, and then the end of a process.
pub(crate) fn push_end(
    alloc: Global,
    ends: &mut Vec<Option<End>>,
    polls: usize,
    process: Process,
    how: How,
) -> Result<(), AllocError> {
    for _ in 0..polls {
        push(ends, None)?;
    }
    let who = who_of(alloc, "")?;
    push(ends, Some((who, process, how)))
}

fn ends_of(alloc: Global, polls: usize, process: Process) -> Result<Vec<Option<End>>, AllocError> {
    let mut ends: Vec<Option<End>> = Vec::new(alloc);
    match push_end(alloc, &mut ends, polls, process, How::Exit(0)) {
        Ok(()) => Ok(ends),
        Err(refused) => {
            drop(ends);
            Err(refused)
        }
    }
}

/// A host whose processes have these numbers, whose polls find these ends, and whose clock has these readings.
pub(crate) fn host_of(
    alloc: Global,
    pids: &[u32],
    ends: Result<Vec<Option<End>>, AllocError>,
    readings: &[u64],
    failures: &[Failure],
) -> Result<ScriptHost, AllocError> {
    let pids_ends = both(Vec::from_slice(alloc, pids), ends);
    let readings_failures = both(
        Vec::from_slice(alloc, readings),
        Vec::from_slice(alloc, failures),
    );
    match both(pids_ends, readings_failures) {
        Ok(((pids, ends), (readings, failures))) => {
            let script = Script {
                pids,
                ends,
                readings,
            };
            Ok(ScriptHost::new(alloc, script, failures))
        }
        Err(refused) => Err(refused),
    }
}

/// A host whose processes have these numbers and live on.
pub(crate) fn host(alloc: Global, pids: &[u32]) -> Result<ScriptHost, AllocError> {
    host_of(alloc, pids, Ok(Vec::new(alloc)), &[], &[])
}

/// A host of which a process ends by 0 after so many polls that find nothing.
pub(crate) fn ending_host(
    alloc: Global,
    pids: &[u32],
    polls: usize,
    process: Process,
    failures: &[Failure],
) -> Result<ScriptHost, AllocError> {
    host_of(alloc, pids, ends_of(alloc, polls, process), &[], failures)
}

/// A host whose first process ends after so many polls that find nothing.
pub(crate) fn late_host(
    alloc: Global,
    polls: usize,
    failures: &[Failure],
) -> Result<ScriptHost, AllocError> {
    ending_host(alloc, &[100], polls, Process::Main, failures)
}

// What a client says at one read. The answer to `reload`, which is refused at once as there is no such job, has 26 bytes; `half` and `rest` are
// that request in two pieces. The length of `too-long` is over the limit, and `end` ends the input. Other words are said as they are, so a word
// that is spelled wrong is heard.
const PIECES: &str = "\
start|\0\0\0\x07\x01\0\0\x01a\0\0
stop|\0\0\0\x07\x02\0\0\x01a\0\0
status|\0\0\0\x07\x04\0\0\x01a\0\0
reload|\0\0\0\x0e\x07\0\0\x08database\0\0
half|\0\0\0\x0e\x07
rest|\0\0\x08database\0\0
reload-configuration|\0\0\0\x06\x08\0\0\0\0\0
too-long|\0\x01\0\x01
end|
";

// What is said by this word.
fn piece_of(word: &str) -> &[u8] {
    for row in PIECES.lines() {
        if let Some((name, piece)) = row.split_once('|') {
            if name == word {
                return piece.as_bytes();
            }
        }
    }
    word.as_bytes()
}

fn push_piece(
    alloc: Global,
    pieces: &mut Vec<Option<Items<u8>>>,
    word: &str,
) -> Result<(), AllocError> {
    if word == "nothing" {
        return push(pieces, None);
    }
    let bytes = Vec::from_slice(alloc, piece_of(word))?;
    push(pieces, Some(Items::new(bytes)))
}

fn push_pieces(
    alloc: Global,
    pieces: &mut Vec<Option<Items<u8>>>,
    words: &str,
) -> Result<(), AllocError> {
    for word in words.split(' ') {
        push_piece(alloc, pieces, word)?;
    }
    Ok(())
}

fn pieces_of(alloc: Global, words: &str) -> Result<Vec<Option<Items<u8>>>, AllocError> {
    let mut pieces: Vec<Option<Items<u8>>> = Vec::new(alloc);
    match push_pieces(alloc, &mut pieces, words) {
        Ok(()) => Ok(pieces),
        Err(refused) => {
            drop(pieces);
            Err(refused)
        }
    }
}

// The numbers among words.
fn numbers_in(alloc: Global, words: &str) -> Result<Vec<usize>, AllocError> {
    let mut numbers: Vec<usize> = Vec::new(alloc);
    for word in words.split(' ') {
        if let Ok(number) = word.parse::<usize>() {
            numbers.push(number)?;
        }
    }
    Ok(numbers)
}

// A client that says these pieces, and whose writes take so many bytes.
fn visitor(alloc: Global, says: &str, takes: &str) -> Result<Visitor, AllocError> {
    match both(pieces_of(alloc, says), numbers_in(alloc, takes)) {
        Ok((pieces, takes)) => Ok(Visitor::new(pieces, takes)),
        Err(refused) => Err(refused),
    }
}

fn push_visit(
    alloc: Global,
    visits: &mut Vec<Option<Visitor>>,
    says: &str,
    takes: &str,
) -> Result<(), AllocError> {
    if says == "nobody" {
        return push(visits, None);
    }
    let visitor = visitor(alloc, says, takes)?;
    push(visits, Some(visitor))
}

/// Adds visits, one an accept, between which are commas: what a client says at each read, and how many bytes its writes take.
pub(crate) fn push_visits(
    alloc: Global,
    visits: &mut Vec<Option<Visitor>>,
    script: &str,
    takes: &str,
) -> Result<(), AllocError> {
    for says in script.split(',') {
        push_visit(alloc, visits, says, takes)?;
    }
    Ok(())
}

/// A door with these visits, unless they couldn't be made.
pub(crate) fn door_of(
    alloc: Global,
    visits: Vec<Option<Visitor>>,
    made: Result<(), AllocError>,
    failures: &[Failure],
) -> Result<ScriptDoor, AllocError> {
    match both(made, Vec::from_slice(alloc, failures)) {
        Ok(((), failures)) => Ok(ScriptDoor::new(alloc, visits, failures)),
        Err(refused) => {
            drop(visits);
            Err(refused)
        }
    }
}

/// A door with these visits, at which calls fail.
pub(crate) fn door(
    alloc: Global,
    script: &str,
    takes: &str,
    failures: &[Failure],
) -> Result<ScriptDoor, AllocError> {
    let mut visits: Vec<Option<Visitor>> = Vec::new(alloc);
    let made = push_visits(alloc, &mut visits, script, takes);
    door_of(alloc, visits, made, failures)
}

/// A door to which nobody comes.
pub(crate) fn no_door(alloc: Global) -> Result<ScriptDoor, AllocError> {
    door(alloc, "nobody", "", &[])
}
