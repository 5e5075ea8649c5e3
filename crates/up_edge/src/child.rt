//! The children of a real host.
ghost use Rattle.std.specs.Prelude.{◌≡◌, ◌<◌, ◌≤◌, length, true, IfSome, None};
ghost use Rattle.std.specs.Bool.{OnTrue};
ghost use Rattle.std.specs.List.{All, HoldsAt};
ghost use Rattle.up_edge.specs.Ends.{byte_of, end_of};
ghost use Rattle.up_edge.specs.Looking.{LooksOn};

use std::os::unix::process::ExitStatusExt;
use std::process::{Child, ExitStatus, OpenProcess};
use up_model::{How, Process, Who};

/// The minimum number of children that a look covers, if there are that many.
const LEAST_LOOKS: usize = 16;

/// The number of looks that cover all children, if there are more.
const PARTS: usize = 6;

/// A process that was started and whose end was not reported.
#[derive(Drop)]
pub(crate) struct Running<P: OpenProcess> {
    pub who: Who,
    pub process: Process,
    // the number by which it is signalled
    pub pid: u32,
    pub child: Child<P>,
}

/// The outcome of a look at the children.
pub(crate) enum Look {
    /// The child at the place of the next look has ended this way.
    Ended(How),
    /// No child that was looked at has ended.
    Nothing,
    /// The system refused to report about a child.
    Failed,
}

// A number from 0 to 255, or 0 for any other.
fn byte_of(number: i32) -> u8
    ensures { result ≡ byte_of number }
{
    u8::try_from(number).unwrap_or(0)
}

/// How a process ended: by the code of its exit, or by a signal; an unknown signal is 0.
pub(crate) fn end_of(status: &ExitStatus) -> How
    ensures { result ≡ end_of status.now }
{
    match status.code() {
        Some(code) => How::Exit(byte_of(code)),
        None => match status.signal() {
            Some(signal) => How::Signal(byte_of(signal)),
            None => How::Signal(0),
        },
    }
}

// The end of a look that begins at `next`, exclusive: it covers a sixth of the children, but 16 at least, if there are that many.
fn look_end(count: usize, next: usize) -> usize
    ensures within { result ≤ count }
    ensures further { next < count → next < result }
{
    let end = next.saturating_add(LEAST_LOOKS.max(count.div_ceil(PARTS)));
    end.min(count)
}

fn look_at<P: OpenProcess>(child: &mut Child<P>) -> Look {
    match child.try_wait() {
        Ok(Some(status)) => Look::Ended(end_of(&status)),
        Ok(None) => Look::Nothing,
        Err(_) => Look::Failed,
    }
}

/// Looks at some of the children from `next` on, up to one that has ended; the next look continues from there, and after the last child
/// from the first. So one that ends is found by the sixth look at the latest, and a look takes little time even among many.
pub(crate) fn find_end<P: OpenProcess>(children: &mut [Running<P>], next: &mut usize) -> Look
    ensures { LooksOn result next.old next.new (length children.old) }
{
    let end = look_end(children.len(), *next);
    while *next < end {
        match look_at(&mut children[*next].child) {
            Look::Ended(how) => return Look::Ended(how),
            Look::Nothing => *next += 1,
            Look::Failed => {
                *next += 1;
                return Look::Failed;
            }
        }
    }
    if *next >= children.len() {
        *next = 0;
    }
    Look::Nothing
}

/// Drops the helpers that have ended.
pub(crate) fn reap<P: OpenProcess + Drop>(helpers: &mut Vec<Child<P>>) {
    let mut place = 0;
    while place < helpers.len() {
        match helpers[place].try_wait() {
            Ok(None) => place += 1,
            Ok(Some(_)) | Err(_) => drop(helpers.swap_remove(place)),
        }
    }
}

fn is_same(one: &Who, other: &Who) -> bool
    ensures same { OnTrue result (one.now ≡ other.now) }
    ensures differs { one.now ≡ other.now → result ≡ true }
{
    one.job.as_str() == other.job.as_str() && one.instance.is(other.instance.as_str())
}

fn is_named<P: OpenProcess>(running: &Running<P>, who: &Who, pid: u32) -> bool
    ensures same { OnTrue result ((running.now.who ≡ who.now) × (running.now.pid ≡ pid)) }
    ensures differs { running.now.who ≡ who.now → running.now.pid ≡ pid → result ≡ true }
{
    running.pid == pid && is_same(&running.who, who)
}

pub(crate) fn place_of<P: OpenProcess>(
    children: &[Running<P>],
    who: &Who,
    pid: u32,
) -> Option<usize>
    ensures within { IfSome result (λ place. place < length children.now) }
    ensures child { IfSome result (λ place. HoldsAt (λ running. (running.who ≡ who.now)
        × (running.pid ≡ pid)) children.now place) }
    ensures none { result ≡ None → All (λ running. running.who ≡ who.now → running.pid ≡ pid → ⊥) children.now }
{
    for (place, running) in children.iter().enumerate() {
        if is_named(running, who, pid) {
            return Some(place);
        }
    }
    None
}
