//! Which calls of the host, the door and the source failed in a round, as comments for readers of the output.
ghost use Rattle.std.specs.Prelude.{◌≡◌, ◌-◌, ◌++◌, not, IfOk, OnOk};
ghost use Rattle.std.specs.Fmt.{decimal};
ghost use Rattle.std.specs.List.{count_by, flat_map, list_any};
ghost use Rattle.up_run.specs.Faults.{are_some, call_name, door_line, fault_count, fault_line, fault_lines, is_last_poll, is_reading, is_refusal, none_failed, number, repeated, tally};

use std::alloc::{AllocError, Global};
use up_edge::{DoorCall, Happened};
use up_model::Input;

/// The calls of a host that failed in a round.
#[derive(Clone, Copy)]
pub(crate) struct HostFaults {
    /// The clock wasn't read.
    clock: bool,
    /// The last look for an end failed.
    poll: bool,
    spawns: u64,
    signals: u64,
}

impl HostFaults {
    pub(crate) fn are_some(&self) -> bool
        ensures { result ≡ are_some self.now }
    {
        self.clock || self.poll || self.spawns > 0 || self.signals > 0
    }
}

fn is_reading(entry: &Happened) -> bool
    ensures { result ≡ is_reading entry.now }
{
    matches!(entry, Happened::Now(_))
}

fn is_last_poll(entry: &Happened) -> bool
    ensures { result ≡ is_last_poll entry.now }
{
    matches!(entry, Happened::Polled(None))
}

#[tactic(auto, unfolding(crate::specs::Faults::is_refusal))]
fn is_refusal(input: &Input) -> bool
    ensures { result ≡ is_refusal input.now }
{
    matches!(input, Input::Refused { who: _, process: _ })
}

// 1 if a call failed, else 0.
fn number(failed: bool) -> u64
    ensures { result ≡ number failed }
{
    if failed { 1 } else { 0 }
}

// How many starts were refused. Each is a call that failed.
#[tactic(auto, using(crate::proofs::Counts::counted_more))]
fn refusals(fed: &[Input]) -> u64
    ensures { result ≡ count_by is_refusal fed.now }
{
    let mut count = 0;
    for input in fed {
        count += number(is_refusal(input));
    }
    count
}

fn has_reading(happened: &[Happened]) -> bool
    ensures { result ≡ list_any is_reading happened.now }
{
    happened.iter().any(|entry| is_reading(entry))
}

// Whether a look found no end, as the last one of a round does.
fn has_last_poll(happened: &[Happened]) -> bool
    ensures { result ≡ list_any is_last_poll happened.now }
{
    happened.iter().any(|entry| is_last_poll(entry))
}

/// The calls that failed in a round with these inputs and this record, `counted` in all. A round reads the clock once and
/// looks for ends until none is found, and each start that failed was fed. The others were signals.
pub(crate) fn host_faults(fed: &[Input], happened: &[Happened], counted: u64) -> HostFaults
    ensures clock { result.clock ≡ not (list_any is_reading happened.now) }
    ensures poll { result.poll ≡ not (list_any is_last_poll happened.now) }
    ensures spawns { result.spawns ≡ count_by is_refusal fed.now }
    ensures signals { result.signals ≡ counted - result.spawns - number result.clock - number result.poll }
{
    let clock = !has_reading(happened);
    let poll = !has_last_poll(happened);
    let spawns = refusals(fed);
    let signals = counted
        .saturating_sub(spawns)
        .saturating_sub(number(clock))
        .saturating_sub(number(poll));
    HostFaults {
        clock,
        poll,
        spawns,
        signals,
    }
}

fn call_name(call: DoorCall) -> &'static str
    ensures { result.now ≡ call_name call }
{
    match call {
        DoorCall::Accept => "accept",
        DoorCall::Read => "read",
        DoorCall::Write => "write",
        DoorCall::Close => "close",
        DoorCall::Silence => "silence",
    }
}

fn push(text: &mut Vec<u8>, more: &str) -> Result<(), AllocError>
    ensures { OnOk result (text.new.items ≡ text.old.items ++ more.now) }
{
    text.extend_from_slice(more.as_bytes())
}

fn push_decimal(text: &mut Vec<u8>, number: u64) -> Result<(), AllocError>
    ensures { OnOk result (text.new.items ≡ text.old.items ++ decimal number) }
{
    let digits = number.to_string(*text.allocator())?;
    push(text, digits.as_str())
}

#[tactic(auto, unfolding(crate::specs::Faults::fault_line))]
fn push_line(text: &mut Vec<u8>, whose: &str, call: &str) -> Result<(), AllocError>
    ensures { OnOk result (text.new.items ≡ text.old.items ++ fault_line whose.now call.now) }
{
    push(text, "# ")?;
    push(text, whose)?;
    push(text, " fault: ")?;
    push(text, call)?;
    push(text, "\n")
}

// The same line for each of `count` calls.
fn push_lines(text: &mut Vec<u8>, whose: &str, call: &str, count: u64) -> Result<(), AllocError>
    ensures { OnOk result (text.new.items
        ≡ text.old.items ++ repeated count (fault_line whose.now call.now)) }
{
    for _ in 0..count {
        push_line(text, whose, call)?;
    }
    Ok(())
}

fn push_door_lines(text: &mut Vec<u8>, calls: &[DoorCall]) -> Result<(), AllocError>
    ensures { OnOk result (text.new.items ≡ text.old.items ++ flat_map door_line calls.now) }
{
    for call in calls {
        push_line(text, "door", call_name(*call))?;
    }
    Ok(())
}

/// A comment for each call that failed in a round.
#[tactic(auto, unfolding(crate::specs::Faults::fault_lines))]
pub(crate) fn fault_lines(
    alloc: Global,
    host: &HostFaults,
    door: &[DoorCall],
    source: u64,
) -> Result<Vec<u8>, AllocError>
    ensures { IfOk result (λ text. text.items ≡ fault_lines host.now door.now source) }
{
    let mut text: Vec<u8> = Vec::new(alloc);
    push_lines(&mut text, "host", "now", number(host.clock))?;
    push_lines(&mut text, "host", "poll", number(host.poll))?;
    push_lines(&mut text, "host", "spawn", host.spawns)?;
    push_lines(&mut text, "host", "signal", host.signals)?;
    push_door_lines(&mut text, door)?;
    push_lines(&mut text, "source", "load", source)?;
    Ok(text)
}

#[tactic(auto, unfolding(crate::specs::Faults::tally))]
fn push_count(text: &mut Vec<u8>, what: &str, count: u64) -> Result<(), AllocError>
    ensures { OnOk result (text.new.items ≡ text.old.items ++ tally what.now count) }
{
    push(text, what)?;
    push_decimal(text, count)
}

fn none_failed(host: u64, door: u64, source: u64) -> bool
    ensures { result ≡ none_failed host door source }
{
    host == 0 && door == 0 && source == 0
}

/// The comment at the end of a run in which calls failed: how many of the host, of the door and of the source.
#[tactic(auto, unfolding(crate::specs::Faults::fault_count))]
pub(crate) fn fault_count(
    alloc: Global,
    host: u64,
    door: u64,
    source: u64,
) -> Result<Vec<u8>, AllocError>
    ensures { IfOk result (λ text. text.items ≡ fault_count host door source) }
{
    let mut text: Vec<u8> = Vec::new(alloc);
    if none_failed(host, door, source) {
        return Ok(text);
    }
    push_count(&mut text, "# host faults: ", host)?;
    push_count(&mut text, ", door faults: ", door)?;
    push_count(&mut text, ", source faults: ", source)?;
    push(&mut text, "\n")?;
    Ok(text)
}
