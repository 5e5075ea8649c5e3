//! The duration of each start of a run, the longest first.
ghost use Rattle.std.specs.Prelude.{◌≡◌, ◌++◌, OnOk, IfOk, length, replicate};
ghost use Rattle.std.specs.Fmt.{decimal};
ghost use Rattle.std.specs.List.{flat_map};
ghost use Rattle.up_chart.specs.Blame.{blame_of, longest_first, number_width, padding, start_line};

use crate::chart::Chart;
use crate::label::Start;
use crate::push::push;
use std::alloc::{AllocError, Global};

fn sort_starts(starts: &mut Vec<Start>) -> Result<(), AllocError>
    ensures { OnOk result (starts.new.items ≡ longest_first starts.old.items) }
{
    starts.sort_by(|start, other| other.took.cmp(&start.took))
}

// The number of digits of the first number, which is the longest.
fn number_width(alloc: Global, starts: &[Start]) -> Result<usize, AllocError>
    ensures { IfOk result (λ width. width ≡ number_width starts.now) }
{
    match starts.first() {
        Some(start) => {
            let digits = start.took.to_string(alloc)?;
            Ok(digits.len())
        }
        None => Ok(0),
    }
}

fn push_padding(text: &mut Vec<u8>, count: usize) -> Result<(), AllocError>
    ensures { OnOk result (text.new.items ≡ text.old.items ++ replicate count 32) }
{
    for _ in 0..count {
        text.push(b' ')?;
    }
    Ok(())
}

#[tactic(auto, unfolding(crate::specs::Blame::start_line))]
fn push_line(text: &mut Vec<u8>, width: usize, start: &Start) -> Result<(), AllocError>
    ensures { OnOk result (text.new.items ≡ text.old.items ++ start_line width start.now) }
{
    let digits = start.took.to_string(*text.allocator())?;
    push_padding(text, width.saturating_sub(digits.len()))?;
    push(text, digits.as_str())?;
    push(text, " ms ")?;
    push(text, start.name.as_str())?;
    push(text, "\n")
}

fn push_lines(text: &mut Vec<u8>, width: usize, starts: &[Start]) -> Result<(), AllocError>
    ensures { OnOk result (text.new.items ≡ text.old.items ++ flat_map (start_line width) starts.now) }
{
    for start in starts {
        push_line(text, width, start)?;
    }
    Ok(())
}

/// The duration of each start of a run in milliseconds, a line for each: the longest first, and equal ones in order of time.
#[tactic(auto, unfolding(crate::specs::Blame::blame_of))]
pub fn blame(alloc: Global, chart: Chart) -> Result<Vec<u8>, AllocError>
    ensures { IfOk result (λ text. text.items ≡ blame_of chart.starts) }
{
    let mut starts = chart.starts.into_vec();
    sort_starts(&mut starts)?;
    let width = number_width(alloc, starts.as_slice())?;
    let mut text = Vec::new(alloc);
    push_lines(&mut text, width, starts.as_slice())?;
    Ok(text)
}
