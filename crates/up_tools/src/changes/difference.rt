//! Differences between lists of jobs, and their printed lines.
ghost use Rattle.std.specs.Prelude.{◌≡◌, ◌++◌, codes, OnOk};
ghost use Rattle.std.specs.List.{flat_map};
ghost use Rattle.up_conf.specs.Order.{in_order};
ghost use Rattle.up_tools.specs.Changes.{change_text, line_of, listed};
ghost use Rattle.up_tools.specs.Parts.{name_of};

use crate::changes::part::{Part, name_of};
use crate::changes::push::push;
use std::alloc::AllocError;
use up_text::{Items, Text};

/// A change of a job.
#[derive(Drop)]
pub enum Change {
    Added,
    Removed,
    /// It differs in these parts.
    Changed(Items<Part>),
}

/// A change of the job with this name.
#[derive(Drop)]
pub struct Difference {
    pub name: Text,
    pub change: Change,
}

pub(crate) fn sort(differences: &mut Vec<Difference>) -> Result<(), AllocError>
    ensures { OnOk result (differences.new.items
        ≡ in_order (λ difference. difference.name) differences.old.items) }
{
    differences.sort_by(|difference, other| difference.name.as_str().cmp(other.name.as_str()))
}

// Appends a name after another one, with a comma.
fn push_next(text: &mut Vec<u8>, part: Part) -> Result<(), AllocError>
    ensures { OnOk result (text.new.items ≡ text.old.items ++ (codes ", " ++ name_of part)) }
{
    push(text, ", ")?;
    push(text, name_of(part))
}

fn push_rest(text: &mut Vec<u8>, parts: &[Part]) -> Result<(), AllocError>
    ensures { OnOk result (text.new.items
        ≡ text.old.items ++ flat_map (λ part. codes ", " ++ name_of part) parts.now) }
{
    for part in parts {
        push_next(text, *part)?;
    }
    Ok(())
}

// Appends the names of parts, with commas between them.
fn push_listed(text: &mut Vec<u8>, parts: &[Part]) -> Result<(), AllocError>
    ensures { OnOk result (text.new.items ≡ text.old.items ++ listed parts.now) }
{
    match parts {
        [] => Ok(()),
        [part, rest @ ..] => {
            push(text, name_of(*part))?;
            push_rest(text, rest)
        }
    }
}

fn push_change(text: &mut Vec<u8>, change: &Change) -> Result<(), AllocError>
    ensures { OnOk result (text.new.items ≡ text.old.items ++ change_text change.now) }
{
    match change {
        Change::Added => push(text, "added"),
        Change::Removed => push(text, "removed"),
        Change::Changed(parts) => {
            push(text, "changed: ")?;
            push_listed(text, parts.as_slice())
        }
    }
}

#[tactic(auto, unfolding(crate::specs::Changes::line_of))]
fn push_line(text: &mut Vec<u8>, difference: &Difference) -> Result<(), AllocError>
    ensures { OnOk result (text.new.items ≡ text.old.items ++ line_of difference.now) }
{
    push(text, difference.name.as_str())?;
    push(text, ": ")?;
    push_change(text, &difference.change)?;
    push(text, "\n")
}

pub(crate) fn push_lines(text: &mut Vec<u8>, differences: &[Difference]) -> Result<(), AllocError>
    ensures { OnOk result (text.new.items ≡ text.old.items ++ flat_map line_of differences.now) }
{
    for difference in differences {
        push_line(text, difference)?;
    }
    Ok(())
}
