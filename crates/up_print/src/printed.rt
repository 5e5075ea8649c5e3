//! The output of the program, and its exit status.
ghost use Rattle.std.specs.Prelude.{◌≡◌, ◌++◌, IfOk, OnOk, List, codes, ℕ};
ghost use Rattle.std.specs.Fmt.{decimal};
ghost use Rattle.std.specs.List.{flat_map};
ghost use Rattle.up_model.specs.declared.exit_status.ExitStatus.TheVariants.{Unusable};
ghost use Rattle.up_print.specs.Folders.{Explains, fault_line, image_refusal_line, prints, refusal_line, status_of, unusable};

use crate::advice::push_advice;
use crate::push::{push, push_decimal};
use std::alloc::{AllocError, Global};
use up_conf::{Fault, File, Report};
use up_image::{CompileError, ImageError};
use up_model::ExitStatus;
use up_text::Items;

/// The output, and the exit status.
#[derive(Debug, Drop)]
pub struct Printed {
    pub text: Items<u8>,
    pub status: ExitStatus,
}

#[tactic(auto, unfolding(crate::specs::Folders::fault_line))]
fn push_fault(text: &mut Vec<u8>, fault: &Fault) -> Result<(), AllocError>
    ensures { OnOk result (text.new.items ≡ text.old.items ++ fault_line fault.now) }
{
    push(text, fault.path.as_str())?;
    push(text, ":")?;
    push_decimal(text, u64::from(fault.line))?;
    push(text, ": ")?;
    push_decimal(text, u64::from(fault.code.number()))?;
    push(text, " ")?;
    push(text, fault.code.name())?;
    push(text, "\n")
}

pub(crate) fn push_faults(text: &mut Vec<u8>, faults: &[Fault]) -> Result<(), AllocError>
    ensures { OnOk result (text.new.items ≡ text.old.items ++ flat_map fault_line faults.now) }
{
    for fault in faults {
        push_fault(text, fault)?;
    }
    Ok(())
}

// The same, with an explanation of each fault below its line.
pub(crate) fn push_explained(
    text: &mut Vec<u8>,
    files: &[File],
    faults: &[Fault],
) -> Result<(), AllocError>
    ensures { OnOk result ((added : List ℕ) × Explains files.now faults.now added
        × (text.new.items ≡ text.old.items ++ added)) }
{
    for fault in faults {
        push_fault(text, fault)?;
        push_advice(text, files, fault)?;
    }
    Ok(())
}

pub(crate) fn status_of(report: &Report) -> ExitStatus
    ensures { result ≡ status_of report.now }
{
    if report.is_empty() {
        ExitStatus::Done
    } else {
        ExitStatus::Failed
    }
}

// The line for a refusal, by its number and its reason.
fn refusal(alloc: Global, number: u8, reason: &str) -> Result<Printed, AllocError>
    ensures { IfOk result (λ made. made
        ≡ prints (codes "initd: " ++ decimal number ++ codes " " ++ reason.now ++ codes "\n") Unusable) }
{
    let mut text: Vec<u8> = Vec::new(alloc);
    push(&mut text, "initd: ")?;
    push_decimal(&mut text, u64::from(number))?;
    push(&mut text, " ")?;
    push(&mut text, reason)?;
    push(&mut text, "\n")?;
    let text = Items::new(text);
    Ok(Printed {
        text,
        status: ExitStatus::Unusable,
    })
}

#[tactic(auto, unfolding(crate::specs::Folders::refusal_line))]
pub(crate) fn refused(alloc: Global, error: CompileError) -> Result<Printed, AllocError>
    ensures { IfOk result (λ made. made ≡ prints (refusal_line error) Unusable) }
{
    refusal(alloc, error.number(), error.name())
}

/// The line for an image that is refused, or for a table that can't have one.
#[tactic(auto, unfolding(crate::specs::Folders::image_refusal_line))]
pub fn image_refused(alloc: Global, error: ImageError) -> Result<Printed, AllocError>
    ensures { IfOk result (λ made. made ≡ prints (image_refusal_line error) Unusable) }
{
    refusal(alloc, error.number(), error.name())
}

/// The line for a path that can't be read or written.
#[tactic(auto, unfolding(crate::specs::Folders::unusable))]
pub fn cannot_use(alloc: Global, name: &str) -> Result<Printed, AllocError>
    ensures { IfOk result (λ made. made ≡ prints (unusable name.now) Unusable) }
{
    let mut text: Vec<u8> = Vec::new(alloc);
    push(&mut text, "initd: cannot use ")?;
    push(&mut text, name)?;
    push(&mut text, "\n")?;
    let text = Items::new(text);
    Ok(Printed {
        text,
        status: ExitStatus::Unusable,
    })
}
