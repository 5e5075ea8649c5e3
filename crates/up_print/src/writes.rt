//! Writes output, as far as a writer takes it.
ghost use Rattle.std.specs.Prelude.{◌≡◌, ◌⊎◌, ◌≤◌, true, false, length, take, MatchOption, ⊤};
ghost use Rattle.std.specs.Io.KnownBytes.{Appends, Keeps};
ghost use Rattle.up_model.specs.declared.exit_status.ExitStatus.TheVariants.{Unusable};
ghost use Rattle.up_print.specs.Noting.{has_failed, inner_of};
ghost use Rattle.up_print.specs.Writing.{IsBegun};

use crate::noted::Noted;
use crate::printed::Printed;
use std::io::{ErrorKind, Write};
use up_model::ExitStatus;

// Writes a prefix of these bytes, and returns its length: 0 if the writer was interrupted. None if the writer failed or takes
// no more.
fn write_some<W: Write>(writer: &mut Noted<W>, bytes: &[u8]) -> Option<usize>
    ensures written { MatchOption result (Keeps (W.contents (inner_of writer.old)) (W.contents (inner_of writer.new)))
        (λ count. (count ≤ length bytes.now)
        × Appends (W.contents (inner_of writer.old)) (W.contents (inner_of writer.new)) (take count bytes.now)) }
    ensures failed { MatchOption result (has_failed writer.new ≡ true) (λ _. ⊤) }
{
    match writer.write(bytes) {
        Ok(0) => {
            writer.give_up();
            None
        }
        Ok(count) => Some(count),
        Err(error) => {
            if error.kind() == ErrorKind::Interrupted {
                Some(0)
            } else {
                writer.give_up();
                None
            }
        }
    }
}

// Writes all of these bytes. False if the writer fails or takes no more.
fn write_bytes<W: Write>(writer: &mut Noted<W>, bytes: &[u8]) -> bool
    ensures all { result ≡ true → Appends (W.contents (inner_of writer.old)) (W.contents (inner_of writer.new)) bytes.now }
    ensures failed { result ≡ false → has_failed writer.new ≡ true }
    ensures begun { IsBegun (W.contents (inner_of writer.old)) (W.contents (inner_of writer.new)) bytes.now }
{
    let mut rest = bytes;
    for _ in 0..u64::MAX {
        if rest.is_empty() {
            return true;
        }
        let Some(count) = write_some(writer, rest) else {
            return false;
        };
        rest = &rest[count..];
    }
    writer.give_up();
    false
}

/// Writes the output, and returns the status: `Unusable` if it can't be written in full.
pub fn write_printed<W: Write>(writer: &mut Noted<W>, made: &Printed) -> ExitStatus
    ensures written { ((result ≡ made.now.status)
        × Appends (W.contents (inner_of writer.old)) (W.contents (inner_of writer.new)) made.now.text)
        ⊎ ((result ≡ Unusable) × (has_failed writer.new ≡ true)) }
    ensures status { (result ≡ made.now.status) ⊎ (result ≡ Unusable) }
    ensures begun { IsBegun (W.contents (inner_of writer.old)) (W.contents (inner_of writer.new)) made.now.text }
{
    if write_bytes(writer, made.text.as_slice()) {
        made.status
    } else {
        ExitStatus::Unusable
    }
}
