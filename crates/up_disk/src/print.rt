//! Prints on standard output.
ghost use Rattle.std.specs.Prelude.{◌≡◌, IfOk, Ok};
ghost use Rattle.up_disk.specs.Disk.{EndsWith, HasStatus};

use std::alloc::AllocError;
use std::io;
use std::io::{BufWriter, Write};
use up_model::ExitStatus;
use up_print::{Noted, Printed, write_printed};

/// Prints on standard output, and returns the status: `Unusable` if it can't be written, `Memory` if out of memory for the output.
/// An error is that of standard output, or out of memory for its buffer.
pub fn print(
    rt: &(impl Print + AllocGlobal),
    made: Result<Printed, AllocError>,
) -> io::Result<ExitStatus>
    ensures status { IfOk result (HasStatus made) }
    ensures ends { IfOk result (EndsWith (λ found. made ≡ Ok found)) }
{
    match made {
        Ok(made) => {
            let mut writer = Noted::new(BufWriter::new(rt.alloc(), io::writer(rt))?);
            let status = write_printed(&mut writer, &made);
            writer.flush()?;
            Ok(status)
        }
        Err(error) => Ok(ExitStatus::from(error)),
    }
}
