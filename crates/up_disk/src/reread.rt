//! Puts a table through its image and back.
ghost use Rattle.std.specs.Prelude.{◌≡◌, IfOk, IfSome};

use std::alloc::{AllocError, Global};
use up_image::{ImageError, Table};

// The table that is read from a table's image; none if it has no image or that can't be read.
#[tactic(auto, using(crate::proofs::Rereading::same_table))]
fn read_again(alloc: Global, table: &Table) -> Result<Option<Table>, AllocError>
    ensures { IfOk result (λ read. IfSome read (λ again. again ≡ table.now)) }
{
    match table.to_bytes(alloc) {
        Ok(image) => match Table::from_bytes(alloc, image.as_slice()) {
            Ok(again) => Ok(Some(again)),
            Err(ImageError::Memory) => Err(AllocError),
            Err(_) => Ok(None),
        },
        Err(ImageError::Memory) => Err(AllocError),
        Err(_) => Ok(None),
    }
}

/// The same table, by way of its image; if the image can't be read, the table itself.
pub(crate) fn reread(alloc: Global, table: Table) -> Result<Table, AllocError>
    ensures { IfOk result (λ same. same ≡ table) }
{
    match read_again(alloc, &table)? {
        Some(again) => {
            drop(table);
            Ok(again)
        }
        None => Ok(table),
    }
}
