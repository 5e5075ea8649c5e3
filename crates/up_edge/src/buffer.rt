//! Bytes that go into a buffer and into a record.
ghost use Rattle.std.specs.Prelude.{◌≡◌, ◌≤◌, ◌++◌, length, take, drop, IfOk, replicate};

use std::alloc::{AllocError, Global};

/// Copies the bytes to the start of the buffer.
pub(crate) fn fill(buffer: &mut [u8], bytes: &[u8])
    requires { length bytes.now ≤ length buffer.old }
    ensures { take (length bytes.now) buffer.new ≡ bytes.now }
{
    buffer[..bytes.len()].copy_from_slice(bytes);
}

pub(crate) fn zeros(alloc: Global, count: usize) -> Result<Vec<u8>, AllocError>
    ensures { IfOk result (λ bytes. length bytes.items ≡ count) }
{
    let bytes = Vec::from_elem(alloc, 0u8, count)?;
    Ok(bytes)
}

pub(crate) fn copy_of(alloc: Global, bytes: &[u8]) -> Result<Vec<u8>, AllocError>
    ensures { IfOk result (λ copied. copied.items ≡ bytes.now) }
{
    let copied = bytes.to_vec(alloc)?;
    Ok(copied)
}
