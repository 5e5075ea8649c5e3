//! What makes large values out of parts, and drops them where the prover knows of them no more than their types' names.
use std::alloc::AllocError;
use std::test::Fail;

/// Both values, or that memory ran out if one of them was refused. The other is dropped here, where the prover knows of it no more than its
/// type's name.
pub(crate) fn both<A: Drop, B: Drop>(
    first: Result<A, AllocError>,
    second: Result<B, AllocError>,
) -> Result<(A, B), AllocError> {
    let first = first?;
    let second = second?;
    Ok((first, second))
}

/// Adds an item, which is dropped here if memory ran out, for the same reason.
pub(crate) fn push<T: Drop>(items: &mut Vec<T>, item: T) -> Result<(), AllocError> {
    items.push(item)?;
    Ok(())
}

/// Fails with the name of what should hold and doesn't.
pub(crate) fn expect(name: &str, holds: bool) -> Result<(), Fail> {
    if holds {
        return Ok(());
    }
    Err(Fail::from(name))
}
