//! Two values, each of which may fail for lack of memory.
ghost use Rattle.std.specs.Prelude.{◌≡◌, IfOk, Ok};

use std::alloc::AllocError;

/// Both values, or `AllocError` if either failed. The other is dropped here, where the prover knows no more of it than its type's name: in
/// a function that makes nine values each way out would drop those made so far, field by field.
pub(crate) fn both<A: Drop, B: Drop>(
    first: Result<A, AllocError>,
    second: Result<B, AllocError>,
) -> Result<(A, B), AllocError>
    ensures first { IfOk result (λ pair. first ≡ Ok pair.0) }
    ensures second { IfOk result (λ pair. second ≡ Ok pair.1) }
{
    let first = first?;
    let second = second?;
    Ok((first, second))
}
