//! Lists of sessions, in which a core notes what the entries that it holds say.
ghost use Rattle.std.specs.Prelude.{◌≡◌, ◌≤◌, [], IfOk, vec_capacity};

use std::alloc::{AllocError, Global};

/// Two empty lists of sessions, each with room for this many.
pub fn two_lists(alloc: Global, count: usize) -> Result<(Vec<u32>, Vec<u32>), AllocError>
    ensures first { IfOk result (λ r. (r.0.items ≡ []) × (count ≤ vec_capacity r.0)) }
    ensures second { IfOk result (λ r. (r.1.items ≡ []) × (count ≤ vec_capacity r.1)) }
{
    let first = Vec::with_capacity(alloc, count)?;
    Ok((first, Vec::with_capacity(alloc, count)?))
}
