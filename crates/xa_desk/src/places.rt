//! The places of a table of kept operations: the operation under number k stands at place k - 1.
ghost use Rattle.std.specs.Prelude.{◌≡◌, IfOk, None, replicate};

use crate::operation::Operation;
use std::alloc::{AllocError, Global};

/// A table with no operation at any place.
pub(crate) fn empty_places(
    alloc: Global,
    places: usize,
) -> Result<Vec<Option<Operation>>, AllocError>
    ensures { IfOk result (λ v. v.items ≡ replicate places None) }
{
    vec![in alloc; None; places]
}
