//! Lists of ranges to which a call appends: a failed allocation leaves what there was.

ghost use Rattle.std.specs.Prelude.{◌≡◌, ◌≤◌, ◌++◌, ◌∷◌, [], length, take, OnOk, OnErr};

use std::alloc::AllocError;
use std::ops::Range;

// Appends a range. If the allocation fails, cuts the list to a length.
pub(crate) fn push_or_cut(
    range: Range<usize>,
    len: usize,
    out: &mut Vec<Range<usize>>,
) -> Result<(), AllocError>
    requires { len ≤ length out.old.items }
    ensures pushed { OnOk result (out.new.items ≡ out.old.items ++ range ∷ []) }
    ensures cut { OnErr result (out.new.items ≡ take len out.old.items) }
{
    if out.push(range).is_err() {
        out.truncate(len);
        return Err(AllocError);
    }
    Ok(())
}
