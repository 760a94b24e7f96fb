//! The mirrored partners of characters (L4), as numbers.
ghost use Rattle.std.specs.Prelude.{◌≡◌};
ghost use Rattle.bidi_c.specs.Mirroring.{partner_or_self};

use bidi_numbers::fault::{Fault, check};
use bidi_numbers::texts::{char_of, is_scalar};
use bidi_unicode::mirrored;

/// Returns the mirrored partner of a character, or the character itself if it has none.
///
/// Returns `NotScalar` if the number is not a scalar value.
pub(crate) fn partner_or_self(character: u32) -> Result<usize, Fault>
    ensures { result ≡ partner_or_self character }
{
    check(is_scalar(character), Fault::NotScalar)?;
    let c = char_of(character);
    Ok(mirrored(c).unwrap_or(c) as usize)
}
