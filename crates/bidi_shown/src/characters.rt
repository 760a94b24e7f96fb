//! Texts and their characters.
ghost use Rattle.std.specs.Prelude.{◌≡◌, ◌++◌, flat_map, encode_utf8, IfOk, OnOk, string_bytes};
ghost use Rattle.std.specs.Str.{chars};

use std::alloc::{AllocError, Global};

/// Appends characters unchanged.
pub fn push_chars(out: &mut String, chars: &[char]) -> Result<(), AllocError>
    ensures { OnOk result (string_bytes out.new ≡ string_bytes out.old ++ flat_map encode_utf8 chars.now) }
{
    for c in chars {
        out.push(*c)?;
    }
    Ok(())
}

/// Returns the characters of a text.
pub fn chars_of(alloc: Global, text: &str) -> Result<Vec<char>, AllocError>
    ensures { IfOk result (λ v. v.items ≡ chars text.now) }
{
    text.chars().collect(alloc)
}
