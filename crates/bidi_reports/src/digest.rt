//! The digest of a line.
ghost use Rattle.std.specs.Prelude.{◌≡◌, IfOk, string_bytes};
ghost use Rattle.bidi_reports.specs.Digests.{line_digest};

use crate::json_text::text_of;
use crate::text::without_end;
use sha2::{Digest, Sha256};
use std::alloc::{AllocError, Global};

/// Returns the digest of a line: the first 32 hexadecimal digits of SHA-256 over its characters in UTF-8, without the
/// line feed, the carriage return or both that end it.
///
/// The same line has the same digest wherever it is in a file. Returns an error if an allocation fails.
#[tactic(auto, unfolding(crate::specs::Digests::line_digest))]
pub fn line_digest(alloc: Global, line: &[char]) -> Result<String, AllocError>
    ensures { IfOk result (λ digest. string_bytes digest ≡ line_digest line.now) }
{
    let text = text_of(alloc, without_end(line))?;
    let digest = Sha256::digest(text.as_bytes());
    hex::encode(alloc, &digest[..16])
}
