//! Paths as references of URIs.
ghost use Rattle.std.specs.Prelude.{◌≡◌, ◌++◌, OnOk, string_bytes};
ghost use Rattle.bidi_terminal.specs.Uris.{plain_path, uri_of};

use percent_encoding::{AsciiSet, NON_ALPHANUMERIC, ascii_set, percent_encode};
use std::alloc::AllocError;

/// The ASCII characters that are escaped in a path of a URI: all but letters, digits, `-`, `.`, `_`, `~` and `/`.
const NOT_IN_PATHS: AsciiSet = ascii_set!(
    NON_ALPHANUMERIC
        .remove(b'-')
        .remove(b'.')
        .remove(b'_')
        .remove(b'~')
        .remove(b'/')
);

// Returns a path without the `./` that it may begin with.
fn plain_path(path: &[u8]) -> &[u8]
    ensures { result.now ≡ plain_path path.now }
{
    match path {
        [b'.', b'/', rest @ ..] => rest,
        _ => path,
    }
}

/// Appends a path as a reference of a URI, without the `./` that it may begin with.
///
/// The path need not be UTF-8. A relative path becomes a relative reference. Bytes other than letters, digits, `-`, `.`, `_`, `~` and `/` are
/// written as in `%20`.
pub fn push_uri(out: &mut String, path: &[u8]) -> Result<(), AllocError>
    ensures { OnOk result (string_bytes out.new ≡ string_bytes out.old ++ uri_of path.now) }
{
    percent_encode(plain_path(path), NOT_IN_PATHS).append_to(out)
}
