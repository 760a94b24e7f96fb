//! The bytes of a file, read in pieces.
ghost use Rattle.std.specs.Prelude.{◌≡◌, ◌≤◌, ◌++◌, take, drop, length, vec_len, max, nat_lt, IfOk, IfSome, OnOk};
ghost use Rattle.std.specs.Io.{StartsWith};

use std::io::{self, Read};

/// How many bytes are read at once, if no line is longer.
const PIECE: usize = 256 * 1024;

/// Appends the next bytes of a file. Returns whether these are the last.
///
/// Reads up to 256 KiB, or up to as many bytes as `bytes` already has if these are more, so that a long line is read in
/// few pieces. Returns an error if a read or an allocation fails. Then `bytes` still begins with what it had before.
pub fn read_piece<R: Read>(reader: &mut R, bytes: &mut Vec<u8>) -> io::Result<bool>
    ensures appends { StartsWith bytes.new.items bytes.old.items }
    ensures piece { OnOk result (IfSome (R.remaining reader.old)
        (λ all. bytes.new.items ≡ bytes.old.items ++ take (max PIECE (vec_len bytes.old)) all)) }
    ensures end { IfOk result (λ at_end. IfSome (R.remaining reader.old)
        (λ all. at_end ≡ nat_lt (length all) (max PIECE (vec_len bytes.old)))) }
{
    let most = PIECE.max(bytes.len());
    let len = reader.take(most as u64).read_to_end(bytes)?;
    Ok(len < most)
}

/// Deletes the first `len` bytes. `bytes` must have at least `len`.
pub fn drop_front(bytes: &mut Vec<u8>, len: usize)
    requires { len ≤ vec_len bytes.old }
    ensures { bytes.new.items ≡ drop len bytes.old.items }
{
    let left = bytes.len() - len;
    bytes.copy_within(len.., 0);
    bytes.truncate(left);
}
