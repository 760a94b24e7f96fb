//! Where the lines of bytes end.
ghost use Rattle.std.specs.Prelude.{◌≡◌, ◌+◌, ◌<◌, ◌≤◌, ◌∷◌, ◌++◌, false, List, ℕ, length, take, drop, slice_index};
ghost use Rattle.bidi_controls.specs.Decoded.{utf8_decoded, utf8_fault, fault_from};
ghost use Rattle.bidi_controls.specs.FileLines.{is_break, break_end, file_lines_of};

use memchr::{memchr2, memrchr2};

/// Returns the index after the line feed, the CR LF or the carriage return at an index.
fn break_end(bytes: &[u8], at: usize) -> usize
    requires within { at < length bytes.now }
    ensures end { result ≡ break_end bytes.now at }
    ensures within { result ≤ length bytes.now }
{
    match &bytes[at..] {
        [b'\r', b'\n', ..] => at + 2,
        _ => at + 1,
    }
}

/// Returns the length in bytes of the first line, with the LF, CR LF or CR that ends it. `bytes` must not be empty.
pub fn first_line_len(bytes: &[u8]) -> usize
    requires { 0 < length bytes.now }
    ensures advances { 0 < result }
    ensures within { result ≤ length bytes.now }
    ensures first { file_lines_of (utf8_decoded bytes.now)
        ≡ utf8_decoded (take result bytes.now) ∷ file_lines_of (utf8_decoded (drop result bytes.now)) }
{
    match memchr2(b'\n', b'\r', bytes) {
        Some(at) => break_end(bytes, at),
        None => bytes.len(),
    }
}

/// Returns the number of lines. A line ends after a LF, a CR LF or a CR, or at the end of the bytes.
pub fn count_lines(bytes: &[u8]) -> usize
    ensures count { result ≡ length (file_lines_of (utf8_decoded bytes.now)) }
    ensures within { result ≤ length bytes.now }
{
    let mut count = 0;
    let mut rest = bytes;
    while !rest.is_empty() {
        rest = &rest[first_line_len(rest)..];
        count += 1;
    }
    count
}

/// Returns the length in bytes of the lines that are complete, whatever follows. A carriage return at the end does not
/// end a line here, since a line feed may follow. After the result, only the last byte can be a line break.
pub fn whole_lines_len(bytes: &[u8]) -> usize
    ensures within { result ≤ length bytes.now }
    ensures cut { (more : List ℕ) → file_lines_of (utf8_decoded (bytes.now ++ more))
        ≡ file_lines_of (utf8_decoded (take result bytes.now)) ++ file_lines_of (utf8_decoded (drop result bytes.now ++ more)) }
    ensures fault { (more : List ℕ) → utf8_fault (bytes.now ++ more)
        ≡ fault_from (utf8_fault (take result bytes.now)) result (drop result bytes.now ++ more) }
    ensures last { (k : ℕ) → result ≤ k → k + 1 < length bytes.now → is_break (slice_index bytes.now k) ≡ false }
{
    let Some((_, front)) = bytes.split_last() else {
        return 0;
    };
    match memrchr2(b'\n', b'\r', front) {
        Some(at) => break_end(bytes, at),
        None => 0,
    }
}
