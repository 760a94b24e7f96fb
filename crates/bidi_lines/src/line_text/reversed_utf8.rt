// Reverses the characters of UTF-8 in a loop that handles many bytes at once. It decodes no character: the two bytes
// before a byte and the two after it say which byte the reversed text has at the same index from its end.
ghost use Rattle.std.specs.Prelude.{◌≡◌, ℕ, ◌+◌, ◌-◌, ◌<◌, ◌≤◌, nat_lt, length, slice_index, slice_index_or, if◌then◌else◌};
ghost use Rattle.std.specs.List.{list_all};
ghost use Rattle.bidi_lines.specs.ReversedUtf8.{reversed_byte, reversed_byte_at, behind_two};

// The minimum first byte of a character of two, three and four bytes.
const OF_TWO: u8 = 0xC0;

const OF_THREE: u8 = 0xE0;

const OF_FOUR: u8 = 0xF0;

// Returns whether no character has four bytes.
pub(super) fn are_short(bytes: &[u8]) -> bool
    ensures { result ≡ list_all (λ b. nat_lt b 0xF0) bytes.now }
{
    let mut greatest = 0u8;
    for byte in bytes {
        greatest = greatest.max(*byte);
    }
    greatest < OF_FOUR
}

// Returns `held` if the test holds, and `other` otherwise. It has no branch, so a loop chooses for many bytes at
// once.
fn choose(test: bool, held: u8, other: u8) -> u8
    ensures { result ≡ (if test then held else other) }
{
    let mask = 0u8.wrapping_sub(u8::from(test));
    (held & mask) | (other & !mask)
}

// Returns the byte that the reversed text has at the index from its end that `byte` has from the start. It depends on
// the two bytes before `byte`, which are `far` and `near`, and on the two after it, `next` and `later`.
fn reversed_byte(far: u8, near: u8, byte: u8, next: u8, later: u8) -> u8
    ensures { result ≡ reversed_byte far near byte next later }
{
    let by_far = choose(far >= OF_THREE, far, byte);
    let by_near = choose((near >= OF_TWO) & (near < OF_THREE), near, by_far);
    let by_next = choose(byte >= OF_TWO, next, by_near);
    choose(byte >= OF_THREE, later, by_next)
}

// Writes the bytes of a text with its characters in reverse order, all but its first two and its last two.
fn reverse_middle(bytes: &[u8], out: &mut [u8])
    requires same_len { length out.old ≡ length bytes.now }
    requires long { 4 ≤ length bytes.now }
    ensures reversed { (j : ℕ) → 2 ≤ j → j + 2 < length out.old
        → slice_index out.new (length out.old - 1 - j) ≡ reversed_byte_at (behind_two bytes.now) j }
{
    let len = bytes.len();
    for at in 2..len - 2 {
        out[len - 1 - at] = reversed_byte(
            bytes[at - 2],
            bytes[at - 1],
            bytes[at],
            bytes[at + 1],
            bytes[at + 2],
        );
    }
}

// Returns the byte `by` bytes before an index, or 0 if there is none.
fn byte_before(bytes: &[u8], at: usize, by: usize) -> u8
    requires at { at < length bytes.now }
    requires by { by ≤ 2 }
    ensures { result ≡ slice_index_or (behind_two bytes.now) (at + 2 - by) 0 }
{
    match at.checked_sub(by) {
        Some(place) => bytes[place],
        None => 0,
    }
}

// Returns the byte `by` bytes after an index, or 0 if there is none.
fn byte_after(bytes: &[u8], at: usize, by: usize) -> u8
    requires at { at < length bytes.now }
    requires by { by ≤ 2 }
    ensures { result ≡ slice_index_or (behind_two bytes.now) (at + 2 + by) 0 }
{
    match bytes.get(at + by) {
        Some(byte) => *byte,
        None => 0,
    }
}

// Writes what becomes of the bytes from `from` up to `to` when the characters are reversed.
fn reverse_ends(bytes: &[u8], out: &mut [u8], from: usize, to: usize)
    requires same_len { length out.old ≡ length bytes.now }
    requires ordered { from ≤ to }
    requires ends { to ≤ length bytes.now }
    ensures reversed { (j : ℕ) → from ≤ j → j < to
        → slice_index out.new (length out.old - 1 - j) ≡ reversed_byte_at (behind_two bytes.now) j }
    ensures outside_before { (j : ℕ) → j < from → j < length out.old
        → slice_index out.new (length out.old - 1 - j) ≡ slice_index out.old (length out.old - 1 - j) }
    ensures outside_after { (j : ℕ) → to ≤ j → j < length out.old
        → slice_index out.new (length out.old - 1 - j) ≡ slice_index out.old (length out.old - 1 - j) }
{
    let len = bytes.len();
    for at in from..to {
        out[len - 1 - at] = reversed_byte(
            byte_before(bytes, at, 2),
            byte_before(bytes, at, 1),
            bytes[at],
            byte_after(bytes, at, 1),
            byte_after(bytes, at, 2),
        );
    }
}

// Writes the characters of a text in reverse order. No character may have four bytes.
pub(super) fn reverse_text(bytes: &[u8], out: &mut [u8])
    requires { length out.old ≡ length bytes.now }
    ensures { (j : ℕ) → j < length out.old
        → slice_index out.new (length out.old - 1 - j) ≡ reversed_byte_at (behind_two bytes.now) j }
{
    let len = bytes.len();
    if len <= 4 {
        return reverse_ends(bytes, out, 0, len);
    }
    reverse_middle(bytes, out);
    reverse_ends(bytes, out, 0, 2);
    reverse_ends(bytes, out, len - 2, len);
}
