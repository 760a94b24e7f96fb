//! Whether bytes hold a direction control or mark.
ghost use Rattle.std.specs.Prelude.{◌≡◌};
ghost use Rattle.bidi_controls.specs.ControlBytes.{begins_with_control, holds_control};

use memchr::memchr2;

/// Returns whether bytes begin with the UTF-8 of a direction control or mark.
fn begins_with_control(bytes: &[u8]) -> bool
    ensures { result ≡ begins_with_control bytes.now }
{
    match bytes {
        [0xD8, 0x9C, ..] => true,
        [0xE2, 0x80, third, ..] => matches!(third, 0x8E..=0x8F | 0xAA..=0xAE),
        [0xE2, 0x81, third, ..] => matches!(third, 0xA6..=0xA9),
        _ => false,
    }
}

/// Returns whether bytes hold the UTF-8 of a direction control or mark.
pub fn holds_control(bytes: &[u8]) -> bool
    ensures { result ≡ holds_control bytes.now }
{
    let mut rest = bytes;
    while let Some(at) = memchr2(0xD8, 0xE2, rest) {
        if begins_with_control(&rest[at..]) {
            return true;
        }
        rest = &rest[at + 1..];
    }
    false
}
