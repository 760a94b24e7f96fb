//! A text that this module implements, read in each way. The expected values are worked by hand.

ghost use Rattle.std.specs.Prelude.{◌≡◌, map};
ghost use Rattle.bidi_text.specs.WideText.{char_of_number, four_each};

use crate::text::{Indexed, IndexedText, TextSource, is_line, whole};
use std::ops::Range;
use std::process::Abort;
use std::test::Fail;

// Numbers as characters, each four code units long. A number that is no character is U+FFFD.
#[derive(Clone, Copy, PartialEq)]
struct WideText<'t> {
    numbers: &'t [u32],
}

// Returns the character of a number, or U+FFFD.
fn char_of_number(number: u32) -> char
    ensures { result ≡ char_of_number number }
{
    char::from_u32(number).unwrap_or(char::REPLACEMENT_CHARACTER)
}

impl<'t> IndexedText for WideText<'t> {
    ghost encoding = { four_each };

    ghost text = { λ t. record { chars = map char_of_number t.numbers.now } };

    fn len(&self) -> usize {
        4 * self.numbers.len()
    }

    fn char_at(&self, index: usize) -> Option<(char, usize)> {
        if index % 4 != 0 {
            return None;
        }
        let number = *self.numbers.get(index / 4)?;
        Some((char_of_number(number), 4))
    }

    fn subrange(self, range: Range<usize>) -> WideText<'t> {
        WideText {
            numbers: &self.numbers[range.start / 4..range.end / 4],
        }
    }

    fn char_len(_c: char) -> usize
        ensures { result ≡ 4 }
    {
        4
    }
}

// Compares all that a text gives with its characters and their indices. Each is four code units long.
fn check<T: TextSource + Drop>(
    rt: &(impl Abort + AllocGlobal),
    text: T,
    chars: &[(usize, char)],
) -> Result<(), Fail> {
    let given: Vec<char> = text.chars().collect(rt.alloc())?;
    assert_eq!(rt; given.len(), chars.len());
    let indices: Vec<(usize, char)> = text.char_indices().collect(rt.alloc())?;
    assert_eq!(rt; indices.as_slice(), chars);
    let lengths: Vec<(usize, usize)> = text.indices_lengths().collect(rt.alloc())?;
    assert_eq!(rt; lengths.len(), chars.len());
    for (k, (at, c)) in chars.iter().enumerate() {
        assert_eq!(rt; given.get(k), Some(c));
        assert_eq!(rt; lengths.get(k), Some(&(*at, 4)));
        assert_eq!(rt; text.char_at(*at), Some((*c, 4)));
        assert_eq!(rt; text.char_at(at.wrapping_add(1)), None);
        assert!(rt; text.is_boundary(*at));
        assert!(rt; !text.is_boundary(at.wrapping_add(2)));
    }
    Ok(())
}

#[test]
fn text_of_its_own(rt: HostRuntime) -> Result<(), Fail> {
    let text = Indexed::new(WideText {
        numbers: &[0x61, 0x5D0, 0xD800, 0x1F600, 0x11_0000],
    });
    assert_eq!(&rt; text.len(), 20);
    assert_eq!(&rt; whole(text), 0..20);
    assert_eq!(&rt; text.char_at(20), None);
    let chars = [
        (0, 'a'),
        (4, '\u{5D0}'),
        (8, '\u{FFFD}'),
        (12, '\u{1F600}'),
        (16, '\u{FFFD}'),
    ];
    check(&rt, text, &chars)?;
    assert!(&rt; !is_line(text, &(4..15)));
    let line = 4..12;
    assert!(&rt; is_line(text, &line));
    check(&rt, text.subrange(line), &[(0, '\u{5D0}'), (4, '\u{FFFD}')])?;
    let none = 20..20;
    assert!(&rt; is_line(text, &none));
    check(&rt, text.subrange(none), &[])
}
