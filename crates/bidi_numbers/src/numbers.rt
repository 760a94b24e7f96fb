//! The numbers of classes and split rules.
ghost use Rattle.std.specs.Prelude.{◌≡◌, IfOk, not, length, slice_index, nat_lt};
ghost use Rattle.std.specs.List.{list_all};
ghost use Rattle.std.specs.Result.{result_err};
ghost use Rattle.bidi_numbers.specs.Faults.{fault_unless};
ghost use Rattle.bidi_base.specs.Classes.{class_number};
ghost use Rattle.bidi_numbers.specs.Numbers.{class_numbered, is_class, split_of, is_split};

use crate::fault::{Fault, check};
use bidi_base::char_data::BidiClass;
use bidi_base::classes::CLASS_COUNT;
use bidi_base::search::{Tested, first_passing};
use bidi_base::split_rule::SplitRule;

/// The number of classes.
pub(crate) const CLASSES: u8 = CLASS_COUNT as u8;

/// Returns the number of a class.
pub fn number_of(class: BidiClass) -> u8
    ensures { result ≡ class_number class }
{
    match class {
        BidiClass::L => 0,
        BidiClass::R => 1,
        BidiClass::AL => 2,
        BidiClass::EN => 3,
        BidiClass::ES => 4,
        BidiClass::ET => 5,
        BidiClass::AN => 6,
        BidiClass::CS => 7,
        BidiClass::NSM => 8,
        BidiClass::BN => 9,
        BidiClass::B => 10,
        BidiClass::S => 11,
        BidiClass::WS => 12,
        BidiClass::ON => 13,
        BidiClass::LRE => 14,
        BidiClass::LRO => 15,
        BidiClass::RLE => 16,
        BidiClass::RLO => 17,
        BidiClass::PDF => 18,
        BidiClass::LRI => 19,
        BidiClass::RLI => 20,
        BidiClass::FSI => 21,
        BidiClass::PDI => 22,
    }
}

/// Returns the class with a number. A number above 22 is read as PDI.
#[tactic(auto, unfolding(crate::specs::Numbers::class_numbered))]
pub fn class_of(number: u8) -> BidiClass
    ensures { result ≡ class_numbered number }
{
    match number {
        0 => BidiClass::L,
        1 => BidiClass::R,
        2 => BidiClass::AL,
        3 => BidiClass::EN,
        4 => BidiClass::ES,
        5 => BidiClass::ET,
        6 => BidiClass::AN,
        7 => BidiClass::CS,
        8 => BidiClass::NSM,
        9 => BidiClass::BN,
        10 => BidiClass::B,
        11 => BidiClass::S,
        12 => BidiClass::WS,
        13 => BidiClass::ON,
        14 => BidiClass::LRE,
        15 => BidiClass::LRO,
        16 => BidiClass::RLE,
        17 => BidiClass::RLO,
        18 => BidiClass::PDF,
        19 => BidiClass::LRI,
        20 => BidiClass::RLI,
        21 => BidiClass::FSI,
        _ => BidiClass::PDI,
    }
}

/// Numbers, with a test for those that are not below a limit.
#[derive(Clone, Copy, Debug)]
struct NotBelow<'n> {
    numbers: &'n [u8],
    limit: u8,
}

impl<'n> Tested for NotBelow<'n> {
    ghost count = { λ list. length list.numbers.now };

    ghost passes = { λ list index. not (nat_lt (slice_index list.numbers.now index) list.limit) };

    fn len(self) -> usize {
        self.numbers.len()
    }

    fn passes(self, index: usize) -> bool {
        self.numbers[index] >= self.limit
    }
}

/// Returns whether each number is below a limit. Reads sixteen numbers at a time.
pub fn all_below(numbers: &[u8], limit: u8) -> bool
    ensures { result ≡ list_all (λ n. nat_lt n limit) numbers.now }
{
    let len = numbers.len();
    first_passing(NotBelow { numbers, limit }, 0, 0, len) == len
}

/// Returns `BadClass` unless each number is that of a class. Reads sixteen numbers at a time.
pub fn check_classes(numbers: &[u8]) -> Result<(), Fault>
    ensures { result_err result ≡ fault_unless (list_all is_class numbers.now) Fault.BadClass }
{
    check(all_below(numbers, CLASSES), Fault::BadClass)
}

/// Returns the split rule of a number.
///
/// 0 is none, 1 is `EachSeparator`, and 2 is `CrLfTogether`. Any other number is `BadSplit`.
pub fn split_rule(number: u8) -> Result<Option<SplitRule>, Fault>
    ensures fault { result_err result ≡ fault_unless (is_split number) Fault.BadSplit }
    ensures rule { IfOk result (λ rule. rule ≡ split_of number) }
{
    match number {
        0 => Ok(None),
        1 => Ok(Some(SplitRule::EachSeparator)),
        2 => Ok(Some(SplitRule::CrLfTogether)),
        _ => Err(Fault::BadSplit),
    }
}
