//! The numbers of base levels.
ghost use Rattle.std.specs.Prelude.{◌≡◌, IfOk};
ghost use Rattle.std.specs.Result.{result_err};
ghost use Rattle.bidi_calls.specs.BaseNumbers.{base_of, is_base};
ghost use Rattle.bidi_numbers.specs.Faults.{fault_unless};
ghost use Rattle.unicode_bidi.specs.Base.{HasLowLevel};

use bidi_numbers::fault::Fault;
use unicode_bidi::{Base, Level, RTL_LEVEL};

/// The number for a level by the characters.
const AUTO: u8 = 255;

/// The same, with its level 0 for a paragraph in which no character decides in the name.
const AUTO_LTR: u8 = 254;

/// The number for a level by the characters, with level 1 for a paragraph in which no character decides.
const AUTO_RTL: u8 = 253;

/// Returns the base of a number.
///
/// A number up to 125 is the level of every paragraph (HL1). With 255 and 254 each paragraph gets its level from its
/// characters (P2, P3), which is 0 if none decides. With 253 it is 1 then. Any other number is `BadBaseLevel`.
pub fn base_numbered(number: u8) -> Result<Base, Fault>
    ensures fault { result_err result ≡ fault_unless (is_base number) Fault.BadBaseLevel }
    ensures base { IfOk result (λ base. base ≡ base_of number) }
    ensures low { IfOk result HasLowLevel }
{
    match number {
        AUTO | AUTO_LTR => Ok(Base::Auto),
        AUTO_RTL => Ok(Base::AutoOr(RTL_LEVEL)),
        _ => match Level::new_explicit(number) {
            Ok(level) => Ok(Base::Level(level)),
            Err(_) => Err(Fault::BadBaseLevel),
        },
    }
}
