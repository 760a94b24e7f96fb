//! The base level that an argument names.
use bidi_base::level::{LTR_LEVEL, Level, RTL_LEVEL};

/// A base level, as an argument names it.
#[derive(Clone, Copy, Debug, PartialEq)]
pub enum Base {
    /// None: each paragraph gets its level from its characters (P2, P3).
    Auto,
    /// Left to right, level 0.
    Ltr,
    /// Right to left, level 1.
    Rtl,
}

impl Base {
    ghost use Rattle.std.specs.Prelude.{◌≡◌};
    ghost use Rattle.bidi_terminal.specs.Bases.{base_named, level_of_base};

    /// Returns the base level that an argument names: `auto`, `ltr` or `rtl`. Returns `None` for any other argument.
    pub fn parse(word: &str) -> Option<Base>
        ensures { result ≡ base_named word.now }
    {
        match word {
            "auto" => Some(Base::Auto),
            "ltr" => Some(Base::Ltr),
            "rtl" => Some(Base::Rtl),
            _ => None,
        }
    }

    /// Returns the base level, or `None` for `Auto`.
    pub fn level(self) -> Option<Level>
        ensures { result ≡ level_of_base self }
    {
        match self {
            Base::Auto => None,
            Base::Ltr => Some(LTR_LEVEL),
            Base::Rtl => Some(RTL_LEVEL),
        }
    }
}
