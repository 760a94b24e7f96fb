//! The rules W2 to W7 as steps of a pass that reads each code unit once.

ghost use Rattle.std.specs.Prelude.{◌≡◌};
ghost use Rattle.bidi_base.specs.Classes.{is_l};
ghost use Rattle.bidi_rules.specs.WeakPass.{strengthened, strong_up_to, w7_by, waits, is_separator, joins, next_before, waiting_becomes, resolved};

use bidi_base::char_data::BidiClass::{self, AL, AN, CS, EN, ES, ET, L, ON, R};

/// What is directly before a character, as far as it matters to numbers, separators and terminators.
#[derive(Clone, Copy, Debug)]
pub enum Before {
    /// Nothing that matters to them.
    Other,
    /// A European number.
    European,
    /// Terminators after a European number.
    EuropeanTerminators,
    /// An Arabic number.
    Arabic,
    /// Terminators that wait for a European number.
    Terminators,
    /// A separator after a European number, which waits for another.
    EuropeanSeparator,
    /// A separator after an Arabic number, which waits for another.
    ArabicSeparator,
}

impl Before {
    /// Returns whether what is before waits for the next character to decide its class.
    pub fn waits(self) -> bool
        ensures { result ≡ waits self }
    {
        matches!(
            self,
            Before::Terminators | Before::EuropeanSeparator | Before::ArabicSeparator
        )
    }

    /// Returns whether it is a separator that waits.
    pub fn is_separator(self) -> bool
        ensures { result ≡ is_separator self }
    {
        matches!(self, Before::EuropeanSeparator | Before::ArabicSeparator)
    }

    /// Returns whether a class after W3 joins what waits.
    pub fn is_joined_by(self, class: BidiClass) -> bool
        ensures { result ≡ joins class self }
    {
        match class {
            ET => matches!(self, Before::Terminators),
            _ => false,
        }
    }

    /// Returns what is before the next character, after one of this class.
    pub fn after(self, class: BidiClass) -> Before
        ensures { result ≡ next_before class self }
    {
        match class {
            EN => Before::European,
            AN => Before::Arabic,
            ET => match self {
                Before::European | Before::EuropeanTerminators => Before::EuropeanTerminators,
                _ => Before::Terminators,
            },
            ES => match self {
                Before::European => Before::EuropeanSeparator,
                _ => Before::Other,
            },
            CS => match self {
                Before::European => Before::EuropeanSeparator,
                Before::Arabic => Before::ArabicSeparator,
                _ => Before::Other,
            },
            _ => Before::Other,
        }
    }

    /// Returns the class of the characters that wait, if one of this class follows (W4 to W6).
    pub fn waiting_becomes(self, class: BidiClass) -> BidiClass
        ensures { result ≡ waiting_becomes class self }
    {
        match class {
            EN => match self {
                Before::Terminators | Before::EuropeanSeparator => EN,
                _ => ON,
            },
            AN => match self {
                Before::ArabicSeparator => AN,
                _ => ON,
            },
            _ => ON,
        }
    }

    /// Returns the class of a character that need not wait (W4 to W6).
    pub fn resolved(self, class: BidiClass) -> BidiClass
        ensures { result ≡ resolved class self }
    {
        match class {
            ET => match self {
                Before::European | Before::EuropeanTerminators => EN,
                _ => ON,
            },
            ES | CS => ON,
            other => other,
        }
    }
}

/// Returns a class after W3, if `strong` is the nearest strong class before it.
pub fn strengthened(strong: BidiClass, class: BidiClass) -> BidiClass
    ensures { result ≡ strengthened strong class }
{
    match class {
        EN => if matches!(strong, AL) { AN } else { EN },
        AL => R,
        other => other,
    }
}

/// Returns the nearest strong class up to and including a class, if `strong` is the one before it.
pub fn strong_up_to(strong: BidiClass, class: BidiClass) -> BidiClass
    ensures { result ≡ strong_up_to strong class }
{
    match class {
        L | R | AL => class,
        _ => strong,
    }
}

/// Returns a class after W7, if `strong` is the nearest strong class before it.
pub fn numbered(strong: BidiClass, class: BidiClass) -> BidiClass
    ensures { result ≡ w7_by (is_l strong) class }
{
    match class {
        EN => if matches!(strong, L) { L } else { EN },
        other => other,
    }
}
