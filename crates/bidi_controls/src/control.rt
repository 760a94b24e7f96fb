//! The direction controls and marks.
ghost use Rattle.std.specs.Prelude.{◌≡◌};
ghost use Rattle.bidi_controls.specs.Controls.{is_control_or_mark as is_control_or_mark_of};

use bidi_base::char_data::BidiClass;
use bidi_base::data_source::BidiDataSource;
use bidi_base::format_chars::{ALM, LRM, RLM};

/// An invisible character that sets directions: one of the nine direction controls, or one of the three marks.
#[derive(Clone, Copy, Debug)]
pub enum Control {
    /// LRE, U+202A.
    LeftToRightEmbedding,
    /// RLE, U+202B.
    RightToLeftEmbedding,
    /// PDF, U+202C.
    PopDirectionalFormatting,
    /// LRO, U+202D.
    LeftToRightOverride,
    /// RLO, U+202E.
    RightToLeftOverride,
    /// LRI, U+2066.
    LeftToRightIsolate,
    /// RLI, U+2067.
    RightToLeftIsolate,
    /// FSI, U+2068.
    FirstStrongIsolate,
    /// PDI, U+2069.
    PopDirectionalIsolate,
    /// LRM, U+200E.
    LeftToRightMark,
    /// RLM, U+200F.
    RightToLeftMark,
    /// ALM, U+061C.
    ArabicLetterMark,
}

impl Control {
    ghost use Rattle.bidi_controls.specs.Controls.{mark_of, control_of, control_name, control_short};

    /// Returns the mark that a character is, or `None` if it is not a mark.
    fn mark(c: char) -> Option<Control>
        ensures { result ≡ mark_of c }
    {
        match c {
            LRM => Some(Control::LeftToRightMark),
            RLM => Some(Control::RightToLeftMark),
            ALM => Some(Control::ArabicLetterMark),
            _ => None,
        }
    }

    /// Returns the control or the mark that a character of this class is, or `None` if it is neither.
    ///
    /// The class alone decides among the nine controls, since Unicode has one character of each class.
    pub fn of(class: BidiClass, c: char) -> Option<Control>
        ensures { result ≡ control_of class c }
    {
        match class {
            BidiClass::LRE => Some(Control::LeftToRightEmbedding),
            BidiClass::RLE => Some(Control::RightToLeftEmbedding),
            BidiClass::PDF => Some(Control::PopDirectionalFormatting),
            BidiClass::LRO => Some(Control::LeftToRightOverride),
            BidiClass::RLO => Some(Control::RightToLeftOverride),
            BidiClass::LRI => Some(Control::LeftToRightIsolate),
            BidiClass::RLI => Some(Control::RightToLeftIsolate),
            BidiClass::FSI => Some(Control::FirstStrongIsolate),
            BidiClass::PDI => Some(Control::PopDirectionalIsolate),
            _ => Control::mark(c),
        }
    }

    /// Returns its code point and its name.
    pub fn name(self) -> &'static str
        ensures { result.now ≡ control_name self }
    {
        match self {
            Control::LeftToRightEmbedding => "U+202A LEFT-TO-RIGHT EMBEDDING",
            Control::RightToLeftEmbedding => "U+202B RIGHT-TO-LEFT EMBEDDING",
            Control::PopDirectionalFormatting => "U+202C POP DIRECTIONAL FORMATTING",
            Control::LeftToRightOverride => "U+202D LEFT-TO-RIGHT OVERRIDE",
            Control::RightToLeftOverride => "U+202E RIGHT-TO-LEFT OVERRIDE",
            Control::LeftToRightIsolate => "U+2066 LEFT-TO-RIGHT ISOLATE",
            Control::RightToLeftIsolate => "U+2067 RIGHT-TO-LEFT ISOLATE",
            Control::FirstStrongIsolate => "U+2068 FIRST STRONG ISOLATE",
            Control::PopDirectionalIsolate => "U+2069 POP DIRECTIONAL ISOLATE",
            Control::LeftToRightMark => "U+200E LEFT-TO-RIGHT MARK",
            Control::RightToLeftMark => "U+200F RIGHT-TO-LEFT MARK",
            Control::ArabicLetterMark => "U+061C ARABIC LETTER MARK",
        }
    }

    /// Returns its short name, as UAX #9 has it.
    pub fn short_name(self) -> &'static str
        ensures { result.now ≡ control_short self }
    {
        match self {
            Control::LeftToRightEmbedding => "LRE",
            Control::RightToLeftEmbedding => "RLE",
            Control::PopDirectionalFormatting => "PDF",
            Control::LeftToRightOverride => "LRO",
            Control::RightToLeftOverride => "RLO",
            Control::LeftToRightIsolate => "LRI",
            Control::RightToLeftIsolate => "RLI",
            Control::FirstStrongIsolate => "FSI",
            Control::PopDirectionalIsolate => "PDI",
            Control::LeftToRightMark => "LRM",
            Control::RightToLeftMark => "RLM",
            Control::ArabicLetterMark => "ALM",
        }
    }
}

/// Returns whether a character is a direction control or a mark.
pub(crate) fn is_control_or_mark<D: BidiDataSource>(data_source: &D, c: char) -> bool
    ensures { result ≡ is_control_or_mark_of (D.source data_source.now) c }
{
    Control::of(data_source.bidi_class(c), c).is_some()
}
