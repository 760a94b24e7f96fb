//! What reports call a finding and its control.
ghost use Rattle.std.specs.Prelude.{◌≡◌, ◌++◌, OnOk, string_bytes};
ghost use Rattle.bidi_reports.specs.Words.{code_of, character_of, kind_of, level_of, is_about_line, is_displayed_differently, is_unmatched, help_of, help_uri_of, message_of};

use bidi_controls::control::Control;
use bidi_controls::finding::{Finding, Trouble};
use std::alloc::AllocError;

/// Returns the code point of a control.
pub fn code_of(control: Control) -> &'static str
    ensures { result.now ≡ code_of control }
{
    match control {
        Control::LeftToRightEmbedding => "U+202A",
        Control::RightToLeftEmbedding => "U+202B",
        Control::PopDirectionalFormatting => "U+202C",
        Control::LeftToRightOverride => "U+202D",
        Control::RightToLeftOverride => "U+202E",
        Control::LeftToRightIsolate => "U+2066",
        Control::RightToLeftIsolate => "U+2067",
        Control::FirstStrongIsolate => "U+2068",
        Control::PopDirectionalIsolate => "U+2069",
        Control::LeftToRightMark => "U+200E",
        Control::RightToLeftMark => "U+200F",
        Control::ArabicLetterMark => "U+061C",
    }
}

/// Returns the name of a control in Unicode.
pub fn character_of(control: Control) -> &'static str
    ensures { result.now ≡ character_of control }
{
    match control {
        Control::LeftToRightEmbedding => "LEFT-TO-RIGHT EMBEDDING",
        Control::RightToLeftEmbedding => "RIGHT-TO-LEFT EMBEDDING",
        Control::PopDirectionalFormatting => "POP DIRECTIONAL FORMATTING",
        Control::LeftToRightOverride => "LEFT-TO-RIGHT OVERRIDE",
        Control::RightToLeftOverride => "RIGHT-TO-LEFT OVERRIDE",
        Control::LeftToRightIsolate => "LEFT-TO-RIGHT ISOLATE",
        Control::RightToLeftIsolate => "RIGHT-TO-LEFT ISOLATE",
        Control::FirstStrongIsolate => "FIRST STRONG ISOLATE",
        Control::PopDirectionalIsolate => "POP DIRECTIONAL ISOLATE",
        Control::LeftToRightMark => "LEFT-TO-RIGHT MARK",
        Control::RightToLeftMark => "RIGHT-TO-LEFT MARK",
        Control::ArabicLetterMark => "ARABIC LETTER MARK",
    }
}

/// Returns the kind of a finding.
pub fn kind_of(trouble: Trouble) -> &'static str
    ensures { result.now ≡ kind_of trouble }
{
    match trouble {
        Trouble::NotClosed => "not-closed",
        Trouble::ClosesNothing => "closes-nothing",
        Trouble::Present => "present",
        Trouble::DisplayedDifferently => "displayed-differently",
        Trouble::LettersAlone => "letters-alone",
    }
}

/// Returns the level of a finding in SARIF.
pub fn level_of(trouble: Trouble) -> &'static str
    ensures { result.now ≡ level_of trouble }
{
    match trouble {
        Trouble::NotClosed | Trouble::ClosesNothing | Trouble::LettersAlone => "warning",
        Trouble::Present => "note",
        Trouble::DisplayedDifferently => "error",
    }
}

/// Returns whether a finding is about how its line is displayed.
pub fn is_about_line(trouble: Trouble) -> bool
    ensures { result ≡ is_about_line trouble }
{
    is_displayed_differently(trouble) || matches!(trouble, Trouble::LettersAlone)
}

/// Returns whether a finding says that its line is displayed differently from how it reads.
pub fn is_displayed_differently(trouble: Trouble) -> bool
    ensures { result ≡ is_displayed_differently trouble }
{
    matches!(trouble, Trouble::DisplayedDifferently)
}

/// Returns whether a finding is about a control that has no match on its line.
pub fn is_unmatched(trouble: Trouble) -> bool
    ensures { result ≡ is_unmatched trouble }
{
    matches!(trouble, Trouble::NotClosed | Trouble::ClosesNothing)
}

/// Returns what to do about findings of a kind.
#[tactic(auto, unfolding(crate::specs::Words::help_of))]
pub fn help_of(trouble: Trouble) -> &'static str
    ensures { result.now ≡ help_of trouble }
{
    match trouble {
        Trouble::NotClosed => {
            "Nothing on this line closes the control, so it also moves what follows it. Close an isolate by U+2069, and an embedding or an override by U+202C, or remove the control."
        }
        Trouble::ClosesNothing => {
            "Nothing on this line is open that this control closes. Remove it, or open on this line what it should close."
        }
        Trouble::Present => {
            "bidi check --any and --gate report each direction control and mark. Remove it, or allow it with --allow."
        }
        Trouble::DisplayedDifferently => {
            "A reader of this line sees its ASCII in another order, or mirrored, than a compiler reads it. Remove the controls, or close each directly after the text that it is for."
        }
        Trouble::LettersAlone => {
            "Letters from right to left move ASCII on this line, or mirror it, and no control does. A reader sees its parts in another order than a compiler reads them. Put them on lines of their own, or name them in ASCII."
        }
    }
}

/// Returns the URI of a page that says more about findings of a kind.
#[tactic(auto, unfolding(crate::specs::Words::help_uri_of))]
pub fn help_uri_of(trouble: Trouble) -> &'static str
    ensures { result.now ≡ help_uri_of trouble }
{
    match trouble {
        Trouble::NotClosed | Trouble::ClosesNothing => "https://www.unicode.org/reports/tr9/",
        Trouble::Present | Trouble::DisplayedDifferently | Trouble::LettersAlone => {
            "https://www.unicode.org/reports/tr55/"
        }
    }
}

/// Appends what is found, in words: the control, if there is one, and what is wrong.
pub fn push_message(out: &mut String, finding: &Finding) -> Result<(), AllocError>
    ensures { OnOk result (string_bytes out.new ≡ string_bytes out.old ++ message_of finding.now) }
{
    if let Some(control) = finding.control {
        out.push_str(control.name())?;
        out.push_str(" ")?;
    }
    out.push_str(finding.trouble.text())
}
