//! What the options of `show` ask for.
ghost use Rattle.std.specs.Prelude.{◌≡◌};
ghost use Rattle.bidi_arguments.specs.Shows.{moves_named, mirror_named, controls_named, widths_named, ambiguous_named, show_setting_named, with_base, with_width, with_moves, with_mirror, with_controls, with_widths, with_ambiguous, with_show_setting};

use crate::refusal::{Choice, Refusal, Subcommand, Word};
use bidi_display::options::Moves;
use bidi_shown::view::{View, Widths};
use bidi_terminal::{Base, parse_number};

/// Returns what L2 moves as a whole, as an argument names it. Returns `None` for any other argument.
pub fn parse_moves(word: &str) -> Option<Moves>
    ensures { result ≡ moves_named word.now }
{
    match word {
        "clusters" => Some(Moves::Clusters),
        "marks" => Some(Moves::Marks),
        "characters" => Some(Moves::Characters),
        _ => None,
    }
}

/// Returns whether characters are mirrored, as an argument says it. Returns `None` for any other argument.
pub fn parse_mirror(word: &str) -> Option<bool>
    ensures { result ≡ mirror_named word.now }
{
    match word {
        "yes" => Some(true),
        "no" => Some(false),
        _ => None,
    }
}

/// Returns whether direction controls are kept, as an argument says it. Returns `None` for any other argument.
pub fn parse_controls(word: &str) -> Option<bool>
    ensures { result ≡ controls_named word.now }
{
    match word {
        "drop" => Some(false),
        "keep" => Some(true),
        _ => None,
    }
}

/// Returns how columns are counted, as an argument names it. Returns `None` for any other argument.
pub fn parse_widths(word: &str) -> Option<Widths>
    ensures { result ≡ widths_named word.now }
{
    match word {
        "clusters" => Some(Widths::Clusters),
        "characters" => Some(Widths::Characters),
        _ => None,
    }
}

/// Returns whether ambiguous characters are wide, as an argument says it. Returns `None` for any other argument.
pub fn parse_ambiguous(word: &str) -> Option<bool>
    ensures { result ≡ ambiguous_named word.now }
{
    match word {
        "narrow" => Some(false),
        "wide" => Some(true),
        _ => None,
    }
}

/// An option of `show` with a value.
#[derive(Clone, Copy, Debug, PartialEq)]
pub enum ShowSetting {
    /// `--ambiguous narrow|wide`.
    Ambiguous,
    /// `--base auto|ltr|rtl`.
    BaseOf,
    /// `--controls drop|keep`.
    Controls,
    /// `--mirror yes|no`.
    Mirror,
    /// `--moves clusters|marks|characters`.
    MovesOf,
    /// `--width N`.
    WidthOf,
    /// `--widths clusters|characters`.
    WidthsOf,
}

impl ShowSetting {
    /// Returns the option that an argument is. Returns `None` for any other argument.
    #[tactic(auto, unfolding(crate::specs::Shows::show_setting_named))]
    pub fn parse(word: &str) -> Option<ShowSetting>
        ensures { result ≡ show_setting_named word.now }
    {
        match word {
            "--ambiguous" => Some(ShowSetting::Ambiguous),
            "--base" => Some(ShowSetting::BaseOf),
            "--controls" => Some(ShowSetting::Controls),
            "--mirror" => Some(ShowSetting::Mirror),
            "--moves" => Some(ShowSetting::MovesOf),
            "--width" => Some(ShowSetting::WidthOf),
            "--widths" => Some(ShowSetting::WidthsOf),
            _ => None,
        }
    }
}

// Returns a view with this base level, which an argument names.
fn with_base<'w>(view: View, value: &'w str) -> Result<View, Refusal<'w>>
    ensures { result ≡ with_base value.now view }
{
    match Base::parse(value) {
        Some(base) => Ok(View { base, ..view }),
        None => Err(Refusal::NotABase(Subcommand::Showing, Word::new(value))),
    }
}

// Returns a view with this number of columns, which an argument names.
fn with_width<'w>(view: View, value: &'w str) -> Result<View, Refusal<'w>>
    ensures { result ≡ with_width value.now view }
{
    match parse_number(value) {
        Some(width) => {
            let width = Some(width);
            Ok(View { width, ..view })
        }
        None => Err(Refusal::NotAWidth(Subcommand::Showing, Word::new(value))),
    }
}

// Returns a view in which L2 moves what an argument names.
fn with_moves<'w>(view: View, value: &'w str) -> Result<View, Refusal<'w>>
    ensures { result ≡ with_moves value.now view }
{
    match parse_moves(value) {
        Some(moves) => Ok(View { moves, ..view }),
        None => Err(Refusal::NotAChoice(Choice::Moves, Word::new(value))),
    }
}

// Returns a view that mirrors characters, or does not, as an argument says.
fn with_mirror<'w>(view: View, value: &'w str) -> Result<View, Refusal<'w>>
    ensures { result ≡ with_mirror value.now view }
{
    match parse_mirror(value) {
        Some(mirrors) => Ok(View { mirrors, ..view }),
        None => Err(Refusal::NotAChoice(Choice::Mirror, Word::new(value))),
    }
}

// Returns a view that keeps direction controls, or does not, as an argument says.
fn with_controls<'w>(view: View, value: &'w str) -> Result<View, Refusal<'w>>
    ensures { result ≡ with_controls value.now view }
{
    match parse_controls(value) {
        Some(keeps_controls) => Ok(View {
            keeps_controls,
            ..view
        }),
        None => Err(Refusal::NotAChoice(Choice::Controls, Word::new(value))),
    }
}

// Returns a view that counts columns as an argument says.
fn with_widths<'w>(view: View, value: &'w str) -> Result<View, Refusal<'w>>
    ensures { result ≡ with_widths value.now view }
{
    match parse_widths(value) {
        Some(widths) => Ok(View { widths, ..view }),
        None => Err(Refusal::NotAChoice(Choice::Widths, Word::new(value))),
    }
}

// Returns a view in which ambiguous characters are wide, or not, as an argument says.
fn with_ambiguous<'w>(view: View, value: &'w str) -> Result<View, Refusal<'w>>
    ensures { result ≡ with_ambiguous value.now view }
{
    match parse_ambiguous(value) {
        Some(wide_ambiguous) => Ok(View {
            wide_ambiguous,
            ..view
        }),
        None => Err(Refusal::NotAChoice(Choice::Ambiguous, Word::new(value))),
    }
}

impl ShowSetting {
    /// Returns a view with this option, or an error if the option does not take this value.
    #[tactic(auto, unfolding(crate::specs::Shows::with_show_setting))]
    pub fn apply<'w>(self, view: View, value: &'w str) -> Result<View, Refusal<'w>>
        ensures { result ≡ with_show_setting self value.now view }
    {
        match self {
            ShowSetting::Ambiguous => with_ambiguous(view, value),
            ShowSetting::BaseOf => with_base(view, value),
            ShowSetting::Controls => with_controls(view, value),
            ShowSetting::Mirror => with_mirror(view, value),
            ShowSetting::MovesOf => with_moves(view, value),
            ShowSetting::WidthOf => with_width(view, value),
            ShowSetting::WidthsOf => with_widths(view, value),
        }
    }
}
