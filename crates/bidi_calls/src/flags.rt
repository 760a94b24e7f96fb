//! The flags of a displayed line, as a number.
ghost use Rattle.std.specs.Prelude.{◌≡◌, IfOk};
ghost use Rattle.std.specs.Result.{result_err};
ghost use Rattle.bidi_calls.specs.Flags.{dropped_by, is_flags, mirrored_if, mirrors, moves_by, options_by};
ghost use Rattle.bidi_numbers.specs.Faults.{fault_unless};

use bidi_display::options::{DisplayOptions, Dropped, Moves};
use bidi_display::text::MirroredCharacters;
use bidi_numbers::fault::{Fault, check};
use bidi_unicode::UnicodeData;

/// The characters that are displayed at odd levels in place of others: by Unicode's data if `on`, and else none.
#[derive(Clone, Copy, Debug)]
pub(crate) struct MirroredIf {
    pub on: bool,
}

impl MirroredCharacters for MirroredIf {
    ghost mirrored_of = { λ mirrors c. mirrored_if mirrors.on c };

    fn mirrored(&self, c: char) -> char {
        if self.on { UnicodeData.mirrored(c) } else { c }
    }
}

// Returns what L2 moves as a whole.
fn moves_by(flags: u32) -> Moves
    ensures { result ≡ moves_by flags }
{
    match flags % 4 {
        0 => Moves::Characters,
        1 => Moves::Marks,
        _ => Moves::Clusters,
    }
}

// Returns which characters are not displayed.
fn dropped_by(flags: u32) -> Dropped
    ensures { result ≡ dropped_by flags }
{
    match flags / 8 {
        0 => Dropped::Nothing,
        1 => Dropped::Controls,
        _ => Dropped::ControlsAndBoundaryNeutrals,
    }
}

/// Returns the options of a line by its flags, or `BadFlags` if the number is not that of flags.
pub(crate) fn options_by(flags: u32) -> Result<DisplayOptions, Fault>
    ensures fault { result_err result ≡ fault_unless (is_flags flags) Fault.BadFlags }
    ensures options { IfOk result (λ options. options ≡ options_by flags) }
{
    check(flags < 24 && flags % 4 < 3, Fault::BadFlags)?;
    Ok(DisplayOptions {
        moves: moves_by(flags),
        dropped: dropped_by(flags),
        tab: 0,
    })
}

/// Returns which characters are mirrored, by the flags of a line.
pub(crate) fn mirrors_by(flags: u32) -> MirroredIf
    ensures { result.on ≡ mirrors flags }
{
    MirroredIf {
        on: flags / 4 % 2 == 1,
    }
}
