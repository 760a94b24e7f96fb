//! What the arguments ask for.
ghost use Rattle.std.specs.Prelude.{◌≡◌, map, string_bytes};

use crate::number::LevelWords;
use bidi_terminal::{Base, parse_number};

/// What is printed of each paragraph.
#[derive(Clone, Copy)]
pub enum View {
    /// Its range, its levels, and its text from left to right.
    Whole,
    /// Its lines of at most so many characters, each from left to right.
    Lines(u16),
}

/// What the program is asked to do.
#[derive(Drop)]
pub enum Command<'w> {
    /// `map <level>..`: the visual order of these levels.
    Map(LevelWords<'w>),
    /// `show auto|ltr|rtl` and `lines auto|ltr|rtl <limit>`: the paragraphs of the input.
    Show(Base, View),
}

impl<'w> Command<'w> {
    ghost use Rattle.bidi_show_run.specs.Commands.{command_of};

    /// Returns the command of some arguments, or `None` if they are no command. Does not allocate.
    pub fn parse(words: &'w [String]) -> Option<Command<'w>>
        ensures { result ≡ command_of (map string_bytes words.now) }
    {
        match words {
            [form, levels @ ..] if form.as_str() == "map" => {
                LevelWords::parse(levels).map(Command::Map)
            }
            [form, base] if form.as_str() == "show" => {
                Some(Command::Show(Base::parse(base.as_str())?, View::Whole))
            }
            [form, base, limit] if form.as_str() == "lines" => {
                let base = Base::parse(base.as_str())?;
                let limit = parse_number(limit.as_str())?;
                Some(Command::Show(base, View::Lines(limit)))
            }
            _ => None,
        }
    }
}
