//! How lines are shown.
ghost use Rattle.std.specs.Prelude.{◌≡◌};
ghost use Rattle.bidi_shown.specs.Views.{columns_in, mirrored_in, options_in};

use bidi_display::options::{DisplayOptions, Dropped, Moves};
use bidi_display::text::MirroredCharacters;
use bidi_display::width::{CharColumns, ClusterColumns, ClusterWidth};
use bidi_terminal::Base;
use bidi_unicode::UnicodeData;

/// How the columns of a cluster are counted.
#[derive(Clone, Copy, Debug, PartialEq)]
pub enum Widths {
    /// As those of one sign: an emoji sequence takes two.
    Clusters,
    /// As the sum of those of its characters.
    Characters,
}

/// How the lines of a text are shown.
#[derive(Clone, Copy, Debug, PartialEq)]
pub struct View {
    /// The base level of each line.
    pub base: Base,
    /// The maximum number of columns of a line: longer ones are cut. `None` cuts no line.
    pub width: Option<u16>,
    /// Whether each character is moved by itself (L2), unchanged, and none is left out. Then the fields below have no
    /// effect.
    pub plain: bool,
    /// What L2 moves as a whole.
    pub moves: Moves,
    /// Whether characters are mirrored at odd levels (L4).
    pub mirrors: bool,
    /// Whether the twelve direction controls of UAX #9 are written.
    pub keeps_controls: bool,
    /// How the columns of a cluster are counted.
    pub widths: Widths,
    /// Whether East Asian ambiguous characters take two columns.
    pub wide_ambiguous: bool,
}

impl Default for View {
    ghost use Rattle.bidi_shown.specs.Views.{first_view};

    /// Lines of any length: grapheme clusters move, characters are mirrored, and direction controls are left out. Each
    /// paragraph gets its level from its characters. The columns of a cluster are the sum of those of its characters.
    fn default() -> View
        ensures { result ≡ first_view }
    {
        View {
            base: Base::Auto,
            width: None,
            plain: false,
            moves: Moves::Clusters,
            mirrors: true,
            keeps_controls: false,
            widths: Widths::Characters,
            wide_ambiguous: false,
        }
    }
}

// The columns between two tab stops.
const TAB: usize = 8;

impl View {
    ghost use Rattle.std.specs.Option.{option_or};

    /// Returns the view with this width, if it has none.
    pub fn or_width(self, width: Option<u16>) -> View
        ensures { result ≡ record self { width = option_or self.width width } }
    {
        View {
            width: self.width.or(width),
            ..self
        }
    }

    /// Returns what moves and what is not displayed. There is a tab stop at each eighth column.
    pub fn options(self) -> DisplayOptions
        ensures { result ≡ options_in self }
    {
        DisplayOptions {
            moves: self.moves,
            dropped: if self.keeps_controls {
                Dropped::Nothing
            } else {
                Dropped::Controls
            },
            tab: TAB,
        }
    }

    /// Returns the character that is displayed in place of this one at an odd level (L4): its mirrored character by
    /// Unicode's data, or itself if it has none or the view does not mirror.
    pub fn mirrored(self, c: char) -> char
        ensures { result ≡ mirrored_in self c }
    {
        if self.mirrors {
            UnicodeData.mirrored(c)
        } else {
            c
        }
    }
}

/// The columns of clusters, as the view counts them.
impl ClusterWidth for View {
    ghost width_of = { λ view cluster. columns_in view cluster };

    fn width(&self, cluster: &str) -> usize {
        let wide_ambiguous = self.wide_ambiguous;
        match self.widths {
            Widths::Clusters => ClusterColumns { wide_ambiguous }.width(cluster),
            Widths::Characters => CharColumns { wide_ambiguous }.width(cluster),
        }
    }

    fn width_of_char(&self, c: char) -> usize {
        let wide_ambiguous = self.wide_ambiguous;
        match self.widths {
            Widths::Clusters => ClusterColumns { wide_ambiguous }.width_of_char(c),
            Widths::Characters => CharColumns { wide_ambiguous }.width_of_char(c),
        }
    }
}
