//! The widths of clusters.

ghost use Rattle.std.specs.Prelude.{◌≡◌, ℕ, List, [], ◌∷◌, false};
ghost use Rattle.std.specs.Str.{chars};
ghost use Rattle.bidi_display.specs.Widths.{columns as columns_of, begins_with_control as begins_with_control_in, columns_of_cluster, is_narrow, sum_of_columns};

use unicode_width::{UnicodeWidthChar, UnicodeWidthStr};

/// The width of each cluster on the display.
pub trait ClusterWidth {
    /// The width of a cluster, as a function of its displayed characters.
    ghost width_of: { Self → List ℕ → ℕ };

    /// Returns the width of a cluster in columns, given its displayed characters. There is at least one.
    ///
    /// The same characters must always give the same width.
    fn width(&self, cluster: &str) -> usize
        ensures { result ≡ width_of self.now (chars cluster.now) };

    /// Returns the width of a cluster that has one displayed character.
    ///
    /// The default calls `width`. Most clusters are one character, so a line is shown faster if this needs no string.
    fn width_of_char(&self, c: char) -> usize
        ensures { result ≡ width_of self.now (c ∷ []) }
    {
        let mut buffer = [0; 4];
        self.width(c.encode_utf8(&mut buffer))
    }
}

/// The width of each cluster by the kit's `unicode_width`.
///
/// An emoji sequence takes two columns. A cluster that begins with a control character takes none.
#[derive(Clone, Copy, Debug, PartialEq)]
pub struct ClusterColumns {
    /// Whether East Asian ambiguous characters take two columns.
    pub wide_ambiguous: bool,
}

/// The sum of the widths of each cluster's characters, as in terminals that do not join emoji.
///
/// Each emoji of a sequence takes two columns. A control character takes none. The sum is at most `usize::MAX`.
#[derive(Clone, Copy, Debug, PartialEq)]
pub struct CharColumns {
    /// Whether East Asian ambiguous characters take two columns.
    pub wide_ambiguous: bool,
}

/// No width for any cluster, for callers that read no columns.
#[derive(Clone, Copy, Debug)]
pub struct NoWidth;

impl ClusterWidth for NoWidth {
    ghost width_of = { λ _ cluster. 0 };

    fn width(&self, _cluster: &str) -> usize {
        0
    }

    fn width_of_char(&self, _c: char) -> usize {
        0
    }
}

// Returns whether a cluster begins with a control character, which has no width.
fn begins_with_control(cluster: &str) -> bool
    ensures { result ≡ begins_with_control_in (chars cluster.now) }
{
    match cluster.chars().next() {
        Some(c) => c.width().is_none(),
        None => false,
    }
}

impl Default for ClusterColumns {
    /// East Asian ambiguous characters take one column.
    fn default() -> ClusterColumns
        ensures { result.wide_ambiguous ≡ false }
    {
        ClusterColumns {
            wide_ambiguous: false,
        }
    }
}

impl ClusterWidth for ClusterColumns {
    ghost width_of = { λ widths cluster. columns_of_cluster widths.wide_ambiguous cluster };

    fn width(&self, cluster: &str) -> usize {
        if begins_with_control(cluster) {
            0
        } else if self.wide_ambiguous {
            cluster.width_cjk()
        } else {
            cluster.width()
        }
    }

    fn width_of_char(&self, c: char) -> usize {
        columns(self.wide_ambiguous, c)
    }
}

// Returns whether a character is one of these frequent ones, which take one column.
fn is_narrow(c: char) -> bool
    ensures { result ≡ is_narrow c }
{
    matches!(c, ' '..='~' | '\u{05D0}'..='\u{05EA}' | '\u{0620}'..='\u{064A}')
}

// Returns the columns of a character by itself, or 0 if it has no width.
fn columns(wide_ambiguous: bool, c: char) -> usize
    ensures { result ≡ columns_of wide_ambiguous c }
{
    if is_narrow(c) {
        return 1;
    }
    let width = if wide_ambiguous {
        c.width_cjk()
    } else {
        c.width()
    };
    width.unwrap_or(0)
}

impl Default for CharColumns {
    /// East Asian ambiguous characters take one column.
    fn default() -> CharColumns
        ensures { result.wide_ambiguous ≡ false }
    {
        CharColumns {
            wide_ambiguous: false,
        }
    }
}

impl ClusterWidth for CharColumns {
    ghost width_of = { λ widths cluster. sum_of_columns widths.wide_ambiguous cluster };

    fn width(&self, cluster: &str) -> usize {
        let mut width = 0usize;
        for c in cluster.chars() {
            width = width.saturating_add(columns(self.wide_ambiguous, c));
        }
        width
    }

    fn width_of_char(&self, c: char) -> usize {
        columns(self.wide_ambiguous, c)
    }
}
