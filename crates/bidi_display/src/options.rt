//! How a line is displayed.

/// What L2 moves as a whole: a cluster of the line.
///
/// The characters of a cluster are displayed in the order of the text, at every level.
#[derive(Clone, Copy, Debug, PartialEq)]
pub enum Moves {
    /// A character (L2).
    Characters,
    /// A displayed character, with the nonspacing marks (NSM) that follow it at its level (L3).
    Marks,
    /// An extended grapheme cluster (UAX #29) of the displayed characters.
    Clusters,
}

/// Which characters are not displayed.
#[derive(Clone, Copy, Debug, PartialEq)]
pub enum Dropped {
    /// All characters are displayed.
    Nothing,
    /// The twelve direction controls of UAX #9: ALM, LRM, RLM, LRE, RLE, PDF, LRO, RLO, LRI, RLI, FSI and PDI.
    Controls,
    /// The twelve direction controls, and the characters of class BN. Those are ZWJ and ZWNJ among others, so emoji
    /// sequences and Persian words are displayed differently.
    ControlsAndBoundaryNeutrals,
}

/// How a line is displayed.
#[derive(Clone, Copy, Debug, PartialEq)]
pub struct DisplayOptions {
    /// What L2 moves as a whole.
    pub moves: Moves,
    /// Which characters are not displayed.
    pub dropped: Dropped,
    /// The columns between two tab stops. If it is 0, a tab has the width that `ClusterWidth` returns for it.
    pub tab: usize,
}

impl DisplayOptions {
    ghost use Rattle.std.specs.Prelude.{◌≡◌, ◌<◌};
    ghost use Rattle.bidi_display.specs.DisplayedLine.{tab_columns};

    // Returns the columns from a column up to the next tab stop.
    pub(crate) fn tab_columns(self, column: usize) -> usize
        requires { 0 < self.tab }
        ensures { result ≡ tab_columns self.tab column }
    {
        self.tab - column % self.tab
    }
}

impl Default for DisplayOptions {
    ghost use Rattle.std.specs.Prelude.{◌≡◌};
    ghost use Rattle.bidi_display.specs.Options.{first_options};

    /// Grapheme clusters move, the twelve direction controls are not displayed, and there is a tab stop at each eighth
    /// column.
    fn default() -> DisplayOptions
        ensures { result ≡ first_options }
    {
        DisplayOptions {
            moves: Moves::Clusters,
            dropped: Dropped::Controls,
            tab: 8,
        }
    }
}
