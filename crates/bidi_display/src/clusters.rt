//! The grapheme clusters of a text in any encoding.

ghost use Rattle.std.specs.Prelude.{◌≡◌, ◌<◌, ◌≤◌};
ghost use Rattle.std.specs.Iterator.{YieldsFirstBy, item_count};
ghost use Rattle.bidi_base.specs.Texts.{text_len};
ghost use Rattle.bidi_base.specs.Units.{bounds};
ghost use Rattle.bidi_display.specs.Clusters.{cluster_ranges};
ghost use Rattle.bidi_display.specs.ClusterWalk.{IsReadTo};

use crate::cluster_state::ClusterState;
use bidi_text::text::TextSource;
use std::ops::Range;

/// Iterates over the ranges of code units of the grapheme clusters of a text, in order.
///
/// The clusters are the extended ones of UAX #29. Each code unit is in one of them. Reads each character once, by
/// `char_at`, and does not allocate.
#[derive(Debug, Drop)]
pub struct Clusters<T: TextSource> {
    text: T,
    // Where the next cluster begins.
    start: usize,
    // The index after the first character of the next cluster: the characters before it were read.
    at: usize,
    state: ClusterState,
    ghost within: { start ≤ text_len (T.text text) },
    ghost begun: { start < text_len (T.text text) → IsReadTo (T.text text) start at state },
}

impl<T: TextSource> Clusters<T> {
    ghost use Rattle.bidi_display.specs.ClustersLeft.{clusters_left};

    /// Returns an iterator that starts at the first cluster of a text.
    pub fn new(text: T) -> Clusters<T>
        ensures { clusters_left result ≡ cluster_ranges (T.text text) }
    {
        let mut state = ClusterState::new();
        let mut at = 0;
        if let Some((c, len)) = text.char_at(0) {
            state.read(c);
            at = len;
        }
        Clusters {
            text,
            start: 0,
            at,
            state,
        }
    }
}

impl<T: TextSource> Iterator for Clusters<T> {
    ghost use Rattle.bidi_display.specs.ClustersLeft.{clusters_left};

    type Item = Range<usize>;

    ghost next_gives = { YieldsFirstBy bounds (λ s. clusters_left s) };

    ghost remaining = { item_count (λ s. clusters_left s) };

    fn next(&mut self) -> Option<Range<usize>> {
        let text = self.text;
        let start = self.start;
        if start == text.len() {
            return None;
        }
        let mut state = self.state;
        let mut end = self.at;
        let mut at = end;
        // Each iteration reads the character at `end`. If another cluster begins there, this one ends.
        'chars: while let Some((c, len)) = text.char_at(end) {
            at = end + len;
            if state.read(c) {
                break;
            }
            end = at;
        }
        self.start = end;
        self.at = at;
        self.state = state;
        Some(start..end)
    }
}
