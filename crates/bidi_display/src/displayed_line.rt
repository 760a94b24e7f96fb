//! A line as a device displays it: its clusters from left to right, and their columns.

ghost use Rattle.std.specs.Prelude.{◌≡◌, ◌<◌, ◌≤◌, ◌+◌, length, drop, slice_index, OnOk, OnErr};
ghost use Rattle.bidi_base.specs.Texts.{IsLine, HaveClass, HaveLevel};
ghost use Rattle.bidi_base.specs.Layout.{AreInverse};
ghost use Rattle.bidi_display.specs.DisplayedLine.{cluster_order, AreClustersFrom, HaveCharsWithin, edges as edges_of, line_width, left_edge, right_edge};
ghost use Rattle.bidi_lines.specs.Analysed.{with_lists};

use crate::edges::{find_order, find_places, find_right_edges};
use crate::grouping::find_clusters;
use crate::line_char::{LineChar, read_chars};
use crate::line_cluster::LineCluster;
use crate::options::DisplayOptions;
use crate::width::ClusterWidth;
use bidi_base::char_data::BidiClass;
use bidi_base::level::{LTR_LEVEL, Level};
use bidi_lines::reused_levels::LineLevels;
use bidi_text::text::{TextSource, is_line};
use std::alloc::{AllocError, Global};
use std::ops::Range;

// The lists of a line. What they hold after a failed allocation is not promised.
#[derive(Drop)]
struct Lists {
    levels: LineLevels,
    chars: Vec<LineChar>,
    clusters: Vec<LineCluster>,
    // The clusters from left to right, as their indexes.
    order: Vec<usize>,
    // The visual index of each cluster.
    places: Vec<usize>,
    // The columns at the right edges of the clusters, from left to right.
    right_edges: Vec<usize>,
    // Buffers.
    displayed: String,
    cluster_levels: Vec<Level>,
}

/// A line as it is displayed: its clusters in the order of the text and from left to right, and their columns.
///
/// Shows one line after another, of one text or of several in any encoding, and reuses its memory. It does not refer to
/// the text, and can outlive it. Columns are counted from the left.
#[derive(Drop)]
pub struct DisplayedLine {
    options: DisplayOptions,
    start: usize,
    end: usize,
    para_level: Level,
    lists: Lists,
    ghost whole: { AreClustersFrom start end lists.clusters.items },
    ghost chars_within: { HaveCharsWithin (length lists.chars.items) lists.clusters.items },
    ghost order: { lists.order.items ≡ cluster_order lists.clusters.items },
    ghost places: { AreInverse lists.order.items lists.places.items },
    ghost edges: { lists.right_edges.items ≡ drop 1 (edges_of lists.clusters.items) },
}

impl Lists {
    ghost use Rattle.bidi_display.specs.Lists.{AreEmpty, AreListsOf};

    // Returns empty lists. Does not allocate.
    fn new(alloc: Global) -> Lists
        ensures { AreEmpty result }
    {
        Lists {
            levels: LineLevels::new(alloc),
            chars: Vec::new(alloc),
            clusters: Vec::new(alloc),
            order: Vec::new(alloc),
            places: Vec::new(alloc),
            right_edges: Vec::new(alloc),
            displayed: String::new(alloc),
            cluster_levels: Vec::new(alloc),
        }
    }

    // Empties the lists.
    fn clear(&mut self)
        ensures { AreEmpty self.new }
    {
        self.chars.clear();
        self.clusters.clear();
        self.order.clear();
        self.places.clear();
        self.right_edges.clear();
    }

    // Fills the lists for a line.
    fn find<T: TextSource, W: ClusterWidth>(
        &mut self,
        options: DisplayOptions,
        text: T,
        classes: &[BidiClass],
        levels: &[Level],
        para_level: Level,
        line: Range<usize>,
        widths: &W,
    ) -> Result<(), AllocError>
        requires is_line { IsLine (T.text text) line.start line.end }
        requires classes { HaveClass (T.text text) classes.now }
        requires levels { HaveLevel (T.text text) levels.now }
        ensures { OnOk result (AreListsOf options (W.width_of widths.now) (with_lists (T.text text) classes.now levels.now)
            para_level line self.new) }
    {
        let (start, end) = (line.start, line.end);
        self.levels
            .show(para_level, &classes[start..end], &levels[start..end])?;
        self.levels.keep_first_units(text.subrange(start..end));
        read_chars(text, classes, self.levels.as_slice(), line, &mut self.chars)?;
        find_clusters(
            options,
            widths,
            self.chars.as_slice(),
            &mut self.displayed,
            &mut self.clusters,
        )?;
        let clusters = self.clusters.as_slice();
        find_order(clusters, &mut self.cluster_levels, &mut self.order)?;
        find_places(self.order.as_slice(), &mut self.places)?;
        find_right_edges(clusters, self.order.as_slice(), &mut self.right_edges)
    }
}

impl DisplayedLine {
    ghost use Rattle.bidi_display.specs.LineBreaks.{chars_of as chars_of_cluster};
    ghost use Rattle.bidi_display.specs.Shown.{chars as chars_in, clusters as clusters_in, options as options_of, laid_out, Displays, IsEmptied};

    /// Returns a value that shows an empty line. `show` displays lines with these options. Does not allocate.
    pub fn new(alloc: Global, options: DisplayOptions) -> DisplayedLine
        ensures options { options_of result ≡ options }
        ensures emptied { IsEmptied result }
    {
        DisplayedLine {
            options,
            start: 0,
            end: 0,
            para_level: LTR_LEVEL,
            lists: Lists::new(alloc),
        }
    }

    /// Returns the options.
    pub fn options(&self) -> DisplayOptions
        ensures { result ≡ options_of self.now }
    {
        self.options
    }

    /// Shows a line of a text, given the text's classes and levels. Applies L1 and L2 to it.
    ///
    /// `classes` and `levels` have the stored class and the stored level of each code unit of the whole text, equal
    /// within each character (see `is_per_char`). `line` is a range of code units that cuts no character (see
    /// `is_line`), and `para_level` is the level of its paragraph. `widths` returns the width of each cluster that has
    /// displayed characters, except for a tab that goes to a tab stop. Takes time linear in the line, except for the
    /// order: that takes the number of clusters, times the nesting depth of the ranges that L2 reverses. If an
    /// allocation fails, the value shows an empty line, and keeps its options.
    pub fn show<T: TextSource, W: ClusterWidth>(
        &mut self,
        text: T,
        classes: &[BidiClass],
        levels: &[Level],
        para_level: Level,
        line: Range<usize>,
        widths: &W,
    ) -> Result<(), AllocError>
        requires is_line { IsLine (T.text text) line.start line.end }
        requires classes { HaveClass (T.text text) classes.now }
        requires levels { HaveLevel (T.text text) levels.now }
        ensures options { options_of self.new ≡ options_of self.old }
        ensures displays { OnOk result (Displays (W.width_of widths.now) (with_lists (T.text text) classes.now levels.now)
            para_level line self.new) }
        ensures emptied { OnErr result (IsEmptied self.new) }
    {
        prove!(is_line(text, &line));
        let (start, end) = (line.start, line.end);
        let options = self.options;
        let found = self
            .lists
            .find(options, text, classes, levels, para_level, line, widths);
        if found.is_err() {
            self.lists.clear();
            self.start = 0;
            self.end = 0;
            self.para_level = LTR_LEVEL;
            return Err(AllocError);
        }
        self.start = start;
        self.end = end;
        self.para_level = para_level;
        Ok(())
    }

    /// Returns the range of code units of the line.
    pub fn range(&self) -> Range<usize>
        ensures start { result.start ≡ (laid_out self.now).start }
        ensures end { result.end ≡ (laid_out self.now).end }
    {
        self.start..self.end
    }

    /// Returns the level of the paragraph of the line.
    pub fn para_level(&self) -> Level
        ensures { result ≡ (laid_out self.now).para_level }
    {
        self.para_level
    }

    // Returns the columns at the right edges of the clusters, from left to right.
    pub(crate) fn right_edges(&self) -> &[usize]
        ensures { result.now ≡ drop 1 (edges_of (clusters_in self.now)) }
    {
        self.lists.right_edges.as_slice()
    }

    /// Returns the characters of the line in the order of the text, also those that are not displayed.
    pub fn chars(&self) -> &[LineChar]
        ensures { result.now ≡ chars_in self.now }
    {
        self.lists.chars.as_slice()
    }

    // Returns the characters of a cluster.
    pub(crate) fn chars_of(&self, cluster: &LineCluster) -> &[LineChar]
        requires start { cluster.now.chars_start ≤ cluster.now.chars_end }
        requires end { cluster.now.chars_end ≤ length (chars_in self.now) }
        ensures { result.now ≡ chars_of_cluster (chars_in self.now) cluster.now }
    {
        &self.chars()[cluster.chars_start..cluster.chars_end]
    }

    /// Returns the clusters of the line in the order of the text.
    pub fn clusters(&self) -> &[LineCluster]
        ensures { result.now ≡ clusters_in self.now }
    {
        self.lists.clusters.as_slice()
    }

    /// Returns the clusters from left to right (L2), as their indexes in `clusters`.
    pub fn order(&self) -> &[usize]
        ensures { result.now ≡ cluster_order (clusters_in self.now) }
    {
        self.lists.order.as_slice()
    }

    // Returns the column at the left edge of the cluster with a visual index.
    pub(crate) fn left_edge_at(&self, visual: usize) -> usize
        requires { visual < length (clusters_in self.now) }
        ensures { result ≡ slice_index (edges_of (clusters_in self.now)) visual }
    {
        if visual == 0 {
            0
        } else {
            self.lists.right_edges[visual - 1]
        }
    }

    // Returns the column at the right edge of the cluster with a visual index.
    pub(crate) fn right_edge_at(&self, visual: usize) -> usize
        requires { visual < length (clusters_in self.now) }
        ensures { result ≡ slice_index (edges_of (clusters_in self.now)) (visual + 1) }
    {
        self.lists.right_edges[visual]
    }

    /// Returns the columns that a cluster takes, given its index in `clusters`.
    ///
    /// The index must be less than the number of clusters. A cluster without width has an empty range. Takes constant
    /// time.
    pub fn columns_of(&self, cluster: usize) -> Range<usize>
        requires { cluster < length (clusters_in self.now) }
        ensures start { result.start ≡ left_edge (clusters_in self.now) cluster }
        ensures end { result.end ≡ right_edge (clusters_in self.now) cluster }
    {
        let visual = self.lists.places[cluster];
        self.left_edge_at(visual)..self.right_edge_at(visual)
    }

    /// Returns the width of the line in columns, or `usize::MAX` if it is greater.
    pub fn width(&self) -> usize
        ensures { result ≡ line_width (clusters_in self.now) }
    {
        self.lists.right_edges.last().copied().unwrap_or(0)
    }
}
