//! Carets, clicks and selections in a displayed line.

ghost use Rattle.std.specs.Prelude.{◌≡◌, ℕ, ◌+◌, ◌<◌, ◌≤◌, ◌++◌, length, map, take, slice_index, option_map, OnOk, OnErr, IfSome};
ghost use Rattle.bidi_base.specs.Levels.{is_odd};
ghost use Rattle.bidi_base.specs.Display.{run_of};
ghost use Rattle.bidi_display.specs.Carets.{IsClusterOf, after_boundary as after_boundary_in, before_boundary as before_boundary_in, boundary_unit as boundary_unit_in, caret as caret_in, cluster_at as cluster_at_in, cluster_at_column as cluster_at_column_in, clusters_before as clusters_before_in, column_after as column_after_in, column_before as column_before_in, column_of as column_by, position_at as position_in_line, position_at_edge as position_at_edge_in, position_at_end as position_at_end_in, is_selected as is_selected_in, selected_columns, some_columns};
ghost use Rattle.bidi_display.specs.DisplayedLine.{cluster_order, edges as edges_of, ends as ends_of};
ghost use Rattle.bidi_display.specs.Extends.{Extends};

use crate::appending::push_or_cut;
use crate::displayed_line::DisplayedLine;
use crate::line_cluster::LineCluster;
use std::alloc::AllocError;
use std::ops::Range;

/// The side of a boundary between clusters on which a caret is.
#[derive(Clone, Copy, Debug, PartialEq)]
pub enum Affinity {
    /// After the cluster before the boundary.
    Before,
    /// Before the cluster after the boundary.
    After,
}

/// The two columns of a caret at a boundary between clusters.
///
/// They are equal between clusters of one level. They can differ where the level changes, and at the ends of a line.
#[derive(Clone, Copy, Debug, PartialEq)]
pub struct Caret {
    /// The column after the cluster before the boundary, in the direction of that cluster. At the start of a line it is
    /// the column where the line starts: 0, or the width of the line if the level of the paragraph is odd.
    pub before: usize,
    /// The column before the cluster after the boundary, in the direction of that cluster. At the end of a line it is
    /// the column where the line ends: the width of the line, or 0 if the level of the paragraph is odd.
    pub after: usize,
}

/// A boundary between clusters, with the side of it that a click is on.
#[derive(Clone, Copy, Debug, PartialEq)]
pub struct Position {
    /// The index of the code unit after the boundary, in the text.
    pub unit: usize,
    /// The side.
    pub affinity: Affinity,
}

/// The left or the right side: of the middle of a column, or of a line.
#[derive(Clone, Copy, Debug, PartialEq)]
pub enum Side {
    /// The left one.
    Left,
    /// The right one.
    Right,
}

impl Caret {
    /// Returns the column on one side of the boundary.
    pub fn column(self, affinity: Affinity) -> usize
        ensures { result ≡ column_by affinity self }
    {
        match affinity {
            Affinity::Before => self.before,
            Affinity::After => self.after,
        }
    }
}

impl DisplayedLine {
    ghost use Rattle.bidi_display.specs.Shown.{clusters as clusters_in, laid_out};

    // Returns whether the level of the paragraph is odd: the line starts at its right.
    fn starts_right(&self) -> bool
        ensures { result ≡ is_odd (laid_out self.now).para_level }
    {
        self.para_level().is_rtl()
    }

    // Returns how many clusters begin before a code unit.
    fn clusters_before(&self, unit: usize) -> usize
        ensures count { result ≡ clusters_before_in (laid_out self.now) unit }
        ensures within { result ≤ length (clusters_in self.now) }
    {
        self.clusters().partition_point(|c| c.start < unit)
    }

    // Returns the code unit at the boundary before a cluster, or at the end of the line.
    fn boundary_unit(&self, cluster: usize) -> usize
        requires { cluster ≤ length (clusters_in self.now) }
        ensures { result ≡ boundary_unit_in (laid_out self.now) cluster }
    {
        match self.clusters().get(cluster) {
            Some(c) => c.start,
            None => self.range().end,
        }
    }

    // Returns the column before a cluster in its direction.
    fn column_before(&self, cluster: usize) -> usize
        requires { cluster < length (clusters_in self.now) }
        ensures { result ≡ column_before_in (laid_out self.now) cluster }
    {
        let columns = self.columns_of(cluster);
        if self.clusters()[cluster].level.is_rtl() {
            columns.end
        } else {
            columns.start
        }
    }

    // Returns the column after a cluster in its direction.
    fn column_after(&self, cluster: usize) -> usize
        requires { cluster < length (clusters_in self.now) }
        ensures { result ≡ column_after_in (laid_out self.now) cluster }
    {
        let columns = self.columns_of(cluster);
        if self.clusters()[cluster].level.is_rtl() {
            columns.start
        } else {
            columns.end
        }
    }

    // Returns the column before a cluster in its direction. At the end of the line it is the column where the line
    // ends.
    fn after_boundary(&self, cluster: usize) -> usize
        requires { cluster ≤ length (clusters_in self.now) }
        ensures { result ≡ after_boundary_in (laid_out self.now) cluster }
    {
        if cluster == self.clusters().len() {
            return if self.starts_right() { 0 } else { self.width() };
        }
        self.column_before(cluster)
    }

    // Returns the column after the cluster before this one, in its direction. At the start of the line it is the column
    // where the line starts.
    fn before_boundary(&self, cluster: usize) -> usize
        requires { cluster ≤ length (clusters_in self.now) }
        ensures { result ≡ before_boundary_in (laid_out self.now) cluster }
    {
        if cluster == 0 {
            return if self.starts_right() { self.width() } else { 0 };
        }
        self.column_after(cluster - 1)
    }

    /// Returns the caret at a boundary between clusters, given the index of the code unit after it.
    ///
    /// The start and the end of the line are boundaries. Returns `None` outside the line and inside a cluster. Takes
    /// time logarithmic in the number of clusters.
    pub fn caret(&self, unit: usize) -> Option<Caret>
        ensures { result ≡ caret_in (laid_out self.now) unit }
    {
        let cluster = self.clusters_before(unit);
        if unit < self.range().start || self.boundary_unit(cluster) != unit {
            return None;
        }
        Some(Caret {
            before: self.before_boundary(cluster),
            after: self.after_boundary(cluster),
        })
    }

    // Returns how many clusters end at the boundary before a code unit, or before it.
    fn clusters_ended(&self, unit: usize) -> usize
        ensures within { result ≤ length (clusters_in self.now) }
        ensures passed { (k : ℕ) → k < result → slice_index (ends_of (clusters_in self.now)) k ≤ unit }
        ensures next { result < length (clusters_in self.now) → unit < slice_index (ends_of (clusters_in self.now)) result }
    {
        self.clusters().partition_point(|c| c.end <= unit)
    }

    /// Returns the cluster that has a code unit, as its index in `clusters`, or `None` outside the line.
    ///
    /// An index inside a cluster can be rounded to the start or the end of that cluster. The end of the line is outside
    /// the line. Takes time logarithmic in the number of clusters.
    pub fn cluster_at(&self, unit: usize) -> Option<usize>
        ensures cluster { result ≡ cluster_at_in (laid_out self.now) unit }
        ensures within { IsClusterOf (laid_out self.now) result }
    {
        let cluster = self.clusters_ended(unit);
        if unit < self.range().start || cluster == self.clusters().len() {
            return None;
        }
        Some(cluster)
    }

    // Returns how many clusters, from left to right, end at a column or left of it.
    fn clusters_left_of(&self, column: usize) -> usize
        ensures within { result ≤ length (clusters_in self.now) }
        ensures passed { (k : ℕ) → k < result → slice_index (edges_of (clusters_in self.now)) (k + 1) ≤ column }
        ensures next { result < length (clusters_in self.now) → column < slice_index (edges_of (clusters_in self.now)) (result + 1) }
    {
        self.right_edges().partition_point(|edge| *edge <= column)
    }

    // Returns the visual index of the cluster that covers a column.
    fn visual_at_column(&self, column: usize) -> Option<usize>
        ensures cluster { option_map (slice_index (cluster_order (clusters_in self.now))) result
            ≡ cluster_at_column_in (laid_out self.now) column }
        ensures within { IfSome result (λ visual. visual < length (clusters_in self.now)) }
        ensures left { IfSome result (λ visual. slice_index (edges_of (clusters_in self.now)) visual ≤ column) }
        ensures right { IfSome result (λ visual. column < slice_index (edges_of (clusters_in self.now)) (visual + 1)) }
    {
        let visual = self.clusters_left_of(column);
        if visual < self.clusters().len() {
            Some(visual)
        } else {
            None
        }
    }

    /// Returns the cluster that covers a column, as its index in `clusters`, or `None` right of the line.
    ///
    /// Takes time logarithmic in the number of clusters.
    pub fn cluster_at_column(&self, column: usize) -> Option<usize>
        ensures cluster { result ≡ cluster_at_column_in (laid_out self.now) column }
        ensures within { IsClusterOf (laid_out self.now) result }
    {
        Some(self.order()[self.visual_at_column(column)?])
    }

    // Returns the position at the left or the right edge of a cluster.
    fn position_at_edge(&self, cluster: usize, edge: Side) -> Position
        requires { cluster < length (clusters_in self.now) }
        ensures { result ≡ position_at_edge_in (laid_out self.now) cluster edge }
    {
        let starts_right = self.clusters()[cluster].level.is_rtl();
        if starts_right == (edge == Side::Right) {
            Position {
                unit: self.boundary_unit(cluster),
                affinity: Affinity::After,
            }
        } else {
            Position {
                unit: self.boundary_unit(cluster + 1),
                affinity: Affinity::Before,
            }
        }
    }

    /// Returns the position at the left or the right end of the line.
    ///
    /// If the level of the paragraph is even, the left end is the start of the line. If it is odd, the right end is.
    pub fn position_at_end(&self, end: Side) -> Position
        ensures { result ≡ position_at_end_in (laid_out self.now) end }
    {
        if self.starts_right() == (end == Side::Right) {
            Position {
                unit: self.range().start,
                affinity: Affinity::Before,
            }
        } else {
            Position {
                unit: self.range().end,
                affinity: Affinity::After,
            }
        }
    }

    /// Returns the position of a click on a half of a column.
    ///
    /// Left of the middle of a cluster it is the left edge of the cluster, and otherwise the right edge. At an even
    /// level the left edge is the boundary before the cluster, and at an odd level the boundary after it. Right of the
    /// line it is the right end of the line. Left of the line, use `position_at_end`. Takes time logarithmic in the
    /// number of clusters.
    pub fn position_at(&self, column: usize, half: Side) -> Position
        ensures { result ≡ position_in_line (laid_out self.now) column half }
    {
        let Some(visual) = self.visual_at_column(column) else {
            return self.position_at_end(Side::Right);
        };
        let cluster = self.order()[visual];
        let from_left = column - self.left_edge_at(visual);
        let to_right = self.right_edge_at(visual) - column;
        // The left half of a column is left of the middle of its cluster if the cluster has at least as many columns
        // right of this column as left of it. The right half is if it has more.
        let is_left = match half {
            Side::Left => from_left < to_right,
            Side::Right => from_left + 1 < to_right,
        };
        self.position_at_edge(cluster, if is_left { Side::Left } else { Side::Right })
    }

    /// Appends the columns of the clusters that a range of code units selects, as ranges from left to right.
    ///
    /// A cluster is selected if any of its code units is in the range. The range may be empty, and may go beyond the
    /// line. Appended ranges that touch are joined, and none is empty. Takes time linear in the line. If an allocation
    /// fails, `out` has the ranges that it had before.
    pub fn push_selection(
        &self,
        range: Range<usize>,
        out: &mut Vec<Range<usize>>,
    ) -> Result<(), AllocError>
        ensures columns { OnOk result (map run_of out.new.items ≡ map run_of out.old.items
            ++ selected_columns (laid_out self.now) range.start range.end) }
        ensures unchanged { OnErr result (out.new.items ≡ out.old.items) }
    {
        let len = out.len();
        let mut open = 0..0;
        for (visual, cluster) in self.order().iter().enumerate() {
            if is_selected(&self.clusters()[*cluster], &range) {
                let left = self.left_edge_at(visual);
                if left != open.end {
                    push_columns(open, len, out)?;
                    open = left..left;
                }
                open = open.start..self.right_edge_at(visual);
            }
        }
        push_columns(open, len, out)
    }
}

// Returns whether some code unit of a cluster is in a range.
fn is_selected(cluster: &LineCluster, range: &Range<usize>) -> bool
    ensures { result ≡ is_selected_in range.now.start range.now.end cluster.now }
{
    cluster.start.max(range.start) < cluster.end.min(range.end)
}

// Appends a range of columns if it is not empty. If the allocation fails, cuts the list to a length.
fn push_columns(
    columns: Range<usize>,
    len: usize,
    out: &mut Vec<Range<usize>>,
) -> Result<(), AllocError>
    requires { len ≤ length out.old.items }
    ensures columns { OnOk result (map run_of out.new.items ≡ map run_of out.old.items ++ some_columns (run_of columns)) }
    ensures extends { OnOk result (Extends out.old.items out.new.items) }
    ensures cut { OnErr result (out.new.items ≡ take len out.old.items) }
{
    if columns.start < columns.end {
        push_or_cut(columns, len, out)?;
    }
    Ok(())
}
