//! Where a text is cut into lines of at most so many columns.
ghost use Rattle.std.specs.Prelude.{◌≡◌, ◌≤◌, length, map, All, IfOk};
ghost use Rattle.bidi_base.specs.Display.{run_of};
ghost use Rattle.bidi_shown.specs.Breaks.{column_after as column_after_of, fitting as fitting_of, up_to_space as up_to_space_of, leading_spaces as leading_spaces_of, line_of_fitting, first_line as first_line_of, line_range, lines_of_text};
ghost use Rattle.bidi_shown.specs.Bounds.{IsRangeOf};

use crate::cluster::{Cluster, clusters};
use bidi_base::data_source::BidiDataSource;
use std::alloc::{AllocError, Global};
use std::ops::Range;

/// The clusters of a line, which are the first of a list.
#[derive(Clone, Copy, Debug, PartialEq, Drop)]
pub struct LineLength {
    /// How many clusters the line has.
    pub shown: usize,
    /// The index of the first cluster of the next line: white space between the two is left out.
    pub taken: usize,
}

// The columns between two tab stops.
const TAB: usize = 8;

// Returns the column after a cluster that begins at a column.
fn column_after(column: usize, cluster: &Cluster) -> usize
    requires { column ≤ 65535 }
    ensures { result ≡ column_after_of column cluster.now }
{
    if cluster.is_tab {
        column + (TAB - column % TAB)
    } else {
        column + usize::from(cluster.width)
    }
}

// Returns how many clusters from the front fit in these columns.
fn fitting(clusters: &[Cluster], limit: u16) -> usize
    ensures count { result ≡ fitting_of limit 0 clusters.now }
    ensures within { result ≤ length clusters.now }
{
    let mut column = 0;
    for (at, cluster) in clusters.iter().enumerate() {
        column = column_after(column, cluster);
        if column > usize::from(limit) {
            return at;
        }
    }
    clusters.len()
}

// Returns how many clusters there are up to the last white space among the first `fit`, or 0.
fn up_to_space(clusters: &[Cluster], fit: usize) -> usize
    requires { fit ≤ length clusters.now }
    ensures count { result ≡ up_to_space_of clusters.now fit }
    ensures within { result ≤ fit }
{
    let mut end = fit;
    while end > 0 {
        if clusters[end - 1].is_space {
            return end;
        }
        end -= 1;
    }
    0
}

// Returns how many clusters from the front are white space.
fn leading_spaces(clusters: &[Cluster]) -> usize
    ensures count { result ≡ leading_spaces_of clusters.now }
    ensures within { result ≤ length clusters.now }
{
    for (at, cluster) in clusters.iter().enumerate() {
        if !cluster.is_space {
            return at;
        }
    }
    clusters.len()
}

// Returns the first line, given how many clusters fit in it.
fn line_of(clusters: &[Cluster], fit: usize) -> LineLength
    requires some { 1 ≤ fit }
    requires within { fit ≤ length clusters.now }
    ensures line { result ≡ line_of_fitting fit clusters.now }
    ensures advances { 1 ≤ result.shown }
    ensures ordered { result.shown ≤ result.taken }
    ensures within { result.taken ≤ length clusters.now }
{
    let spaces = leading_spaces(&clusters[fit..]);
    if fit == clusters.len() || spaces > 0 {
        return LineLength {
            shown: fit,
            taken: fit + spaces,
        };
    }
    match up_to_space(clusters, fit) {
        0 => LineLength {
            shown: fit,
            taken: fit,
        },
        end => LineLength {
            shown: end,
            taken: end,
        },
    }
}

/// Returns the first line of clusters. There must be at least one cluster.
///
/// If the clusters end, or white space follows, the line has all clusters that fit in `limit` columns, and at least
/// one. The white space that follows it is in no line. Otherwise, the line ends with the last white space among them,
/// if there is one.
pub fn first_line(clusters: &[Cluster], limit: u16) -> LineLength
    requires { 1 ≤ length clusters.now }
    ensures line { result ≡ first_line_of limit clusters.now }
    ensures advances { 1 ≤ result.shown }
    ensures ordered { result.shown ≤ result.taken }
    ensures within { result.taken ≤ length clusters.now }
{
    line_of(clusters, fitting(clusters, limit).max(1))
}

// Returns the range of bytes of the first line of clusters.
fn range_of(clusters: &[Cluster], line: LineLength) -> Range<usize>
    requires some { 1 ≤ line.shown }
    requires within { line.shown ≤ length clusters.now }
    ensures { run_of result ≡ line_range line clusters.now }
{
    clusters[0].start..clusters[line.shown - 1].end
}

/// Returns the lines of a text of at most `limit` columns, as ranges of its bytes. An empty text is one empty line.
///
/// No line begins or ends in a grapheme cluster. White space between two lines is in neither, if it does not fit in the
/// first one. Returns an error if an allocation fails.
pub fn lines<D: BidiDataSource>(
    alloc: Global,
    data_source: &D,
    text: &str,
    limit: u16,
) -> Result<Vec<Range<usize>>, AllocError>
    ensures lines { IfOk result (λ v. map run_of v.items ≡ lines_of_text (D.source data_source.now) limit text.now) }
    ensures ranges { IfOk result (λ v. All (IsRangeOf text.now) v.items) }
{
    let clusters = clusters(alloc, data_source, text)?;
    let mut lines = Vec::new(alloc);
    let mut rest = clusters.as_slice();
    while !rest.is_empty() {
        let line = first_line(rest, limit);
        lines.push(range_of(rest, line))?;
        let (_, after) = rest.split_at(line.taken);
        rest = after;
    }
    if lines.is_empty() {
        lines.push(0..0)?;
    }
    Ok(lines)
}
