//! Where a paragraph is cut into lines, by the widths of its clusters.

ghost use Rattle.std.specs.Prelude.{◌≡◌, ℕ, ◌<◌, ◌≤◌, ◌+◌, ◌^◌, ◌++◌, All, List, drop, length, map, OnOk, OnErr};
ghost use Rattle.std.specs.declared.ops.Range.{Range as RangeOf};
ghost use Rattle.bidi_base.specs.AnalysedText.{AnalysedText, IsLineOf};
ghost use Rattle.bidi_base.specs.Display.{run_of};
ghost use Rattle.bidi_base.specs.Paragraphs.{IsPartition};
ghost use Rattle.bidi_display.specs.declared.line_char.LineChar.{LineChar as CharOf};
ghost use Rattle.bidi_display.specs.declared.line_breaks.Break.{Break as BreakOf};
ghost use Rattle.bidi_display.specs.LineBreaks.{are_white_space as are_white_space_in, begins_with_tab as begins_with_tab_in, first_line_length, given_break as given_break_of, given_break_after, is_forced as is_forced_by, is_white_space as is_white_space_class, last_end as last_end_of, lines_of, overflows as overflows_at, shown_end, shown_length as shown_length_of, simple_break as simple_break_of, simple_break_after, width_in_line as width_in};
ghost use Rattle.bidi_display.specs.LineClusters.{displayed_chars};

use crate::appending::push_or_cut;
use crate::displayed_line::DisplayedLine;
use crate::line_char::LineChar;
use crate::line_cluster::LineCluster;
use crate::options::DisplayOptions;
use bidi_base::char_data::BidiClass;
use std::alloc::AllocError;
use std::ops::Range;

/// Whether a line may end after a cluster.
#[derive(Clone, Copy, Debug, PartialEq)]
pub enum Break {
    /// It may not, except after white space that follows an allowed break, or if the line has no allowed break.
    Forbidden,
    /// It may.
    Allowed,
    /// It must.
    Forced,
}

/// Where lines may end, and where they must.
pub trait LineBreaks {
    /// Whether a line may end after a cluster, as a function of the cluster's characters.
    ghost break_after_of: { Self → List CharOf → BreakOf };

    /// Returns whether a line may end after a cluster, given the cluster's characters.
    ///
    /// The same characters must always give the same result. An implementation with a list of breaks can look up the
    /// `end` of the last character: it is the index of the code unit after the cluster.
    fn break_after(&self, cluster: &[LineChar]) -> Break
        ensures { result ≡ break_after_of self.now cluster.now };
}

/// The simple rule: a line may end after white space, and must end after U+2028, VT and FF.
///
/// It reads the last character of a cluster. White space has the class WS, S or B.
#[derive(Clone, Copy, Debug)]
pub struct SimpleBreaks;

// Returns whether a character of this class is white space or a separator.
fn is_white_space(class: BidiClass) -> bool
    ensures { result ≡ is_white_space_class class }
{
    matches!(class, BidiClass::B | BidiClass::S | BidiClass::WS)
}

// Returns whether a line may end after a character, by the simple rule.
fn simple_break(c: &LineChar) -> Break
    ensures { result ≡ simple_break_of c.now }
{
    match c.char {
        '\u{2028}' | '\u{B}' | '\u{C}' => Break::Forced,
        _ if is_white_space(c.class) => Break::Allowed,
        _ => Break::Forbidden,
    }
}

impl LineBreaks for SimpleBreaks {
    ghost break_after_of = { λ _ cluster. simple_break_after cluster };

    fn break_after(&self, cluster: &[LineChar]) -> Break {
        match cluster.last() {
            None => Break::Forbidden,
            Some(c) => simple_break(c),
        }
    }
}

/// Where lines may end and must end, for each code unit of a text: whether a line may end after it.
///
/// It looks up the last code unit of a cluster, by the `end` of its last character. A line may not end after a cluster
/// that ends past the list.
#[derive(Clone, Copy, Debug)]
pub struct GivenBreaks<'b> {
    after: &'b [Break],
}

impl<'b> GivenBreaks<'b> {
    /// Returns the breaks of a text, given whether a line may end after each of its code units.
    pub fn new(after: &'b [Break]) -> GivenBreaks<'b>
        ensures { result.after.now ≡ after.now }
    {
        GivenBreaks { after }
    }
}

// Returns the break that is given after a character.
fn given_break(after: &[Break], c: &LineChar) -> Break
    ensures { result ≡ given_break_of after.now c.now }
{
    if c.end == 0 {
        return Break::Forbidden;
    }
    match after.get(c.end - 1) {
        Some(given) => *given,
        None => Break::Forbidden,
    }
}

impl LineBreaks for GivenBreaks<'_> {
    ghost break_after_of = { λ self cluster. given_break_after self.after.now cluster };

    fn break_after(&self, cluster: &[LineChar]) -> Break {
        match cluster.last() {
            None => Break::Forbidden,
            Some(c) => given_break(self.after, c),
        }
    }
}

// Returns whether characters are all white space or separators.
fn are_white_space(chars: &[LineChar]) -> bool
    ensures { result ≡ are_white_space_in chars.now }
{
    chars.iter().all(|c| is_white_space(c.class))
}

// Returns whether the first displayed one of some characters is a tab that goes to a tab stop.
fn begins_with_tab(options: DisplayOptions, chars: &[LineChar]) -> bool
    ensures { result ≡ begins_with_tab_in options (displayed_chars options chars.now) }
{
    if options.tab == 0 {
        return false;
    }
    for c in chars {
        if !options.dropped.drops(c) {
            return c.char == '\t';
        }
    }
    false
}

// Returns whether a line must end.
fn is_forced(after: Break) -> bool
    ensures { result ≡ is_forced_by after }
{
    matches!(after, Break::Forced)
}

// Returns whether a cluster does not fit in a line.
//
// `white` says whether it is white space. It begins at the column `before` of the line, and ends at `column`. The first
// cluster that has a width fits, and so do clusters without width, and white space.
fn overflows(limit: usize, before: usize, white: bool, width: usize, column: usize) -> bool
    ensures { result ≡ overflows_at limit before white width column }
{
    before > 0 && !white && width > 0 && column > limit
}

// Returns after how many clusters a line may last end, after one more is read.
//
// `after` says whether it may end after that cluster, and `white` whether the cluster is white space. `index` clusters
// were read before, and `last` is what this function returned for them, or 0.
fn last_end(after: Break, white: bool, index: usize, last: usize) -> usize
    requires { index + 1 < 2 ^ 64 }
    ensures { result ≡ last_end_of after white index last }
{
    if matches!(after, Break::Allowed) || index > 0 && last == index && white {
        index + 1
    } else {
        last
    }
}

impl DisplayedLine {
    ghost use Rattle.bidi_display.specs.Shown.{chars as chars_in, clusters as clusters_in, options as options_of, laid_out, Displays};

    // Returns the width of a cluster that begins at a column of a line.
    fn width_in_line(&self, column: usize, cluster: &LineCluster) -> usize
        requires start { cluster.now.chars_start ≤ cluster.now.chars_end }
        requires end { cluster.now.chars_end ≤ length (chars_in self.now) }
        ensures { result ≡ width_in (options_of self.now) (chars_in self.now) column cluster.now }
    {
        let options = self.options();
        if begins_with_tab(options, self.chars_of(cluster)) {
            options.tab_columns(column)
        } else {
            cluster.width
        }
    }

    // Returns how many of the clusters from `from` on the next line has.
    fn line_length<B: LineBreaks>(&self, breaks: &B, limit: usize, from: usize) -> usize
        requires { from < length (clusters_in self.now) }
        ensures length { result ≡ first_line_length (options_of self.now) (B.break_after_of breaks.now) limit
            (chars_in self.now) (drop from (clusters_in self.now)) }
        ensures some { 1 ≤ result }
        ensures within { from + result ≤ length (clusters_in self.now) }
    {
        let mut column = 0usize;
        // The line may end after this many clusters.
        let mut last = 0;
        let rest = &self.clusters()[from..];
        for (index, cluster) in rest.iter().enumerate() {
            let chars = self.chars_of(cluster);
            let white = are_white_space(chars);
            let width = self.width_in_line(column, cluster);
            let before = column;
            column = before.saturating_add(width);
            if overflows(limit, before, white, width, column) {
                return if last == 0 { index } else { last };
            }
            let after = breaks.break_after(chars);
            if is_forced(after) {
                return index + 1;
            }
            last = last_end(after, white, index, last);
        }
        rest.len()
    }

    /// Appends the lines of a paragraph that is displayed as one line, as ranges of code units.
    ///
    /// A line takes clusters until it must end, or until the next one does not fit in `limit` columns. The first
    /// cluster of a line that has a width, white space, and clusters without width always fit. If the next cluster does
    /// not fit, the line ends after the last cluster after which it may end, and the white space that follows. If it may
    /// end after none, it ends before the cluster that does not fit. No line ends inside a cluster. Tab stops are
    /// counted from the start of each line.
    ///
    /// Together the lines are the whole paragraph, and none is empty. Takes time linear in the paragraph. If an
    /// allocation fails, `out` has the lines that it had before.
    pub fn push_lines<B: LineBreaks>(
        &self,
        breaks: &B,
        limit: usize,
        out: &mut Vec<Range<usize>>,
    ) -> Result<(), AllocError>
        ensures lines { OnOk result (map run_of out.new.items ≡ map run_of out.old.items
            ++ lines_of (options_of self.now) (B.break_after_of breaks.now) limit (chars_in self.now)
            (laid_out self.now).start (clusters_in self.now)) }
        ensures whole { OnOk result (IsPartition (laid_out self.now).start (laid_out self.now).end
            (map run_of (drop (length out.old.items) out.new.items))) }
        ensures are_lines { (width_of : List ℕ → ℕ) (a : AnalysedText) (level : ℕ) (range : RangeOf ℕ)
            → Displays width_of a level range self.now
            → OnOk result (All (IsLineOf a) (drop (length out.old.items) out.new.items)) }
        ensures unchanged { OnErr result (out.new.items ≡ out.old.items) }
    {
        let len = out.len();
        let mut from = 0;
        let mut start = self.range().start;
        while from < self.clusters().len() {
            from += self.line_length(breaks, limit, from);
            let end = self.clusters()[from - 1].end;
            push_or_cut(start..end, len, out)?;
            start = end;
        }
        Ok(())
    }

    // Returns how many clusters the line has before those at its end that are white space or separators.
    fn shown_length(&self) -> usize
        ensures count { result ≡ shown_length_of (chars_in self.now) (clusters_in self.now) }
        ensures within { result ≤ length (clusters_in self.now) }
    {
        let clusters = self.clusters();
        let mut count = clusters.len();
        while count > 0 && are_white_space(self.chars_of(&clusters[count - 1])) {
            count -= 1;
        }
        count
    }

    /// Returns the range of the line without the white space (WS, S) and the separators (B) at its end.
    ///
    /// It ends after the last cluster that has a character of another class. If there is none, it is empty. It cuts no
    /// character, so it can be passed to `show`. Takes time linear in the clusters that it leaves out.
    pub fn shown_part(&self) -> Range<usize>
        ensures start { result.start ≡ (laid_out self.now).start }
        ensures end { result.end ≡ shown_end (chars_in self.now) (laid_out self.now).start (clusters_in self.now) }
        ensures is_line { (width_of : List ℕ → ℕ) (a : AnalysedText) (level : ℕ) (range : RangeOf ℕ)
            → Displays width_of a level range self.now → IsLineOf a result }
    {
        let start = self.range().start;
        match self.shown_length() {
            0 => start..start,
            count => start..self.clusters()[count - 1].end,
        }
    }
}
