//! Which characters of a line are displayed, and which of them form a cluster.

ghost use Rattle.std.specs.Prelude.{◌≡◌, ◌<◌, ◌≤◌, ◌∷◌, ℕ, [], List, false, length, map, drop, slice_range, string_bytes, true, ◌+◌, IfOk, OnOk};
ghost use Rattle.std.specs.Str.{chars};
ghost use Rattle.bidi_display.specs.LineClusters.{is_direction_control, is_dropped, joins as joins_in, begins_cluster, displayed_chars, cluster_level};
ghost use Rattle.bidi_display.specs.DisplayedLine.{cluster_of, width_at, clusters_of};
ghost use Rattle.bidi_display.specs.Grouping.{IsFoundPast, IsFoundTo};
ghost use Rattle.bidi_display.specs.Joining.{joining_after, begins_simple, is_simple, IsCluster};
ghost use Rattle.bidi_display.specs.declared.grouping.Joining.{Joining as JoiningOf};
ghost use Rattle.bidi_display.specs.declared.line_char.LineChar.{LineChar as CharOf};
ghost use Rattle.bidi_display.specs.declared.options.Moves.{Moves as MovesOf};
ghost use Rattle.bidi_display.specs.declared.options.DisplayOptions.{DisplayOptions as OptionsOf};

use crate::cluster_state::{ClusterState, is_plain};
use crate::line_char::LineChar;
use crate::line_cluster::LineCluster;
use crate::options::{DisplayOptions, Dropped, Moves};
use crate::width::ClusterWidth;
use bidi_base::char_data::BidiClass;
use bidi_base::classes::{is_nsm, is_removed};
use bidi_base::level::Level;
use std::alloc::AllocError;
use std::ops::Range;

// Returns whether a character is one of the twelve direction controls.
fn is_direction_control(c: char) -> bool
    ensures { result ≡ is_direction_control c }
{
    matches!(
        c,
        '\u{061C}' | '\u{200E}'..='\u{200F}' | '\u{202A}'..='\u{202E}' | '\u{2066}'..='\u{2069}'
    )
}

impl Dropped {
    /// Returns whether a character of a line is not displayed.
    pub fn drops(self, c: &LineChar) -> bool
        ensures { result ≡ is_dropped self c.now }
    {
        match self {
            Dropped::Nothing => false,
            Dropped::Controls => is_direction_control(c.char),
            Dropped::ControlsAndBoundaryNeutrals => {
                is_direction_control(c.char) || matches!(c.class, BidiClass::BN)
            }
        }
    }
}

// What decides whether the next displayed character joins those that are displayed before it.
#[derive(Clone, Copy, Debug)]
struct Joining {
    moves: Moves,
    clusters: ClusterState,
    // The level of the last displayed character, if there is one.
    last: Option<Level>,
}

impl Joining {
    // Returns the state at the start of a line.
    fn new(moves: Moves) -> Joining
        ensures { result ≡ joining_after moves [] }
    {
        Joining {
            moves,
            clusters: ClusterState::new(),
            last: None,
        }
    }

    // Reads the next displayed character. Returns whether it joins those before it.
    fn read(&mut self, c: &LineChar) -> bool
        ensures joins { (moves : MovesOf) → (before : List CharOf) → self.old ≡ joining_after moves before → result ≡ joins_in moves before c.now }
        ensures state { (moves : MovesOf) → (before : List CharOf) → self.old ≡ joining_after moves before
            → self.new ≡ joining_after moves (c.now ∷ before) }
    {
        let last = self.last;
        self.last = Some(c.level);
        match self.moves {
            Moves::Characters => false,
            Moves::Marks => is_nsm(c.class) && last == Some(c.level),
            Moves::Clusters => !self.clusters.read(c.char),
        }
    }

    // Reads a simple character. Those before it do not matter, and need not have been read.
    fn pass(&mut self, c: &LineChar)
        requires { is_simple c.now ≡ true }
        ensures { (moves : MovesOf) → (earlier before : List CharOf) → self.old ≡ joining_after moves earlier
            → self.new ≡ joining_after moves (c.now ∷ before) }
    {
        self.last = Some(c.level);
        if matches!(self.moves, Moves::Clusters) {
            self.clusters = ClusterState::after_plain(c.char);
        }
    }
}

// Returns the end of the cluster that begins at the displayed character with the index `from`, which was read last.
fn cluster_end(dropped: Dropped, chars: &[LineChar], from: usize, joining: &mut Joining) -> usize
    requires within { from < length chars.now }
    ensures advances { from < result }
    ensures ends { result ≤ length chars.now }
    ensures cluster { (options : OptionsOf) → (before rest : List CharOf) → (c : CharOf) → options.dropped ≡ dropped
        → drop from chars.now ≡ c ∷ rest → is_dropped dropped c ≡ false
        → joining.old ≡ joining_after options.moves (c ∷ before) → IsCluster options chars.now from before result joining.new }
{
    let mut end = from + 1;
    let mut ahead = *joining;
    for (skipped, c) in chars[from + 1..].iter().enumerate() {
        if !dropped.drops(c) {
            if !ahead.read(c) {
                break;
            }
            *joining = ahead;
            end = from + skipped + 2;
        }
    }
    end
}

// Replaces a string by the displayed characters of a cluster.
fn collect_displayed(
    dropped: Dropped,
    cluster: &[LineChar],
    out: &mut String,
) -> Result<(), AllocError>
    ensures { (options : OptionsOf) → options.dropped ≡ dropped
        → OnOk result (chars (string_bytes out.new) ≡ map (λ c. c.char) (displayed_chars options cluster.now)) }
{
    out.clear();
    for c in cluster {
        if !dropped.drops(c) {
            out.push(c.char)?;
        }
    }
    Ok(())
}

// Returns the level of a cluster: that of its first displayed character that X9 keeps, or else of its first character.
fn cluster_level(dropped: Dropped, cluster: &[LineChar]) -> Level
    requires { 0 < length cluster.now }
    ensures { (options : OptionsOf) → options.dropped ≡ dropped → result ≡ cluster_level options cluster.now }
{
    for c in cluster {
        if !dropped.drops(c) && !is_removed(c.class) {
            return c.level;
        }
    }
    cluster[0].level
}

// Returns the width of a cluster that begins at a column, from its displayed characters: 0 if there is none.
fn width_at<W: ClusterWidth>(
    options: DisplayOptions,
    widths: &W,
    column: usize,
    displayed: &str,
) -> usize
    ensures { result ≡ width_at options (W.width_of widths.now) column (chars displayed.now) }
{
    match displayed.chars().next() {
        None => 0,
        Some('\t') if options.tab > 0 => options.tab_columns(column),
        Some(_) => widths.width(displayed),
    }
}

// Returns the end of the cluster that begins at `from`. Reads its displayed characters.
fn next_cluster_end(
    dropped: Dropped,
    chars: &[LineChar],
    from: usize,
    joining: &mut Joining,
) -> usize
    requires within { from < length chars.now }
    ensures advances { from < result }
    ensures ends { result ≤ length chars.now }
    ensures cluster { (options : OptionsOf) → (before : List CharOf) → options.dropped ≡ dropped
        → joining.old ≡ joining_after options.moves before → begins_cluster options before (drop from chars.now) ≡ true
        → IsCluster options chars.now from before result joining.new }
{
    let first = &chars[from];
    if dropped.drops(first) {
        return from + 1;
    }
    joining.read(first);
    cluster_end(dropped, chars, from, joining)
}

// Returns the cluster of some characters of a line, which begins at a column. `displayed` is a buffer.
fn measured_cluster<W: ClusterWidth>(
    options: DisplayOptions,
    widths: &W,
    column: usize,
    chars: &[LineChar],
    range: Range<usize>,
    displayed: &mut String,
) -> Result<LineCluster, AllocError>
    requires not_empty { range.start < range.end }
    requires within { range.end ≤ length chars.now }
    ensures { IfOk result
        (λ k. k ≡ cluster_of options (W.width_of widths.now) range.start column (slice_range chars.now range.start range.end)) }
{
    let start = range.start;
    let end = range.end;
    let cluster = &chars[start..end];
    collect_displayed(options.dropped, cluster, displayed)?;
    Ok(LineCluster {
        start: cluster[0].start,
        end: cluster[cluster.len() - 1].end,
        chars_start: start,
        chars_end: end,
        level: cluster_level(options.dropped, cluster),
        width: width_at(options, widths, column, displayed.as_str()),
    })
}

// Returns whether a character is displayed, and does not join a plain character before it, whatever moves.
fn is_simple(c: &LineChar) -> bool
    ensures { result ≡ is_simple c.now }
{
    is_plain(c.char) && !matches!(c.class, BidiClass::BN | BidiClass::NSM)
}

// Returns whether the character after an index is simple, or there is none.
fn next_is_simple(chars: &[LineChar], at: usize) -> bool
    requires { at < length chars.now }
    ensures { result ≡ begins_simple (drop (at + 1) chars.now) }
{
    match chars.get(at + 1) {
        Some(next) => is_simple(next),
        None => true,
    }
}

// Returns the cluster of a simple character with an index in the line.
fn cluster_of_char<W: ClusterWidth>(widths: &W, c: &LineChar, at: usize) -> LineCluster
    requires simple { is_simple c.now ≡ true }
    requires fits { at < 0xFFFFFFFFFFFFFFFF }
    ensures { (options : OptionsOf) → (column : ℕ) → result ≡ cluster_of options (W.width_of widths.now) at column (c.now ∷ []) }
{
    LineCluster {
        start: c.start,
        end: c.end,
        chars_start: at,
        chars_end: at + 1,
        level: c.level,
        width: widths.width_of_char(c.char),
    }
}

// Appends the clusters of the characters from `from` on that are clusters by themselves, because they and those after
// them are simple. `column` is where the next cluster begins. Returns the index of the first other character.
fn push_simple<W: ClusterWidth>(
    widths: &W,
    chars: &[LineChar],
    from: usize,
    column: &mut usize,
    out: &mut Vec<LineCluster>,
) -> Result<usize, AllocError>
    requires { from < length chars.now }
    ensures advances { IfOk result (λ end. from ≤ end) }
    ensures within { IfOk result (λ end. end ≤ length chars.now) }
    ensures found { (options : OptionsOf) → (joining : JoiningOf)
        → IsFoundTo options (W.width_of widths.now) chars.now from column.old joining out.old.items
        → IfOk result (λ end. IsFoundPast options (W.width_of widths.now) chars.now from end column.new joining out.new.items) }
{
    let mut at = from;
    let mut simple = is_simple(&chars[at]);
    while simple && next_is_simple(chars, at) {
        let cluster = cluster_of_char(widths, &chars[at], at);
        *column = column.saturating_add(cluster.width);
        out.push(cluster)?;
        at += 1;
        simple = at < chars.len();
    }
    Ok(at)
}

// Replaces a list by the clusters of a line. `displayed` is a buffer.
pub(crate) fn find_clusters<W: ClusterWidth>(
    options: DisplayOptions,
    widths: &W,
    chars: &[LineChar],
    displayed: &mut String,
    out: &mut Vec<LineCluster>,
) -> Result<(), AllocError>
    ensures { OnOk result (out.new.items ≡ clusters_of options (W.width_of widths.now) chars.now) }
{
    out.clear();
    out.reserve(chars.len())?;
    let mut joining = Joining::new(options.moves);
    let mut column = 0usize;
    let mut from = 0;
    while from < chars.len() {
        let simple = push_simple(widths, chars, from, &mut column, out)?;
        if from < simple {
            joining.pass(&chars[simple - 1]);
            from = simple;
        } else {
            let end = next_cluster_end(options.dropped, chars, from, &mut joining);
            let cluster = measured_cluster(options, widths, column, chars, from..end, displayed)?;
            column = column.saturating_add(cluster.width);
            out.push(cluster)?;
            from = end;
        }
    }
    Ok(())
}
