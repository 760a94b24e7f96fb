//! The boundaries of grapheme clusters (UAX #29), found in one pass over characters.

ghost use Rattle.std.specs.Prelude.{◌≡◌, ℕ, true, ◌&&◌, ◌||◌, List, [], ◌∷◌, map};
ghost use Rattle.ucd_breaks.specs.GraphemeClusterBreak.{grapheme_cluster_break};
ghost use Rattle.ucd_derived.specs.IndicConjunctBreak.{indic_conjunct_break};
ghost use Rattle.unicode_segmentation.specs.Grapheme.{break_by_pair, ends_in_linker, is_consonant, is_extend, is_grapheme_break, is_regional, is_zwj, joins_conjunct, joins_emoji, joins_flag};
ghost use Rattle.bidi_display.specs.ClusterState.{is_plain};

use ucd_breaks::GraphemeClusterBreak;
use ucd_breaks::GraphemeClusterBreak::*;
use ucd_derived::IndicConjunctBreak;
use ucd_emoji::is_extended_pictographic;

// Returns whether a character is plain: one of these frequent ones, which join the character before them only if that is a
// prepended mark (GB9b).
pub(crate) fn is_plain(c: char) -> bool
    ensures { result ≡ is_plain c }
{
    matches!(
        c,
        ' '..='~'
            | '\u{00C0}'..='\u{02FF}'
            | '\u{0370}'..='\u{0482}'
            | '\u{05D0}'..='\u{05EA}'
            | '\u{0620}'..='\u{064A}'
            | '\u{4E00}'..='\u{9FFF}'
    )
}

// Below this character, all linkers and all characters that extend one have the value Extend or ZWJ.
const FIRST_OTHER_LINKER: char = '\u{1CF5}';

/// What the rules GB1 to GB999 need to know of the characters that were read.
///
/// Takes a few bytes, and does not allocate. The clusters are extended ones, by the data of Unicode 18.
#[derive(Clone, Copy, Debug)]
pub struct ClusterState {
    // The value of the last character. At the start of a text it is that of a control: a cluster begins there too (GB1,
    // GB4).
    last: GraphemeClusterBreak,
    // The last character that does not have the value Extend, or U+0000 if there is none. GB11 needs to know whether it
    // is a pictograph, and most texts have no ZWJ that asks for it.
    base: char,
    // Whether the characters end with a linker and characters that extend it (GB9c).
    after_linker: bool,
    // Whether the characters end with a pictograph, characters that extend it, and a ZWJ (GB11).
    after_pictograph_zwj: bool,
    // Whether the characters end with an odd number of regional indicators (GB12, GB13).
    after_half_flag: bool,
}

// Returns whether a cluster begins between two characters with these values, if a rule that reads only these two says
// so (GB3 to GB9b).
fn break_by_pair(left: GraphemeClusterBreak, right: GraphemeClusterBreak) -> Option<bool>
    ensures { result ≡ break_by_pair true left right }
{
    match (left, right) {
        (Cr, Lf) => Some(false),
        (Control | Cr | Lf, _) | (_, Control | Cr | Lf) => Some(true),
        (L, L | V | Lv | Lvt) | (Lv | V, V | T) | (Lvt | T, T) => Some(false),
        (_, Extend | Zwj | SpacingMark) | (Prepend, _) => Some(false),
        _ => None,
    }
}

fn is_extend(value: GraphemeClusterBreak) -> bool
    ensures { result ≡ is_extend value }
{
    matches!(value, Extend)
}

fn is_zwj(value: GraphemeClusterBreak) -> bool
    ensures { result ≡ is_zwj value }
{
    matches!(value, Zwj)
}

fn is_regional(value: GraphemeClusterBreak) -> bool
    ensures { result ≡ is_regional value }
{
    matches!(value, RegionalIndicator)
}

fn is_consonant(c: char) -> bool
    ensures { result ≡ is_consonant (indic_conjunct_break c) }
{
    matches!(
        IndicConjunctBreak::for_char(c),
        IndicConjunctBreak::Consonant
    )
}

impl ClusterState {
    ghost use Rattle.bidi_display.specs.ClusterState.{state_after};

    /// Returns the state at the start of a text.
    pub fn new() -> ClusterState
        ensures { result ≡ state_after [] }
    {
        ClusterState {
            last: Control,
            base: '\0',
            after_linker: false,
            after_pictograph_zwj: false,
            after_half_flag: false,
        }
    }

    /// Reads the next character of a text. Returns whether a cluster begins at it.
    ///
    /// A cluster begins at the first character of a text (GB1). Takes constant time.
    pub fn read(&mut self, c: char) -> bool
        ensures begins { (before after : List ℕ) → self.old ≡ state_after before
            → result ≡ is_grapheme_break true before (c ∷ after) }
        ensures state { (before : List ℕ) → self.old ≡ state_after before → self.new ≡ state_after (c ∷ before) }
    {
        if is_plain(c) {
            let begins = !matches!(self.last, Prepend);
            *self = ClusterState::after_plain(c);
            return begins;
        }
        let value = GraphemeClusterBreak::for_char(c);
        let begins = self.begins(c, value);
        *self = self.after(c, value);
        begins
    }

    // Returns the state after a plain character. The characters before it do not matter.
    pub(crate) fn after_plain(c: char) -> ClusterState
        requires { is_plain c ≡ true }
        ensures { (before : List ℕ) → result ≡ state_after (c ∷ before) }
    {
        ClusterState {
            last: Other,
            base: c,
            ..ClusterState::new()
        }
    }

    // Returns whether a cluster begins at the next character, which has this value.
    fn begins(self, c: char, value: GraphemeClusterBreak) -> bool
        requires { value ≡ grapheme_cluster_break c }
        ensures { (before after : List ℕ) → self ≡ state_after before
            → result ≡ is_grapheme_break true before (c ∷ after) }
    {
        match break_by_pair(self.last, value) {
            Some(is_break) => is_break,
            None => !self.joins(c, value),
        }
    }

    // Returns whether GB9c, GB11, GB12 or GB13 joins the next character, which has this value, to those before it.
    fn joins(self, c: char, value: GraphemeClusterBreak) -> bool
        requires { value ≡ grapheme_cluster_break c }
        ensures { (before : List ℕ) → self ≡ state_after before
            → result ≡ (joins_conjunct before c || joins_emoji before c || joins_flag before c) }
    {
        self.after_linker && is_consonant(c)
            || self.after_pictograph_zwj && is_extended_pictographic(c)
            || self.after_half_flag && is_regional(value)
    }

    // Returns the state after the next character, which has this value.
    fn after(self, c: char, value: GraphemeClusterBreak) -> ClusterState
        requires { value ≡ grapheme_cluster_break c }
        ensures { (before : List ℕ) → self ≡ state_after before → result ≡ state_after (c ∷ before) }
    {
        ClusterState {
            last: value,
            base: if is_extend(value) { self.base } else { c },
            after_linker: self.is_after_linker(c, value),
            after_pictograph_zwj: is_zwj(value) && is_extended_pictographic(self.base),
            after_half_flag: is_regional(value) & !self.after_half_flag,
        }
    }

    // Returns whether the characters end with a linker and characters that extend it, after the next one, which has
    // this value.
    fn is_after_linker(self, c: char, value: GraphemeClusterBreak) -> bool
        requires { value ≡ grapheme_cluster_break c }
        ensures { (before : List ℕ) → self ≡ state_after before
            → result ≡ ends_in_linker (map indic_conjunct_break (c ∷ before)) }
    {
        if c < FIRST_OTHER_LINKER && !is_extend(value) && !is_zwj(value) {
            return false;
        }
        match IndicConjunctBreak::for_char(c) {
            IndicConjunctBreak::Linker => true,
            IndicConjunctBreak::Extend => self.after_linker,
            _ => false,
        }
    }
}
