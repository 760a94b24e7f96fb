//! The first pass over a text. It finds the class of each character, resolves each FSI (X5c), and finds the paragraphs
//! (P1) and their levels (P2, P3).
ghost use Rattle.std.specs.Prelude.{◌≡◌, ℕ, ◌<◌, ◌≤◌, true, false, None, [], length, drop, OnOk, IfOk};
ghost use Rattle.bidi_base.specs.declared.char_data.BidiClass.{BidiClass};
ghost use Rattle.bidi_base.specs.AnalysedText.{AreParagraphs};
ghost use Rattle.bidi_base.specs.Paragraphs.{begins_with_line_feed, ends_after, pieces_by};
ghost use Rattle.bidi_base.specs.Texts.{unit_index, text_len};
ghost use Rattle.bidi_paragraphs.specs.ClassSet.{has};
ghost use Rattle.bidi_paragraphs.specs.FirstPass.{classes_after, stops_at, waiting, with_flags, AreWithin, IsClosed, IsAtStart, IsReadBy, StopsCounting};
ghost use Rattle.bidi_paragraphs.specs.InText.{CanRead, IsReadOn, HasReadSome};
ghost use Rattle.bidi_paragraphs.specs.declared.first_pass.paragraph_state.ParagraphState.{ParagraphState};
ghost use Rattle.bidi_paragraphs.specs.ParagraphInfo.{ranges_of, levels_of};
ghost use Rattle.bidi_paragraphs.specs.ParagraphFlags.{paragraph_flags};

use crate::class_set::ClassSet;
use crate::paragraph_flags::ParagraphFlags;
use crate::paragraph_info::ParagraphInfo;
use bidi_base::char_data::BidiClass;
use bidi_base::classes::{is_isolate_initiator, is_paragraph_separator, is_pdi};
use bidi_base::data_source::BidiDataSource;
use bidi_base::level::Level;
use bidi_base::split_rule::SplitRule;
use bidi_text::text::TextSource;
use smallvec::SmallVec;
use std::alloc::{AllocError, Global};
use std::ops::Range;

mod ascii_characters;
mod other_characters;
mod paragraph_state;
mod progress;
mod stop;
mod unit_classes;

use ascii_characters::skim;
use other_characters::{read_next, read_on};
use paragraph_state::{ParagraphState, Undecided, level_of_class};
use progress::Progress;
use stop::Stop;
use unit_classes::AT_ONCE;

/// The paragraphs that the first pass over a text finds. A single paragraph needs no allocation.
#[derive(Drop)]
pub struct FoundParagraphs {
    /// The paragraphs, in order.
    pub paragraphs: SmallVec<ParagraphInfo, 1>,
    /// One entry for each paragraph.
    pub flags: SmallVec<ParagraphFlags, 1>,
    // The memory of the list of open FSI, which the next pass reuses.
    undecided: Vec<Undecided>,
}

impl FoundParagraphs {
    /// Returns no paragraphs. Does not allocate.
    pub fn new(alloc: Global) -> FoundParagraphs
        ensures paragraphs { result.paragraphs.items ≡ [] }
        ensures flags { result.flags.items ≡ [] }
    {
        FoundParagraphs {
            paragraphs: SmallVec::new(alloc),
            flags: SmallVec::new(alloc),
            undecided: Vec::new(alloc),
        }
    }
}

// The state of the pass, which reads one paragraph after another.
#[derive(Drop)]
struct TextState {
    base_level: Option<Level>,
    state: ParagraphState,
    paragraphs: SmallVec<ParagraphInfo, 1>,
    flags: SmallVec<ParagraphFlags, 1>,
}

impl TextState {
    // Returns the state before the text. The lists reuse the memory of earlier ones.
    fn new(base_level: Option<Level>, memory: FoundParagraphs) -> TextState
        ensures base { result.base_level ≡ base_level }
        ensures state { IsAtStart result.state 0 }
        ensures paragraphs { result.paragraphs.items ≡ [] }
        ensures flags { result.flags.items ≡ [] }
    {
        let mut paragraphs = memory.paragraphs;
        paragraphs.clear();
        let mut flags = memory.flags;
        flags.clear();
        TextState {
            base_level,
            state: ParagraphState::new(memory.undecided),
            paragraphs,
            flags,
        }
    }

    // Ends the current paragraph at a code unit.
    fn close(&mut self, end: usize) -> Result<(), AllocError>
        requires { self.old.state.start ≤ end }
        ensures closed { OnOk result (IsClosed self.old.base_level self.old.state end self.old.paragraphs.items
            self.old.flags.items self.new.paragraphs.items self.new.flags.items) }
        ensures state { self.new.state ≡ self.old.state }
        ensures base { self.new.base_level ≡ self.old.base_level }
    {
        let level = self
            .base_level
            .unwrap_or(level_of_class(self.state.deciding));
        self.paragraphs
            .push(ParagraphInfo::from_range(self.state.start..end, level))?;
        self.flags.push(self.state.flags)?;
        Ok(())
    }

    // Reads a character. Its class must already be written to its code units. `ends` says whether the paragraph ends
    // with it.
    //
    // Without this hint, and that of `ParagraphState::read`, each stop takes 15 to 30 instructions more.
    #[inline(always)]
    fn read_stop(
        &mut self,
        classes: &mut [BidiClass],
        class: BidiClass,
        units: Range<usize>,
        ends: bool,
    ) -> Result<(), AllocError>
        requires within { AreWithin (length classes.old) self.old.state.undecided.items }
        requires few { self.old.state.depth < usize.MAX }
        requires follows { self.old.state.start ≤ units.end }
        ensures classes { OnOk result (classes.new
            ≡ classes_after class (waiting self.old.state.depth self.old.state.undecided.items) classes.old) }
        ensures on { OnOk result (ends ≡ false
            → ((r : ParagraphState) × IsReadBy class units self.old.state r × StopsCounting r self.new.state)
            × (self.new.paragraphs.items ≡ self.old.paragraphs.items)
            × (self.new.flags.items ≡ self.old.flags.items)) }
        ensures ended { OnOk result (ends ≡ true
            → IsAtStart self.new.state units.end
            × ((r : ParagraphState) × IsReadBy class units self.old.state r
            × IsClosed self.old.base_level r units.end self.old.paragraphs.items self.old.flags.items
            self.new.paragraphs.items self.new.flags.items)) }
        ensures base { self.new.base_level ≡ self.old.base_level }
    {
        let end = units.end;
        self.state.read(classes, class, units)?;
        if ends {
            self.close(end)?;
            self.state.restart(end);
        } else {
            self.state.stop_counting();
        }
        Ok(())
    }
}

// Writes the classes of some characters, up to one with a class that is in `stop_classes` or would change the flags.
// Returns that one. If there is none, the index moves past them.
fn read_some<D: BidiDataSource, T: TextSource>(
    data_source: &D,
    text: T,
    classes: &mut [BidiClass],
    progress: &mut Progress,
    stop_classes: ClassSet,
) -> Option<Stop>
    requires { CanRead (T.text text) progress.old.at classes.old }
    ensures { HasReadSome (T.text text) (D.source data_source.now) (has stop_classes) progress.old result
        progress.new classes.old classes.new }
{
    if let Some(stop) = skim(data_source, text, classes, progress, stop_classes) {
        return Some(stop);
    }
    read_on(data_source, text, classes, progress, stop_classes)
}

// Writes the classes of the next characters, up to the first one with a class in `stop_classes`, and adds the flags of
// those before it. Returns that one, or `None` at the text's end.
fn seek_stop<D: BidiDataSource, T: TextSource>(
    data_source: &D,
    text: T,
    classes: &mut [BidiClass],
    progress: &mut Progress,
    stop_classes: ClassSet,
) -> Option<Stop>
    requires { CanRead (T.text text) progress.old.at classes.old }
    ensures stop { IsReadOn (T.text text) (D.source data_source.now) (has stop_classes) progress.old
        result progress.new classes.old classes.new }
    ensures end { result ≡ None → progress.new.at ≡ text_len (T.text text) }
{
    while progress.at < classes.len() {
        if let Some(stop) = read_some(data_source, text, classes, progress, stop_classes) {
            if stop_classes.has(stop.class) {
                return Some(stop);
            }
            progress.at = stop.start + stop.len;
            progress.flags = progress.flags.with(stop.class);
        }
    }
    None
}

// After an isolate initiator or a PDI, the characters that begin within this many code units are read one by one,
// unless the state is decided. The next initiator or PDI is often among them, and a search for it costs more.
const TESTED_SINGLY: usize = 4;

// Writes the classes of the characters from an index on, up to the first one that would change more of the paragraph's
// state than its flags. Returns that one, or `None` at the text's end. The flags of those before it are added to the
// state. If `near`, this may return the next character, whatever it changes.
fn next_stop<D: BidiDataSource, T: TextSource>(
    data_source: &D,
    text: T,
    classes: &mut [BidiClass],
    from: usize,
    state: &mut ParagraphState,
    near: bool,
) -> Option<Stop>
    requires { CanRead (T.text text) from classes.old }
    ensures stop { IsReadOn (T.text text) (D.source data_source.now) (stops_at state.old)
        (record { at = from; flags = state.old.flags }) result
        (record { at = text_len (T.text text); flags = state.new.flags }) classes.old classes.new }
    ensures outside { state.new ≡ with_flags state.old state.new.flags }
{
    if near && T::READS_IN_PLACE && classes.len() - from >= AT_ONCE {
        return Some(read_next(data_source, text, classes, from));
    }
    let mut progress = Progress {
        at: from,
        flags: state.flags,
    };
    let stop = seek_stop(
        data_source,
        text,
        classes,
        &mut progress,
        state.stop_classes(),
    );
    state.flags = progress.flags;
    stop
}

// Returns the index up to which characters are read one by one, after a character of this class that ends at `end`.
fn near_end_after(near_end: usize, end: usize, class: BidiClass, state: &ParagraphState) -> usize {
    if state.is_decided() {
        return near_end;
    }
    if is_isolate_initiator(class) || is_pdi(class) {
        end.saturating_add(TESTED_SINGLY)
    } else {
        near_end
    }
}

// Returns whether a line feed that separates paragraphs begins at an index. The index must be that of a character, or
// the text's length.
fn goes_on_with_line_feed<D: BidiDataSource, T: TextSource>(
    data_source: &D,
    text: T,
    place: usize,
) -> bool
    ensures { (n : ℕ) → place ≡ unit_index (T.text text) n
        → result ≡ begins_with_line_feed (D.source data_source.now) (drop n (T.text text).chars) }
{
    match text.char_at(place) {
        Some((c, _)) => c == '\n' && is_paragraph_separator(data_source.bidi_class(c)),
        None => false,
    }
}

// Returns whether a paragraph ends after a character, given its class and its end in the text.
fn ends_paragraph<D: BidiDataSource, T: TextSource>(
    data_source: &D,
    text: T,
    rule: Option<SplitRule>,
    c: char,
    class: BidiClass,
    end: usize,
) -> bool
    requires { class ≡ (D.source data_source.now).class_of c }
    ensures { (n : ℕ) → end ≡ unit_index (T.text text) n
        → result ≡ ends_after rule (D.source data_source.now) c (drop n (T.text text).chars) }
{
    match rule {
        None => false,
        Some(SplitRule::EachSeparator) => is_paragraph_separator(class),
        Some(SplitRule::CrLfTogether) => {
            is_paragraph_separator(class)
                && !(c == '\r' && goes_on_with_line_feed(data_source, text, end))
        }
    }
}

/// Writes the stored classes (X5c) of a text, one for each code unit, and returns its paragraphs (P1) with their
/// levels.
///
/// `base_level` is the level of every paragraph. If it is `None`, each paragraph gets its level from its characters
/// (P2, P3). `rule` says where paragraphs end. `classes` has one entry for each code unit. Takes time linear in the
/// text.
///
/// If `rule` is `None`, the whole text is one paragraph, even if it is empty. Any base level is accepted. The result
/// reuses the lists of `memory`, which are emptied first.
///
/// A text of one paragraph without FSI needs no allocation. With FSI, it needs one if the list of `memory` is too short
/// for those that are open at once. If an allocation fails, `classes` may hold anything.
pub fn walk<D: BidiDataSource, T: TextSource>(
    data_source: &D,
    text: T,
    base_level: Option<Level>,
    rule: Option<SplitRule>,
    classes: &mut [BidiClass],
    memory: FoundParagraphs,
) -> Result<FoundParagraphs, AllocError>
    requires { length classes.old ≡ text_len (T.text text) }
    ensures paragraphs { IfOk result (λ i. AreParagraphs (D.source data_source.now) base_level rule
        T.encoding.len_of (T.text text).chars classes.new (ranges_of i.paragraphs.items) (levels_of i.paragraphs.items)) }
    ensures flags { let pieces = pieces_by rule (D.source data_source.now) (T.text text).chars in
        IfOk result (λ i. i.flags.items ≡ paragraph_flags (D.source data_source.now) pieces) }
{
    let mut walk = TextState::new(base_level, memory);
    let mut at = 0;
    let mut near_end = 0;
    while let Some(stop) = next_stop(
        data_source,
        text,
        classes,
        at,
        &mut walk.state,
        at < near_end,
    ) {
        at = stop.start + stop.len;
        let ends = ends_paragraph(data_source, text, rule, stop.c, stop.class, at);
        walk.read_stop(classes, stop.class, stop.start..at, ends)?;
        near_end = near_end_after(near_end, at, stop.class, &walk.state);
    }
    let end = text.len();
    if rule.is_none() || walk.state.start < end {
        walk.close(end)?;
    }
    Ok(FoundParagraphs {
        paragraphs: walk.paragraphs,
        flags: walk.flags,
        undecided: walk.state.undecided,
    })
}
