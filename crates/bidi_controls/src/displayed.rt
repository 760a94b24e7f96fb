//! How lines are displayed, and which of them are displayed differently from how they read.
ghost use Rattle.std.specs.Prelude.{◌≡◌, ◌<◌, ◌≤◌, true, ◌&&◌, ◌||◌, not, if◌then◌else◌, All, None, Some, length, map, position, OnOk, IfOk, IfSome};
ghost use Rattle.bidi_base.specs.Order.{visual_order, IsVisualOrder};
ghost use Rattle.bidi_base.specs.Paragraphs.{own_chars as own_chars_of};
ghost use Rattle.bidi_controls.specs.Controls.{is_control_or_mark as is_control_or_mark_of};
ghost use Rattle.bidi_controls.specs.Comparison.{IsShown, IsOfLine, IsPlainOf};
ghost use Rattle.bidi_controls.specs.Displayed.{displayed_levels, visible_ascii, first_moved, are_same, mirrored_ascii as mirrored_ascii_of, shown_at as shown_at_of, shown_char, shown_in_order, shown_ascii};
ghost use Rattle.bidi_controls.specs.Displayed.{without_controls, plain_line, has_control_or_mark as has_control_or_mark_of, has_right_to_left as has_right_to_left_of};
ghost use Rattle.bidi_controls.specs.Displayed.{is_as_read, is_displayed_differently, differing_level, moving_level, is_right_to_left as is_right_to_left_of};
ghost use Rattle.bidi_controls.specs.Findings.{wanted_differing};

use crate::control::is_control_or_mark;
use crate::differing::Differing;
use crate::finding::{Trouble, Wanted};
use crate::lines::own_chars;
use crate::own_level::own_level;
use crate::placeholders::write_plain;
use crate::unmatched::is_control;
use bidi_base::char_data::BidiClass;
use bidi_base::data_source::BidiDataSource;
use bidi_base::level::{LTR_LEVEL, Level, has_rtl};
use bidi_lines::line_levels::reset_levels;
use bidi_lines::visual_order::write_visual_order;
use bidi_text::text::CharsText;
use std::alloc::{AllocError, Global};
use std::mem;
use unicode_bidi::engine::ParagraphAnalysis;

// Replaces a list by the visual order of some levels (L2).
fn replace_order(levels: &[Level], order: &mut Vec<usize>) -> Result<(), AllocError>
    ensures order { OnOk result (order.new.items ≡ visual_order levels.now) }
    ensures visual { OnOk result (IsVisualOrder levels.now order.new.items) }
{
    order.resize(levels.len(), 0)?;
    write_visual_order(levels, order.as_mut_slice());
    Ok(())
}

// Replaces a list by the visible ASCII of some characters.
fn write_visible_ascii(chars: &[char], out: &mut Vec<u8>) -> Result<(), AllocError>
    ensures { OnOk result (out.new.items ≡ visible_ascii chars.now) }
{
    out.clear();
    for c in chars {
        if c.is_ascii_graphic() {
            out.push(*c as u8)?;
        }
    }
    Ok(())
}

// Returns the index of the first displayed character that is visible ASCII, and not the next one of what is read. If there
// is none, returns the number of displayed characters.
fn first_moved(displayed: &[char], read: &[u8]) -> usize
    ensures { result ≡ first_moved displayed.now read.now }
{
    let mut rest = read;
    for (index, c) in displayed.iter().enumerate() {
        if c.is_ascii_graphic() {
            match rest {
                [next, after @ ..] if char::from(*next) == *c => rest = after,
                _ => return index,
            }
        }
    }
    displayed.len()
}

// Returns the mirrored partner of an ASCII character, or the character itself if it has none.
//
// The partner of an ASCII character is ASCII, and no other character has a partner in ASCII. So these eight are all.
fn mirrored_ascii(c: char) -> char
    ensures { result ≡ mirrored_ascii_of c }
{
    match c {
        '(' => ')',
        ')' => '(',
        '<' => '>',
        '>' => '<',
        '[' => ']',
        ']' => '[',
        '{' => '}',
        '}' => '{',
        _ => c,
    }
}

// Returns a character as a device shows it at a level: mirrored if the level is odd (L4), among ASCII alone.
fn shown_at(level: Level, c: char) -> char
    ensures { result ≡ shown_at_of level c }
{
    if level.is_rtl() { mirrored_ascii(c) } else { c }
}

// Replaces a list by the visible ASCII of a line at some indexes, as a device shows it.
fn write_ascii_in_order(
    line: &[char],
    levels: &[Level],
    order: &[usize],
    out: &mut Vec<u8>,
) -> Result<(), AllocError>
    requires same_len { length levels.now ≡ length line.now }
    requires indexes { All (λ index. index < length line.now) order.now }
    ensures { OnOk result (out.new.items ≡ visible_ascii (map (shown_char levels.now line.now) order.now)) }
{
    out.clear();
    for index in order {
        let c = shown_at(levels[*index], line[*index]);
        if c.is_ascii_graphic() {
            out.push(c as u8)?;
        }
    }
    Ok(())
}

// Replaces a list by the characters of a line at some indexes, as a device shows them, without direction controls.
fn write_in_order<D: BidiDataSource>(
    data_source: &D,
    line: &[char],
    levels: &[Level],
    order: &[usize],
    out: &mut Vec<char>,
) -> Result<(), AllocError>
    requires same_len { length levels.now ≡ length line.now }
    requires indexes { All (λ index. index < length line.now) order.now }
    ensures { OnOk result (out.new.items ≡ without_controls (D.source data_source.now) (map (shown_char levels.now line.now) order.now)) }
{
    out.clear();
    for index in order {
        let c = shown_at(levels[*index], line[*index]);
        if !is_control(data_source.bidi_class(c)) {
            out.push(c)?;
        }
    }
    Ok(())
}

// Returns whether some character is a direction control or a mark.
fn has_control_or_mark<D: BidiDataSource>(data_source: &D, chars: &[char]) -> bool
    ensures { result ≡ has_control_or_mark_of (D.source data_source.now) chars.now }
{
    chars.iter().any(|c| is_control_or_mark(data_source, *c))
}

// Returns whether a character of this class is displayed from right to left, or in a text from right to left.
fn is_right_to_left(class: BidiClass) -> bool
    ensures { result ≡ is_right_to_left_of class }
{
    matches!(class, BidiClass::R | BidiClass::AL | BidiClass::AN)
}

// Returns whether some character is of such a class.
fn has_right_to_left<D: BidiDataSource>(data_source: &D, chars: &[char]) -> bool
    ensures { result ≡ has_right_to_left_of (D.source data_source.now) chars.now }
{
    chars
        .iter()
        .any(|c| is_right_to_left(data_source.bidi_class(*c)))
}

// Returns the index of the first direction control or mark among some characters.
fn first_control_or_mark<D: BidiDataSource>(data_source: &D, chars: &[char]) -> Option<usize>
    ensures place { result ≡ position (λ c. is_control_or_mark_of (D.source data_source.now) c) chars.now }
    ensures within { IfSome result (λ place. place < length chars.now) }
{
    chars
        .iter()
        .position(|c| is_control_or_mark(data_source, *c))
}

// Returns the index of the first character of class R, AL or AN.
fn first_right_to_left<D: BidiDataSource>(data_source: &D, chars: &[char]) -> Option<usize>
    ensures place { result ≡ position (λ c. is_right_to_left_of ((D.source data_source.now).class_of c)) chars.now }
    ensures within { IfSome result (λ place. place < length chars.now) }
{
    chars
        .iter()
        .position(|c| is_right_to_left(data_source.bidi_class(*c)))
}

// What a device shows of a line.
#[derive(Drop)]
struct Shown {
    // The base level with which the line is shown. `None` if it is not shown yet.
    base_level: Option<Level>,
    // The levels of its characters after L1.
    levels: Vec<Level>,
    // Its visible ASCII, from left to right.
    ascii: Vec<u8>,
}

impl Shown {
    // Returns what is shown of no line. Allocates nothing.
    fn new(alloc: Global) -> Shown {
        Shown {
            base_level: None,
            levels: Vec::new(alloc),
            ascii: Vec::new(alloc),
        }
    }

    // Returns whether the line is shown with this base level.
    fn is_with(&self, base_level: Level) -> bool
        ensures { result ≡ true → self.now.base_level ≡ Some base_level }
    {
        match self.base_level {
            Some(level) => level.number() == base_level.number(),
            None => false,
        }
    }
}

// Shows one line after another, and reuses its memory.
#[derive(Drop)]
struct Display {
    // One class and one level for each character of the line.
    analysis: ParagraphAnalysis,
    // The indexes of the line's characters, from left to right.
    order: Vec<usize>,
}

impl Display {
    // Returns a value that has shown nothing. Allocates nothing.
    fn new(alloc: Global) -> Display {
        Display {
            analysis: ParagraphAnalysis::new(alloc),
            order: Vec::new(alloc),
        }
    }

    // Finds the levels of a line's characters after L1. They replace `levels`.
    fn find_levels<D: BidiDataSource>(
        &mut self,
        alloc: Global,
        data_source: &D,
        base_level: Level,
        line: &[char],
        levels: &mut Vec<Level>,
    ) -> Result<(), AllocError>
        requires { base_level ≤ 125 }
        ensures { OnOk result (levels.new.items ≡ displayed_levels (D.source data_source.now) (Some base_level) line.now) }
    {
        let analysis = &mut self.analysis;
        analysis.find(alloc, data_source, CharsText::new(line), Some(base_level))?;
        let classes = analysis.classes.as_slice();
        reset_levels(analysis.level, classes, analysis.levels.as_mut_slice());
        mem::swap(levels, &mut analysis.levels);
        Ok(())
    }

    // Replaces a list by the visible ASCII that a device shows of a line with these levels.
    #[tactic(auto, using(crate::proofs::DisplayedLemmas::shown_even), unfolding(crate::specs::Displayed::shown_in_order))]
    fn write_ascii(
        &mut self,
        line: &[char],
        levels: &[Level],
        out: &mut Vec<u8>,
    ) -> Result<(), AllocError>
        requires { length levels.now ≡ length line.now }
        ensures { OnOk result (out.new.items ≡ visible_ascii (shown_in_order levels.now line.now)) }
    {
        // If no level is odd, the characters stay in order.
        if !has_rtl(levels) {
            return write_visible_ascii(line, out);
        }
        replace_order(levels, &mut self.order)?;
        write_ascii_in_order(line, levels, self.order.as_slice(), out)
    }

    // Shows a line with this base level, unless it is shown with it already.
    fn show<D: BidiDataSource>(
        &mut self,
        alloc: Global,
        data_source: &D,
        base_level: Level,
        line: &[char],
        shown: &mut Shown,
    ) -> Result<(), AllocError>
        requires low { base_level ≤ 125 }
        requires so_far { IsShown (D.source data_source.now) line.now shown.old }
        ensures shown { OnOk result (IsShown (D.source data_source.now) line.now shown.new) }
        ensures base_level { OnOk result (shown.new.base_level ≡ Some base_level) }
    {
        if shown.is_with(base_level) {
            return Ok(());
        }
        shown.base_level = None;
        self.find_levels(alloc, data_source, base_level, line, &mut shown.levels)?;
        self.write_ascii(line, shown.levels.as_slice(), &mut shown.ascii)?;
        shown.base_level = Some(base_level);
        Ok(())
    }

    // Replaces a list by the characters that a device shows of a line with these levels, without direction controls.
    #[tactic(auto, unfolding(crate::specs::Displayed::shown_in_order))]
    fn write_chars<D: BidiDataSource>(
        &mut self,
        data_source: &D,
        line: &[char],
        levels: &[Level],
        out: &mut Vec<char>,
    ) -> Result<(), AllocError>
        requires { length levels.now ≡ length line.now }
        ensures { OnOk result (out.new.items ≡ without_controls (D.source data_source.now) (shown_in_order levels.now line.now)) }
    {
        replace_order(levels, &mut self.order)?;
        write_in_order(data_source, line, levels, self.order.as_slice(), out)
    }
}

/// Compares how lines are displayed with how they read.
///
/// Compares one line after another, and reuses its memory. A line is analysed at most once with each base level, and so is
/// the line without its controls and marks but those of placeholder isolates.
#[derive(Drop)]
pub struct DisplayComparison {
    display: Display,
    // The visible ASCII of the line as it is read.
    read: Vec<u8>,
    shown: Shown,
    // The line without its controls and marks but those of placeholder isolates, and what a device shows of it then.
    plain: Vec<char>,
    plain_shown: Shown,
}

impl DisplayComparison {
    /// Returns a value that has compared nothing. Allocates nothing.
    pub fn new(alloc: Global) -> DisplayComparison {
        DisplayComparison {
            display: Display::new(alloc),
            read: Vec::new(alloc),
            shown: Shown::new(alloc),
            plain: Vec::new(alloc),
            plain_shown: Shown::new(alloc),
        }
    }

    // Reads a line.
    fn read<D: BidiDataSource>(&mut self, data_source: &D, line: &[char]) -> Result<(), AllocError>
        ensures { OnOk result (IsOfLine (D.source data_source.now) line.now self.new) }
    {
        self.shown.base_level = None;
        write_visible_ascii(line, &mut self.read)
    }

    // Reads a line without its controls and marks but those of placeholder isolates.
    fn read_plain<D: BidiDataSource>(
        &mut self,
        data_source: &D,
        line: &[char],
    ) -> Result<(), AllocError>
        requires { IsOfLine (D.source data_source.now) line.now self.old }
        ensures of_line { OnOk result (IsOfLine (D.source data_source.now) line.now self.new) }
        ensures plain { OnOk result (IsPlainOf (D.source data_source.now) line.now self.new) }
    {
        self.plain_shown.base_level = None;
        write_plain(data_source, line, &mut self.plain)
    }

    // Returns whether the visible ASCII that a device shows of the line with a base level is what is read.
    fn is_as_read<D: BidiDataSource>(
        &mut self,
        alloc: Global,
        data_source: &D,
        line: &[char],
        base_level: Level,
    ) -> Result<bool, AllocError>
        requires low { base_level ≤ 125 }
        requires of_line { IsOfLine (D.source data_source.now) line.now self.old }
        ensures same { IfOk result (λ same. same ≡ is_as_read (D.source data_source.now) (Some base_level) line.now) }
        ensures of_line { OnOk result (IsOfLine (D.source data_source.now) line.now self.new) }
        ensures base_level { OnOk result (self.new.shown.base_level ≡ Some base_level) }
    {
        self.display
            .show(alloc, data_source, base_level, line, &mut self.shown)?;
        Ok(self.shown.ascii.as_slice() == self.read.as_slice())
    }

    // Returns whether the visible ASCII that a device shows of the line with a base level is neither what is read, nor
    // what it shows with `plain_level` without the controls and marks but those of placeholder isolates.
    fn differs<D: BidiDataSource>(
        &mut self,
        alloc: Global,
        data_source: &D,
        line: &[char],
        base_level: Level,
        plain_level: Level,
    ) -> Result<bool, AllocError>
        requires low { base_level ≤ 125 }
        requires plain_low { plain_level ≤ 125 }
        requires of_line { IsOfLine (D.source data_source.now) line.now self.old }
        requires plain { IsPlainOf (D.source data_source.now) line.now self.old }
        ensures differs { let source = D.source data_source.now in
            IfOk result (λ found. found ≡ (not (is_as_read source (Some base_level) line.now)
            && not (are_same (shown_ascii source (Some base_level) line.now)
            (shown_ascii source (Some plain_level) (plain_line source line.now))))) }
        ensures of_line { OnOk result (IsOfLine (D.source data_source.now) line.now self.new) }
        ensures plain { OnOk result (IsPlainOf (D.source data_source.now) line.now self.new) }
        ensures base_level { OnOk result (self.new.shown.base_level ≡ Some base_level) }
    {
        self.display
            .show(alloc, data_source, base_level, line, &mut self.shown)?;
        if self.shown.ascii.as_slice() == self.read.as_slice() {
            return Ok(false);
        }
        let plain = self.plain.as_slice();
        self.display.show(
            alloc,
            data_source,
            plain_level,
            plain,
            &mut self.plain_shown,
        )?;
        Ok(self.shown.ascii.as_slice() != self.plain_shown.ascii.as_slice())
    }

    // Returns the base level with which the line is displayed differently from how it reads, if it is.
    fn differing_level<D: BidiDataSource>(
        &mut self,
        alloc: Global,
        data_source: &D,
        line: &[char],
    ) -> Result<Option<Level>, AllocError>
        requires { IsOfLine (D.source data_source.now) line.now self.old }
        ensures level { let source = D.source data_source.now in
            IfOk result (λ level. level
            ≡ (if is_displayed_differently source line.now then Some (differing_level source line.now) else None)) }
        ensures of_line { OnOk result (IsOfLine (D.source data_source.now) line.now self.new) }
        ensures shown { IfOk result (λ found. IfSome found (λ level. self.new.shown.base_level ≡ Some level)) }
    {
        if !has_control_or_mark(data_source, line) {
            return Ok(None);
        }
        self.read_plain(data_source, line)?;
        if self.differs(alloc, data_source, line, LTR_LEVEL, LTR_LEVEL)? {
            return Ok(Some(LTR_LEVEL));
        }
        let level = own_level(data_source, line);
        let plain_level = own_level(data_source, self.plain.as_slice());
        let differs = self.differs(alloc, data_source, line, level, plain_level)?;
        Ok(differs.then_some(level))
    }

    // Returns the base level with which the visible ASCII that a device shows of the line is not what is read, if there is
    // one.
    fn moving_level<D: BidiDataSource>(
        &mut self,
        alloc: Global,
        data_source: &D,
        line: &[char],
    ) -> Result<Option<Level>, AllocError>
        requires { IsOfLine (D.source data_source.now) line.now self.old }
        ensures level { let source = D.source data_source.now in
            IfOk result (λ level. level
            ≡ (if not (is_as_read source (Some 0) line.now) || not (is_as_read source None line.now)
            then Some (moving_level source line.now) else None)) }
        ensures of_line { OnOk result (IsOfLine (D.source data_source.now) line.now self.new) }
        ensures shown { IfOk result (λ found. IfSome found (λ level. self.new.shown.base_level ≡ Some level)) }
    {
        if !self.is_as_read(alloc, data_source, line, LTR_LEVEL)? {
            return Ok(Some(LTR_LEVEL));
        }
        let level = own_level(data_source, line);
        let is_read = self.is_as_read(alloc, data_source, line, level)?;
        Ok((!is_read).then_some(level))
    }

    /// Returns why and where a paragraph is displayed differently from how it reads, if it is and if `wanted` has findings
    /// of that kind.
    ///
    /// `chars` is a paragraph with the separator that ends it. It must not be empty. Of its characters, the printable
    /// ASCII other than the space is compared. It is taken as a device shows it, from left to right (L2) and mirrored at
    /// odd levels (L4). The paragraph is tried from left to right, and with the base level of P2 and P3. The kind is
    ///
    /// - `DisplayedDifferently` if the paragraph has a control or a mark, and what is shown is neither what is read, nor
    ///   what is shown if the controls and marks are deleted but those of placeholder isolates,
    /// - `LettersAlone` if that is not so, the paragraph has a character of class R, AL or AN, and what is shown is not what
    ///   is read.
    ///
    /// Returns an error if an allocation fails. Then the comparison can go on with another paragraph.
    pub fn differing<D: BidiDataSource>(
        &mut self,
        alloc: Global,
        data_source: &D,
        wanted: Wanted,
        chars: &[char],
    ) -> Result<Option<Differing>, AllocError>
        requires { 0 < length chars.now }
        ensures differing { IfOk result (λ found. found ≡ wanted_differing (D.source data_source.now) wanted chars.now) }
        ensures within { IfOk result (λ found. IfSome found (λ differing. differing.place < length chars.now)) }
        ensures levels { let source = D.source data_source.now in
            IfOk result (λ found. IfSome found (λ differing. self.new.shown.levels.items
            ≡ displayed_levels source (Some differing.level) (own_chars_of source chars.now))) }
    {
        if !wanted.displayed_differently && !wanted.letters_alone {
            return Ok(None);
        }
        let line = own_chars(data_source, chars);
        self.read(data_source, line)?;
        if let Some(level) = self.differing_level(alloc, data_source, line)? {
            let place = first_control_or_mark(data_source, chars).unwrap_or(0);
            let trouble = Trouble::DisplayedDifferently;
            return Ok(
                wanted.displayed_differently.then_some(Differing {
                    trouble,
                    place,
                    level,
                }),
            );
        }
        if !wanted.letters_alone || !has_right_to_left(data_source, line) {
            return Ok(None);
        }
        let Some(level) = self.moving_level(alloc, data_source, line)? else {
            return Ok(None);
        };
        let place = first_right_to_left(data_source, chars).unwrap_or(0);
        Ok(Some(Differing {
            trouble: Trouble::LettersAlone,
            place,
            level,
        }))
    }

    /// Writes the characters of a line as a device shows them: from left to right, mirrored at odd levels, and without
    /// direction controls. Returns the index in `out` of the first printable ASCII character, other than the space, that is
    /// not read at its place. If there is none, returns the length of `out`.
    ///
    /// `line` is the paragraph for which `differing` returned a value last, without the separator that ends it. The base
    /// level is that of the value. The characters replace the contents of `out`. Returns an error if an allocation fails.
    pub fn write_displayed<D: BidiDataSource>(
        &mut self,
        data_source: &D,
        line: &[char],
        out: &mut Vec<char>,
    ) -> Result<usize, AllocError>
        requires { length self.old.shown.levels.items ≡ length line.now }
        ensures chars { OnOk result (out.new.items
            ≡ without_controls (D.source data_source.now) (shown_in_order self.old.shown.levels.items line.now)) }
        ensures moved { IfOk result (λ moved. moved ≡ first_moved out.new.items (visible_ascii line.now)) }
    {
        let levels = self.shown.levels.as_slice();
        self.display.write_chars(data_source, line, levels, out)?;
        // `differing` wrote the same, but its clauses do not say so.
        write_visible_ascii(line, &mut self.read)?;
        Ok(first_moved(out.as_slice(), self.read.as_slice()))
    }
}
