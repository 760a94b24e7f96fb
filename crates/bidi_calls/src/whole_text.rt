//! A text that is analysed and displayed in one call, each paragraph as one line (P1 to L4).
ghost use Rattle.std.specs.Prelude.{◌≡◌, ◌+◌, ◌≤◌, ◌++◌, ◌&&◌, length, map, flat_map, OnOk, IfOk};
ghost use Rattle.std.specs.Option.{option_or};
ghost use Rattle.bidi_base.specs.Indexes.{between};
ghost use Rattle.bidi_base.specs.Texts.{char_index, text_len, AreLines, HaveClass, HaveLevel};
ghost use Rattle.bidi_calls.specs.DisplayParts.{found_parts, has_room_for, WritesDisplay};
ghost use Rattle.bidi_calls.specs.Flags.{mirrored_if};
ghost use Rattle.bidi_calls.specs.WholeText.{fault_of_text, found_by, found_in, of_info, paragraph_levels, paragraph_order, paragraph_text, AreParts, WritesLevels};
ghost use Rattle.bidi_display.specs.Shown.{options as options_of};
ghost use Rattle.bidi_lines.specs.Analysed.{with_lists};
ghost use Rattle.bidi_numbers.specs.Faults.{FaultsAs, fault_unless, has_room_or_none};
ghost use Rattle.bidi_paragraphs.specs.ParagraphInfo.{ranges_of};
ghost use Rattle.unicode_bidi.specs.Base.{CutsNoChar, HasLowLevel};
ghost use Rattle.unicode_bidi.specs.Engine.{Follow};

use crate::base_numbers::base_numbered;
use crate::buffers::Settings;
use crate::display_buffers::DisplayBuffers;
use crate::display_line::write_parts;
use crate::display_text::DisplayText;
use crate::flags::{MirroredIf, mirrors_by, options_by};
use crate::show::put_levels;
use crate::shown::{Shown, push_line_text, push_order};
use bidi_display::displayed_line::DisplayedLine;
use bidi_display::options::DisplayOptions;
use bidi_display::text::MirroredCharacters;
use bidi_display::width::NoWidth;
use bidi_lines::line_levels::reset_levels;
use bidi_numbers::fault::{Fault, check_room_or_none};
use bidi_numbers::numbers::split_rule;
use std::alloc::{AllocError, Global};
use unicode_bidi::content::content_len;
use unicode_bidi::engine::Analyser;
use unicode_bidi::{
    Base, BidiClass, BidiDataSource, LTR_LEVEL, Level, ParagraphInfo, SplitRule, TextSource,
};

// Appends the code units of a text's characters. If an allocation fails, `out` may have some of them.
fn push_text<'t, T: DisplayText<'t>>(text: T, out: &mut Vec<T::Unit>) -> Result<(), AllocError>
    ensures { OnOk result (out.new.items ≡ out.old.items ++ flat_map T.encode (T.text text).chars) }
{
    for c in text.chars() {
        T::push_char(c, out)?;
    }
    Ok(())
}

// Appends the indexes from `first` up to `end`, without `end`.
fn push_between(first: usize, end: usize, out: &mut Vec<usize>) -> Result<(), AllocError>
    requires { first ≤ end }
    ensures { OnOk result (out.new.items ≡ out.old.items ++ between first end) }
{
    for index in first..end {
        out.push(index)?;
    }
    Ok(())
}

// A text with its stored classes and levels, one for each code unit, and a line in which its paragraphs are shown.
#[derive(Drop)]
struct ShownText<'a, T: TextSource> {
    text: T,
    classes: &'a [BidiClass],
    levels: &'a [Level],
    ghost per_char_classes: { HaveClass (T.text text) classes.now },
    ghost per_char_levels: { HaveLevel (T.text text) levels.now },
}

// Appends the displayed characters of a paragraph: those of its content, and then its separators. Shows the content in
// `line`. `first` is how many characters of the text come before the paragraph. Returns how many come before its end.
fn push_paragraph<'t, T: DisplayText<'t>, M: MirroredCharacters>(
    shown: &ShownText<'_, T>,
    paragraph: &ParagraphInfo,
    mirrors: &M,
    first: usize,
    line: &mut DisplayedLine,
    out: &mut Shown<T::Unit>,
) -> Result<usize, AllocError>
    requires is_line { CutsNoChar (T.text shown.now.text) paragraph.now }
    requires first { first ≡ char_index (T.text shown.now.text) paragraph.now.range.start }
    ensures next { IfOk result (λ next. next ≡ char_index (T.text shown.now.text) paragraph.now.range.end) }
    ensures options { options_of line.new ≡ options_of line.old }
    ensures order { OnOk result (out.new.order.items ≡ out.old.order.items ++ paragraph_order (options_of line.old)
        (with_lists (T.text shown.now.text) shown.now.classes.now shown.now.levels.now) (of_info paragraph.now)) }
    ensures text { OnOk result (out.new.text.items ≡ out.old.text.items ++ flat_map T.encode (paragraph_text
        (options_of line.old) (M.mirrored_of mirrors.now)
        (with_lists (T.text shown.now.text) shown.now.classes.now shown.now.levels.now) (of_info paragraph.now))) }
{
    let range = paragraph.range();
    let (start, end) = (range.start, range.end);
    let content_end = start + content_len(&shown.classes[start..end]);
    let content = start..content_end;
    line.show(
        shown.text,
        shown.classes,
        shown.levels,
        paragraph.level(),
        content,
        &NoWidth,
    )?;
    push_order(line, first, &mut out.order)?;
    push_line_text::<T, M>(line, mirrors, &mut out.text)?;
    let separators = shown.text.subrange(content_end..end);
    let separators_first = first + line.chars().len();
    let next = separators_first + separators.count_characters();
    push_between(separators_first, next, &mut out.order)?;
    push_text(separators, &mut out.text)?;
    Ok(next)
}

// Appends the displayed characters of all paragraphs, one after another.
fn push_paragraphs<'t, T: DisplayText<'t>, M: MirroredCharacters>(
    shown: &ShownText<'_, T>,
    paragraphs: &[ParagraphInfo],
    mirrors: &M,
    line: &mut DisplayedLine,
    out: &mut Shown<T::Unit>,
) -> Result<(), AllocError>
    requires lines { AreLines (T.text shown.now.text) (ranges_of paragraphs.now) }
    requires follow { Follow 0 (text_len (T.text shown.now.text)) paragraphs.now }
    ensures order { OnOk result (out.new.order.items ≡ out.old.order.items ++ flat_map (paragraph_order (options_of line.old)
        (with_lists (T.text shown.now.text) shown.now.classes.now shown.now.levels.now)) (map of_info paragraphs.now)) }
    ensures text { OnOk result (out.new.text.items ≡ out.old.text.items ++ flat_map T.encode (flat_map (paragraph_text
        (options_of line.old) (M.mirrored_of mirrors.now)
        (with_lists (T.text shown.now.text) shown.now.classes.now shown.now.levels.now)) (map of_info paragraphs.now))) }
{
    let mut first = 0;
    for paragraph in paragraphs {
        first = push_paragraph(shown, paragraph, mirrors, first, line, out)?;
    }
    Ok(())
}

// Applies L1 to each paragraph, as one line.
fn reset_paragraphs(classes: &[BidiClass], levels: &mut [Level], paragraphs: &[ParagraphInfo])
    requires same_len { length levels.old ≡ length classes.now }
    requires follow { Follow 0 (length levels.old) paragraphs.now }
    ensures { levels.new ≡ flat_map (paragraph_levels classes.now levels.old) (map of_info paragraphs.now) }
{
    for paragraph in paragraphs {
        let range = paragraph.range();
        let (start, end) = (range.start, range.end);
        reset_levels(
            paragraph.level(),
            &classes[start..end],
            &mut levels[start..end],
        );
    }
}

// The lists that are found in a text: the levels of its code units after L1, and its displayed characters.
#[derive(Drop)]
struct FoundLists<U> {
    levels: Vec<Level>,
    shown: Shown<U>,
}

// The arguments of a call.
#[derive(Drop)]
struct DisplayCall<'a, D: BidiDataSource> {
    data_source: &'a D,
    base: Base,
    rule: Option<SplitRule>,
    options: DisplayOptions,
    mirrors: MirroredIf,
}

// Analyses a text and displays it. Writes the levels after L1 to `levels`, and uses `classes` as a buffer.
fn show_paragraphs<'t, T: DisplayText<'t>, D: BidiDataSource>(
    alloc: Global,
    text: T,
    call: &DisplayCall<'_, D>,
    classes: &mut [BidiClass],
    levels: &mut [Level],
) -> Result<Shown<T::Unit>, AllocError>
    requires low { HasLowLevel call.now.base }
    requires class_room { length classes.old ≡ text_len (T.text text) }
    requires level_room { length levels.old ≡ text_len (T.text text) }
    ensures { IfOk result (λ shown. AreParts (found_in (D.source call.now.data_source.now) call.now.base call.now.rule
        call.now.options (mirrored_if call.now.mirrors.on) T.encoding.len_of T.encode (T.text text).chars)
        levels.new shown.text.items shown.order.items) }
{
    let mut analyser = Analyser::new(alloc);
    analyser.analyse_with_base(
        alloc,
        call.data_source,
        text,
        call.base,
        call.rule,
        classes,
        levels,
    )?;
    let paragraphs = analyser.paragraphs();
    let shown_text = ShownText {
        text,
        classes,
        levels,
    };
    let mut line = DisplayedLine::new(alloc, call.options);
    let mut shown = Shown {
        order: Vec::new(alloc),
        text: Vec::new(alloc),
    };
    push_paragraphs(
        &shown_text,
        paragraphs,
        &call.mirrors,
        &mut line,
        &mut shown,
    )?;
    reset_paragraphs(classes, levels, paragraphs);
    Ok(shown)
}

// The same with lists of its own.
fn find_lists<'t, T: DisplayText<'t>, D: BidiDataSource>(
    alloc: Global,
    text: T,
    call: &DisplayCall<'_, D>,
) -> Result<FoundLists<T::Unit>, AllocError>
    requires { HasLowLevel call.now.base }
    ensures { IfOk result (λ lists. AreParts (found_in (D.source call.now.data_source.now) call.now.base call.now.rule
        call.now.options (mirrored_if call.now.mirrors.on) T.encoding.len_of T.encode (T.text text).chars)
        lists.levels.items lists.shown.text.items lists.shown.order.items) }
{
    let len = text.len();
    let mut classes = vec![in alloc; BidiClass::L; len]?;
    let mut levels = vec![in alloc; LTR_LEVEL; len]?;
    let shown = show_paragraphs(
        alloc,
        text,
        call,
        classes.as_mut_slice(),
        levels.as_mut_slice(),
    )?;
    Ok(FoundLists { levels, shown })
}

// Writes what was found to the buffers, unless one is too short and not empty. Returns the number of code units of the
// displayed text. `characters` is the number of the text's characters.
fn write_found<U: Copy>(
    found: &FoundLists<U>,
    characters: usize,
    levels: &mut [u8],
    out: &mut DisplayBuffers<'_, U>,
) -> Result<usize, Fault>
    ensures fault { let parts = found_parts found.now.shown.text.items found.now.shown.order.items characters in
        FaultsAs result (fault_unless (has_room_or_none (length found.now.levels.items) (length levels.old)
        && has_room_for parts out.old) Fault.NoRoom) }
    ensures levels { WritesLevels found.now.levels.items result levels.old levels.new }
    ensures writes { WritesDisplay (found_parts found.now.shown.text.items found.now.shown.order.items characters) result out.old out.new }
{
    let own = found.levels.as_slice();
    check_room_or_none(own.len(), levels.len())?;
    let written = write_parts(&found.shown, characters, out)?;
    put_levels(levels, own);
    Ok(written)
}

/// Analyses a text and displays it, each paragraph as one line (P1 to L4): writes its levels, its text from left to
/// right, the order of its characters, and their places.
///
/// Writes each part to its buffer, unless that buffer is empty. `levels` takes the level of each code unit after L1. The
/// separators (B) at the end of a paragraph follow its displayed content, in the order of the text. The order has the
/// index in the text of each displayed character, from left to right, one paragraph after another. The places are the
/// indexes of all characters in that order, with `usize::MAX` for one that is not displayed. `flags` are those of
/// [`display_line`](crate::display_line::display_line). Also writes the number of the displayed characters and that of
/// all characters, and returns the number of code units of the displayed text. The faults are that of code units that
/// are ill-formed, `BadBaseLevel`, `BadSplit`, `BadFlags`, and `NoRoom` if a buffer is too short and not empty, in this
/// order. Writes nothing after a fault. In UTF-16 an unpaired surrogate is written as 0xFFFD. Takes the time of the
/// analysis and of [`DisplayedLine::show`] for each paragraph. The displayed text takes at most twice the code units of
/// the text (tested, not proved).
pub fn display_text<'t, T: DisplayText<'t>, D: BidiDataSource>(
    alloc: Global,
    data_source: &D,
    text: &'t [T::Unit],
    settings: Settings,
    flags: u32,
    levels: &mut [u8],
    out: &mut DisplayBuffers<'_, T::Unit>,
) -> Result<usize, Fault>
    ensures fault { let found = found_by (D.source data_source.now) settings flags T.encoding.len_of T.encode (T.chars_of text.now) in
        FaultsAs result (option_or (T.fault_of text.now) (fault_of_text found settings flags levels.old out.old)) }
    ensures levels { let found = found_by (D.source data_source.now) settings flags T.encoding.len_of T.encode (T.chars_of text.now) in
        WritesLevels found.levels result levels.old levels.new }
    ensures writes { let found = found_by (D.source data_source.now) settings flags T.encoding.len_of T.encode (T.chars_of text.now) in
        WritesDisplay found.parts result out.old out.new }
{
    let text = T::read(text)?;
    let base = base_numbered(settings.base)?;
    let rule = split_rule(settings.split)?;
    let options = options_by(flags)?;
    let call = DisplayCall {
        data_source,
        base,
        rule,
        options,
        mirrors: mirrors_by(flags),
    };
    let found = find_lists(alloc, text, &call)?;
    write_found(&found, text.count_characters(), levels, out)
}
