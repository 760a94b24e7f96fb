//! The calls over a whole text.
ghost use Rattle.std.specs.Prelude.{◌≡◌, ◌<◌, ◌≤◌, ◌&&◌, nat_le, length, map, slice_index, Err, IfSome};
ghost use Rattle.std.specs.Option.{option_or};
ghost use Rattle.bidi_base.specs.Classes.{class_number};
ghost use Rattle.bidi_base.specs.Texts.{text_len};
ghost use Rattle.std.specs.Result.{result_err};
ghost use Rattle.bidi_numbers.specs.Faults.{FaultsAs, fault_unless};
ghost use Rattle.bidi_calls.specs.CallerText.{unless_fault};
ghost use Rattle.bidi_calls.specs.Buffers.{written, written_if_room, HasRoomOrNone, analysis_of, analysis_by, analysis_fault, paragraphs_fault, WritesAnalysis};
ghost use Rattle.bidi_numbers.specs.Numbers.{direction_number, direction_in};
ghost use Rattle.bidi_numbers.specs.Structs.{paragraph_struct};
ghost use Rattle.unicode_bidi.specs.Base.{HasLowLevel};
ghost use Rattle.unicode_bidi.specs.ParagraphInfo.{range_of, level_of};

use crate::base_numbers::base_numbered;
use crate::buffers::{AnalysisBuffers, Settings};
use crate::caller_text::CallerText;
use bidi_lines::reused_levels::FEW_UNITS;
use bidi_numbers::fault::{Fault, check, check_room_or_none};
use bidi_numbers::numbers::{number_of, split_rule};
use bidi_numbers::structs::Paragraph;
use std::alloc::Global;
use unicode_bidi::engine::Analyser;
use unicode_bidi::{
    Base, BidiClass, BidiDataSource, Direction, LTR_LEVEL, Level, ParagraphInfo, SplitRule,
    TextSource, get_base_direction_full_with_data_source, get_base_direction_with_data_source,
};

/// Writes the numbers of classes.
pub(crate) fn write_classes(out: &mut [u8], classes: &[BidiClass])
    requires { length out.old ≡ length classes.now }
    ensures { out.new ≡ map class_number classes.now }
{
    for i in 0..classes.len() {
        out[i] = number_of(classes[i]);
    }
}

// Returns the number of the level at an index.
fn number_at(levels: &[Level], index: usize) -> u8
    requires { index < length levels.now }
    ensures { result ≡ slice_index levels.now index }
{
    levels[index].number()
}

/// Writes the numbers of levels.
pub fn write_levels(out: &mut [u8], levels: &[Level])
    requires { length out.old ≡ length levels.now }
    ensures { out.new ≡ levels.now }
{
    for i in 0..levels.len() {
        out[i] = number_at(levels, i);
    }
}

// Writes the numbers of classes to the front of a buffer.
fn put_classes(out: &mut [u8], classes: &[BidiClass])
    requires { length classes.now ≤ length out.old }
    ensures { out.new ≡ written (map class_number classes.now) out.old }
{
    write_classes(&mut out[..classes.len()], classes);
}

// Writes the numbers of levels to the front of a buffer.
fn put_levels(out: &mut [u8], levels: &[Level])
    requires { length levels.now ≤ length out.old }
    ensures { out.new ≡ written levels.now out.old }
{
    write_levels(&mut out[..levels.len()], levels);
}

// Returns a paragraph as a struct.
fn struct_of(paragraph: &ParagraphInfo) -> Paragraph
    ensures { result ≡ paragraph_struct (((range_of paragraph.now).start, (range_of paragraph.now).end), level_of paragraph.now) }
{
    let range = paragraph.range();
    Paragraph {
        start: range.start,
        end: range.end,
        level: paragraph.level().number(),
    }
}

// Writes paragraphs as structs.
fn write_paragraphs(out: &mut [Paragraph], paragraphs: &[ParagraphInfo])
    requires { length out.old ≡ length paragraphs.now }
    ensures { out.new ≡ map (λ p. paragraph_struct (((range_of p).start, (range_of p).end), level_of p)) paragraphs.now }
{
    for i in 0..paragraphs.len() {
        out[i] = struct_of(&paragraphs[i]);
    }
}

/// Writes paragraphs as structs to the front of a buffer, unless the buffer is empty.
pub(crate) fn put_paragraphs(out: &mut [Paragraph], paragraphs: &[ParagraphInfo])
    requires { HasRoomOrNone paragraphs.now out.old }
    ensures { out.new
        ≡ written_if_room
        (map (λ p. paragraph_struct (((range_of p).start, (range_of p).end), level_of p)) paragraphs.now) out.old }
{
    if !out.is_empty() {
        write_paragraphs(&mut out[..paragraphs.len()], paragraphs);
    }
}

/// Returns `NoRoom` unless the buffers for classes and levels both have `units` entries or more.
pub(crate) fn check_room(units: usize, class_room: usize, level_room: usize) -> Result<(), Fault>
    ensures { result_err result ≡ fault_unless (nat_le units class_room && nat_le units level_room) Fault.NoRoom }
{
    check(units <= class_room && units <= level_room, Fault::NoRoom)
}

/// A text and the arguments of a call.
#[derive(Drop)]
pub(crate) struct AnalysisCall<'a, D: BidiDataSource, T: TextSource> {
    pub(crate) data_source: &'a D,
    pub(crate) text: T,
    pub(crate) base: Base,
    pub(crate) rule: Option<SplitRule>,
}

/// Analyses a text into `own_classes` and `own_levels`, and then copies the result to the caller's buffers. So a late
/// fault leaves those unchanged. Reuses the memory of `analyser`.
pub(crate) fn write_analysis<D: BidiDataSource, T: TextSource>(
    alloc: Global,
    analyser: &mut Analyser,
    call: &AnalysisCall<D, T>,
    own_classes: &mut [BidiClass],
    own_levels: &mut [Level],
    out: &mut AnalysisBuffers<'_>,
) -> Result<usize, Fault>
    requires low { HasLowLevel call.now.base }
    requires own_classes { length own_classes.old ≡ text_len (T.text call.now.text) }
    requires own_levels { length own_levels.old ≡ text_len (T.text call.now.text) }
    requires class_room { text_len (T.text call.now.text) ≤ length out.old.classes.now }
    requires level_room { text_len (T.text call.now.text) ≤ length out.old.levels.now }
    ensures fault { let found = analysis_of (D.source call.now.data_source.now) call.now.base call.now.rule T.encoding.len_of
        (T.text call.now.text).chars in
        FaultsAs result (paragraphs_fault found out.old) }
    ensures writes { let found = analysis_of (D.source call.now.data_source.now) call.now.base call.now.rule T.encoding.len_of
        (T.text call.now.text).chars in
        WritesAnalysis found result out.old out.new }
{
    analyser.analyse_with_base(
        alloc,
        call.data_source,
        call.text,
        call.base,
        call.rule,
        own_classes,
        own_levels,
    )?;
    let found = analyser.paragraphs();
    check_room_or_none(found.len(), out.paragraphs.len())?;
    put_classes(out.classes, own_classes);
    put_levels(out.levels, own_levels);
    put_paragraphs(out.paragraphs, found);
    Ok(found.len())
}

// Writes the class and the level of each code unit of a text, and its paragraphs.
pub(crate) fn analyse_text<D: BidiDataSource, T: TextSource>(
    alloc: Global,
    data_source: &D,
    text: T,
    settings: Settings,
    out: &mut AnalysisBuffers<'_>,
) -> Result<usize, Fault>
    ensures fault { let found = analysis_by (D.source data_source.now) settings T.encoding.len_of (T.text text).chars in
        FaultsAs result (analysis_fault settings (text_len (T.text text)) found out.old) }
    ensures writes { WritesAnalysis (analysis_by (D.source data_source.now) settings T.encoding.len_of (T.text text).chars)
        result out.old out.new }
{
    let base = base_numbered(settings.base)?;
    let rule = split_rule(settings.split)?;
    let len = text.len();
    check_room(len, out.classes.len(), out.levels.len())?;
    let call = AnalysisCall {
        data_source,
        text,
        base,
        rule,
    };
    let mut analyser = Analyser::new(alloc);
    if len <= FEW_UNITS {
        let mut few_classes = [BidiClass::L; FEW_UNITS];
        let mut few_levels = [LTR_LEVEL; FEW_UNITS];
        write_analysis(
            alloc,
            &mut analyser,
            &call,
            &mut few_classes[..len],
            &mut few_levels[..len],
            out,
        )
    } else {
        let mut many_classes = vec![in alloc; BidiClass::L; len]?;
        let mut many_levels = vec![in alloc; LTR_LEVEL; len]?;
        write_analysis(
            alloc,
            &mut analyser,
            &call,
            many_classes.as_mut_slice(),
            many_levels.as_mut_slice(),
            out,
        )
    }
}

/// Writes the class and the level of each code unit of a text, and its paragraphs.
///
/// Returns the number of paragraphs. If the buffer for paragraphs is empty, only counts them. The faults are that of code
/// units that are ill-formed, `BadBaseLevel`, `BadSplit`, and `NoRoom` for classes and levels or for paragraphs, in this
/// order. Writes nothing after a fault. A text of up to 256 code units that is one paragraph needs no allocation if no
/// character opens an embedding or an isolate, and none is a bracket.
pub fn analyse<'t, T: CallerText<'t>, D: BidiDataSource>(
    alloc: Global,
    data_source: &D,
    text: &'t [T::Unit],
    settings: Settings,
    out: &mut AnalysisBuffers<'_>,
) -> Result<usize, Fault>
    ensures no_text { IfSome (T.fault_of text.now) (λ fault. result ≡ Err fault) }
    ensures fault { let found = analysis_by (D.source data_source.now) settings T.encoding.len_of (T.chars_of text.now) in
        FaultsAs result (option_or (T.fault_of text.now) (analysis_fault settings (length text.now) found out.old)) }
    ensures writes { WritesAnalysis (analysis_by (D.source data_source.now) settings T.encoding.len_of (T.chars_of text.now))
        result out.old out.new }
{
    let text = T::read(text)?;
    analyse_text(alloc, data_source, text, settings, out)
}

// Returns the number of a direction.
pub(crate) fn number_of_direction(direction: Direction) -> usize
    ensures { result ≡ direction_number direction }
{
    match direction {
        Direction::Ltr => 0,
        Direction::Rtl => 1,
        Direction::Mixed => 2,
    }
}

// Returns the number of a text's base direction.
#[tactic(auto, unfolding(bidi_numbers::specs::Numbers::direction_in))]
fn direction_of<D: BidiDataSource, T: TextSource>(data_source: &D, text: T, full: bool) -> usize
    ensures { result ≡ direction_in (D.source data_source.now) full (T.text text).chars }
{
    if full {
        number_of_direction(get_base_direction_full_with_data_source(data_source, text))
    } else {
        number_of_direction(get_base_direction_with_data_source(data_source, text))
    }
}

/// Returns the number of a text's base direction: 0 for left to right, 1 for right to left, 2 for mixed.
///
/// Without `full` it is that of the first paragraph, and with `full` that of the first paragraph that has one. Returns
/// the fault of ill-formed code units, even if a character before it decides. In UTF-16, which has no such fault,
/// stops at the character that decides. Does not allocate.
// Inlined, so that the export of UTF-16 returns the direction in a register.
#[inline(always)]
pub fn base_direction<'t, T: CallerText<'t>, D: BidiDataSource>(
    data_source: &D,
    text: &'t [T::Unit],
    full: bool,
) -> Result<usize, Fault>
    ensures { result
        ≡ unless_fault (T.fault_of text.now) (direction_in (D.source data_source.now) full (T.chars_of text.now)) }
{
    let text = T::read(text)?;
    Ok(direction_of(data_source, text, full))
}
