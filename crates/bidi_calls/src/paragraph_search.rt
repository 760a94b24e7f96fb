//! The paragraphs of a text with their levels, and its classes (P1 to P3, X5c). No level of a character is found.
ghost use Rattle.std.specs.Prelude.{◌≡◌, ◌&&◌, length, map};
ghost use Rattle.std.specs.Option.{option_or};
ghost use Rattle.bidi_base.specs.Classes.{class_number};
ghost use Rattle.bidi_base.specs.Texts.{text_len};
ghost use Rattle.bidi_calls.specs.Buffers.{analysis_by, analysis_of, written_if_room, HasRoomOrNone};
ghost use Rattle.bidi_calls.specs.ParagraphSearch.{search_fault, room_fault, WritesParagraphs};
ghost use Rattle.bidi_numbers.specs.Faults.{FaultsAs, has_room_or_none};

use crate::analysis::{put_paragraphs, write_classes};
use crate::base_numbers::base_numbered;
use crate::buffers::{ParagraphBuffers, Settings};
use crate::caller_text::CallerText;
use bidi_lines::reused_levels::FEW_UNITS;
use bidi_numbers::fault::{Fault, check, has_room_or_none};
use bidi_numbers::numbers::split_rule;
use std::alloc::Global;
use unicode_bidi::engine::Analyser;
use unicode_bidi::{Base, BidiClass, BidiDataSource, SplitRule, TextSource};

// Writes the numbers of classes to the front of a buffer, unless the buffer is empty.
fn put_classes(out: &mut [u8], classes: &[BidiClass])
    requires { HasRoomOrNone classes.now out.old }
    ensures { out.new ≡ written_if_room (map class_number classes.now) out.old }
{
    if !out.is_empty() {
        write_classes(&mut out[..classes.len()], classes);
    }
}

// Returns whether each buffer is empty or has room for its part.
fn have_room(units: usize, paragraphs: usize, out: &ParagraphBuffers<'_>) -> bool
    ensures { result ≡ (has_room_or_none units (length out.now.classes.now)
        && has_room_or_none paragraphs (length out.now.paragraphs.now)) }
{
    has_room_or_none(units, out.classes.len()) && has_room_or_none(paragraphs, out.paragraphs.len())
}

// A text and the arguments of a call.
#[derive(Drop)]
struct SearchCall<'a, D: BidiDataSource, T: TextSource> {
    data_source: &'a D,
    text: T,
    base: Base,
    rule: Option<SplitRule>,
}

// Finds the paragraphs of a text, and its classes into `own_classes`, and then copies the result to the caller's buffers.
// So a late fault leaves those unchanged.
fn write_search<D: BidiDataSource, T: TextSource>(
    alloc: Global,
    call: &SearchCall<D, T>,
    own_classes: &mut [BidiClass],
    out: &mut ParagraphBuffers<'_>,
) -> Result<usize, Fault>
    requires { length own_classes.old ≡ text_len (T.text call.now.text) }
    ensures fault { let found = analysis_of (D.source call.now.data_source.now) call.now.base call.now.rule T.encoding.len_of
        (T.text call.now.text).chars in
        FaultsAs result (room_fault found out.old) }
    ensures writes { let found = analysis_of (D.source call.now.data_source.now) call.now.base call.now.rule T.encoding.len_of
        (T.text call.now.text).chars in
        WritesParagraphs found result out.old out.new }
{
    let mut analyser = Analyser::new(alloc);
    analyser.find_paragraphs(
        alloc,
        call.data_source,
        call.text,
        call.base,
        call.rule,
        own_classes,
    )?;
    let found = analyser.paragraphs();
    let fits = have_room(own_classes.len(), found.len(), out);
    check(fits, Fault::NoRoom)?;
    put_classes(out.classes, own_classes);
    put_paragraphs(out.paragraphs, found);
    Ok(found.len())
}

/// Writes the class of each code unit of a text, and its paragraphs with their levels (P1 to P3, X5c).
///
/// Returns the number of paragraphs. Writes each part to its buffer, unless that buffer is empty: so with empty buffers it
/// only counts the paragraphs. The faults are that of code units that are ill-formed, `BadBaseLevel`, `BadSplit`, and
/// `NoRoom` if a buffer is too short and not empty, in this order. Writes nothing after a fault. Finds no level of a
/// character, so it takes less time than [`analyse`](crate::analysis::analyse). A text of up to 256 code units that is one
/// paragraph without FSI needs no allocation.
pub fn find_paragraphs<'t, T: CallerText<'t>, D: BidiDataSource>(
    alloc: Global,
    data_source: &D,
    text: &'t [T::Unit],
    settings: Settings,
    out: &mut ParagraphBuffers<'_>,
) -> Result<usize, Fault>
    ensures fault { let found = analysis_by (D.source data_source.now) settings T.encoding.len_of (T.chars_of text.now) in
        FaultsAs result (option_or (T.fault_of text.now) (search_fault settings found out.old)) }
    ensures writes { WritesParagraphs (analysis_by (D.source data_source.now) settings T.encoding.len_of (T.chars_of text.now))
        result out.old out.new }
{
    let text = T::read(text)?;
    let base = base_numbered(settings.base)?;
    let rule = split_rule(settings.split)?;
    let len = text.len();
    let call = SearchCall {
        data_source,
        text,
        base,
        rule,
    };
    if len <= FEW_UNITS {
        let mut few = [BidiClass::L; FEW_UNITS];
        write_search(alloc, &call, &mut few[..len], out)
    } else {
        let mut many = vec![in alloc; BidiClass::L; len]?;
        write_search(alloc, &call, many.as_mut_slice(), out)
    }
}
