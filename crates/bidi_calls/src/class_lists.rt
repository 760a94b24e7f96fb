//! The call over a text that is known by the classes and the brackets of its characters alone.
ghost use Rattle.std.specs.Prelude.{◌≡◌, None, length, map, OnOk};
ghost use Rattle.std.specs.Option.{option_or};
ghost use Rattle.std.specs.Result.{result_err};
ghost use Rattle.bidi_base.specs.Texts.{one_each};
ghost use Rattle.bidi_text.specs.ClassText.{bracket_codes_fault, class_brackets, class_chars, class_source};
ghost use Rattle.bidi_calls.specs.Buffers.{analysis_by, analysis_fault, WritesAnalysis};
ghost use Rattle.bidi_calls.specs.ClassLists.{lists_fault, listed_chars, analysis_of_lists, HasCodesOrNone};
ghost use Rattle.bidi_numbers.specs.Faults.{FaultsAs};
ghost use Rattle.bidi_numbers.specs.Numbers.{class_numbered};

use crate::analysis::analyse_text;
use crate::buffers::{AnalysisBuffers, Settings};
use bidi_lines::reused_levels::FEW_UNITS;
use bidi_numbers::fault::{Fault, check};
use bidi_numbers::numbers::{check_classes, class_of};
use std::alloc::Global;
use unicode_bidi::BidiClass;
use unicode_bidi::text::{ClassData, ClassText, bracket_codes_fault};

// Checks the numbers of classes and the bracket codes.
//
// Returns `UnequalLengths` unless there are no bracket codes or as many as classes, or else `BadClass` or `BadBracket`.
fn check_lists(classes: &[u8], brackets: &[u32]) -> Result<(), Fault>
    ensures { result_err result ≡ lists_fault classes.now brackets.now }
{
    check(
        brackets.is_empty() || brackets.len() == classes.len(),
        Fault::UnequalLengths,
    )?;
    check_classes(classes)?;
    check(bracket_codes_fault(brackets).is_none(), Fault::BadBracket)
}

// Writes the classes with these numbers.
fn write_classes_of(out: &mut [BidiClass], numbers: &[u8])
    requires { length out.old ≡ length numbers.now }
    ensures { out.new ≡ map class_numbered numbers.now }
{
    for i in 0..numbers.len() {
        out[i] = class_of(numbers[i]);
    }
}

// Writes the stored class and the level of each character, and the paragraphs.
fn analyse_listed(
    alloc: Global,
    classes: &[BidiClass],
    brackets: &[u32],
    settings: Settings,
    out: &mut AnalysisBuffers<'_>,
) -> Result<usize, Fault>
    requires lengths { HasCodesOrNone classes.now brackets.now }
    requires codes { bracket_codes_fault brackets.now ≡ None }
    ensures fault { let found = analysis_by class_source settings one_each.len_of (class_chars classes.now brackets.now) in
        FaultsAs result (analysis_fault settings (length classes.now) found out.old) }
    ensures writes { let found = analysis_by class_source settings one_each.len_of (class_chars classes.now brackets.now) in
        WritesAnalysis found result out.old out.new }
    ensures classes { map class_source.class_of (class_chars classes.now brackets.now) ≡ classes.now }
    ensures brackets { map class_source.bracket_of (class_chars classes.now brackets.now)
        ≡ class_brackets classes.now brackets.now }
{
    let text = ClassText::new(classes, brackets);
    analyse_text(alloc, &ClassData, text, settings, out)
}

/// Writes the stored class and the level of each character, and the paragraphs, of a text that is known by the classes
/// and the brackets of its characters alone.
///
/// Returns the number of paragraphs. If the buffer for paragraphs is empty, only counts them. `classes` has the number
/// of each character's class. `brackets` is empty, or has a bracket code for each character: 0 if it is no bracket, and
/// otherwise the opening bracket of its pair in normal form (BD16), plus `BRACKET_OPENS` if it opens. That bracket is a
/// character from U+0020 to U+7FFFF. A bracket counts only where the class is ON.
///
/// The faults are `UnequalLengths`, `BadClass`, `BadBracket`, `BadBaseLevel`, `BadSplit`, and `NoRoom` for classes and
/// levels or for paragraphs, in this order. Writes nothing after a fault. Up to 256 characters that are one paragraph
/// need no allocation if none opens an embedding or an isolate, and none is a bracket.
pub fn analyse_classes(
    alloc: Global,
    classes: &[u8],
    brackets: &[u32],
    settings: Settings,
    out: &mut AnalysisBuffers<'_>,
) -> Result<usize, Fault>
    ensures fault { let found = analysis_of_lists settings classes.now brackets.now in
        FaultsAs result (option_or (lists_fault classes.now brackets.now)
        (analysis_fault settings (length classes.now) found out.old)) }
    ensures writes { WritesAnalysis (analysis_of_lists settings classes.now brackets.now) result out.old out.new }

    // The characters have the classes and the brackets that are given.
    ensures classes { OnOk result (map class_source.class_of (listed_chars classes.now brackets.now)
        ≡ map class_numbered classes.now) }
    ensures brackets { OnOk result (map class_source.bracket_of (listed_chars classes.now brackets.now)
        ≡ class_brackets (map class_numbered classes.now) brackets.now) }
{
    check_lists(classes, brackets)?;
    let len = classes.len();
    if len <= FEW_UNITS {
        let mut few = [BidiClass::L; FEW_UNITS];
        write_classes_of(&mut few[..len], classes);
        analyse_listed(alloc, &few[..len], brackets, settings, out)
    } else {
        let mut many = vec![in alloc; BidiClass::L; len]?;
        write_classes_of(many.as_mut_slice(), classes);
        analyse_listed(alloc, many.as_slice(), brackets, settings, out)
    }
}
