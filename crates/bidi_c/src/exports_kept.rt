//! The exports over texts with an analyser that the caller keeps.
ghost use Rattle.std.specs.Prelude.{◌≡◌, length, Err, IfSome};
ghost use Rattle.std.specs.Option.{option_or};
ghost use Rattle.bidi_calls.specs.Buffers.{analysis_by, analysis_fault, WritesAnalysis};
ghost use Rattle.bidi_numbers.specs.Faults.{FaultsAs};

use crate::analyser_handle::AnalyserHandle;
use bidi_calls::buffers::{AnalysisBuffers, Settings};
use bidi_calls::caller_text::CallerText;
use bidi_calls::kept::analyse_kept;
use bidi_numbers::fault::{Fault, answer};
use bidi_numbers::structs::Paragraph;
use bidi_numbers::utf32_text::Utf32Text;
use bidi_unicode::UnicodeData;
use std::alloc::Global;
use unicode_bidi::BidiDataSource;
use unicode_bidi::text::{StrText, Utf16Text};

// Analyses a text with the analyser of a handle, or with a new one if the handle keeps none. The handle then keeps it.
fn analyse_with<'t, T: CallerText<'t>, D: BidiDataSource>(
    alloc: Global,
    analyser: &mut AnalyserHandle,
    data_source: &D,
    text: &'t [T::Unit],
    settings: Settings,
    out: &mut AnalysisBuffers<'_>,
) -> Result<usize, Fault>
    ensures no_text { IfSome (T.fault_of text.now) (λ fault. result ≡ Err fault) }
    ensures fault { let found = analysis_by (D.source data_source.now) settings T.encoding.len_of (T.chars_of text.now) in
        FaultsAs result (option_or (T.fault_of text.now) (analysis_fault settings (length text.now) found out.old)) }
    ensures writes { WritesAnalysis (analysis_by (D.source data_source.now) settings T.encoding.len_of (T.chars_of text.now))
        result out.old out.new }
{
    let text = T::read(text)?;
    let mut kept = analyser.take(alloc)?;
    let result = analyse_kept(alloc, &mut *kept, data_source, text, settings, out);
    analyser.put(alloc, kept);
    result
}

#[unsafe(no_mangle)]
pub extern "C" fn unicode_bidi_analyse_with_utf8(
    alloc: Global,
    analyser: &mut AnalyserHandle,
    text: &[u8],
    base: u8,
    split: u8,
    classes: &mut [u8],
    levels: &mut [u8],
    paragraphs: &mut [Paragraph],
) -> i64 {
    let settings = Settings { base, split };
    let mut out = AnalysisBuffers {
        classes,
        levels,
        paragraphs,
    };
    answer(analyse_with::<StrText, _>(alloc, analyser, &UnicodeData, text, settings, &mut out))
}

#[unsafe(no_mangle)]
pub extern "C" fn unicode_bidi_analyse_with_utf16(
    alloc: Global,
    analyser: &mut AnalyserHandle,
    text: &[u16],
    base: u8,
    split: u8,
    classes: &mut [u8],
    levels: &mut [u8],
    paragraphs: &mut [Paragraph],
) -> i64 {
    let settings = Settings { base, split };
    let mut out = AnalysisBuffers {
        classes,
        levels,
        paragraphs,
    };
    answer(analyse_with::<Utf16Text, _>(alloc, analyser, &UnicodeData, text, settings, &mut out))
}

#[unsafe(no_mangle)]
pub extern "C" fn unicode_bidi_analyse_with_utf32(
    alloc: Global,
    analyser: &mut AnalyserHandle,
    text: &[u32],
    base: u8,
    split: u8,
    classes: &mut [u8],
    levels: &mut [u8],
    paragraphs: &mut [Paragraph],
) -> i64 {
    let settings = Settings { base, split };
    let mut out = AnalysisBuffers {
        classes,
        levels,
        paragraphs,
    };
    answer(analyse_with::<Utf32Text, _>(alloc, analyser, &UnicodeData, text, settings, &mut out))
}

#[unsafe(no_mangle)]
pub extern "C" fn unicode_bidi_free(alloc: Global, analyser: &mut AnalyserHandle) {
    analyser.free(alloc);
}
