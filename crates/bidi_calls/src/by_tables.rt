//! The calls over a whole text that read classes and brackets from the caller's tables.
ghost use Rattle.std.specs.Prelude.{◌≡◌, length, IfOk};
ghost use Rattle.std.specs.Option.{option_or};
ghost use Rattle.bidi_numbers.specs.Faults.{FaultsAs};
ghost use Rattle.bidi_calls.specs.Buffers.{analysis_by, analysis_fault, WritesAnalysis};
ghost use Rattle.bidi_numbers.specs.Numbers.{direction_in};
ghost use Rattle.bidi_numbers.specs.Tables.{tables_fault, rows_source};

use crate::analysis;
use crate::buffers::{AnalysisBuffers, Settings};
use crate::caller_text::CallerText;
use bidi_numbers::fault::Fault;
use bidi_numbers::structs::{BracketPair, ClassRange};
use bidi_numbers::tables::Tables;
use std::alloc::Global;

/// Writes the class and the level of each code unit of a text, and its paragraphs.
///
/// Returns the number of paragraphs. Reads `ranges` and `brackets` in place of a data source, and copies them. Returns
/// a fault in them first: `NotScalar` in a range or in a pair, `BadClass` or `BadRanges`. The rest is as in
/// [`analysis::analyse`].
pub fn analyse<'t, T: CallerText<'t>>(
    alloc: Global,
    ranges: &[ClassRange],
    brackets: &[BracketPair],
    text: &'t [T::Unit],
    settings: Settings,
    out: &mut AnalysisBuffers<'_>,
) -> Result<usize, Fault>
    ensures fault { let found = analysis_by (rows_source ranges.now brackets.now) settings T.encoding.len_of
        (T.chars_of text.now) in
        FaultsAs result (option_or (tables_fault ranges.now brackets.now)
        (option_or (T.fault_of text.now) (analysis_fault settings (length text.now) found out.old))) }
    ensures writes { let found = analysis_by (rows_source ranges.now brackets.now) settings T.encoding.len_of
        (T.chars_of text.now) in
        WritesAnalysis found result out.old out.new }
{
    let tables = Tables::new(alloc, ranges, brackets)?;
    match tables.source() {
        Ok(table) => {
            analysis::analyse::<T, _>(alloc, &tables.searched(&table), text, settings, out)
        }
        Err(fault) => Err(fault),
    }
}

/// Returns the number of the base direction of a text: 0 for left to right, 1 for right to left, 2 for mixed.
///
/// Without `full` it is that of the first paragraph, and with `full` that of the first paragraph that has one. Returns
/// a fault in the tables first, as [`analyse`] does, and then that of ill-formed code units.
pub fn base_direction<'t, T: CallerText<'t>>(
    alloc: Global,
    ranges: &[ClassRange],
    brackets: &[BracketPair],
    text: &'t [T::Unit],
    full: bool,
) -> Result<usize, Fault>
    ensures fault { FaultsAs result (option_or (tables_fault ranges.now brackets.now) (T.fault_of text.now)) }
    ensures direction { IfOk result (λ n. n ≡ direction_in (rows_source ranges.now brackets.now) full (T.chars_of text.now)) }
{
    let tables = Tables::new(alloc, ranges, brackets)?;
    match tables.source() {
        Ok(table) => analysis::base_direction::<T, _>(&tables.searched(&table), text, full),
        Err(fault) => Err(fault),
    }
}
