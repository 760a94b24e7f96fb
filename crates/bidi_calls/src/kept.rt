//! Texts that are analysed one after another, in memory that is kept.
ghost use Rattle.std.specs.Prelude.{◌≤◌, vec_len, OnOk};
ghost use Rattle.bidi_base.specs.Texts.{text_len};
ghost use Rattle.bidi_calls.specs.Buffers.{analysis_by, analysis_fault, WritesAnalysis};
ghost use Rattle.bidi_numbers.specs.Faults.{FaultsAs};

use crate::analysis::{AnalysisCall, check_room, write_analysis};
use crate::base_numbers::base_numbered;
use crate::buffers::{AnalysisBuffers, Settings};
use bidi_numbers::fault::Fault;
use bidi_numbers::numbers::split_rule;
use std::alloc::{AllocError, Global};
use unicode_bidi::engine::Analyser;
use unicode_bidi::{BidiClass, BidiDataSource, LTR_LEVEL, Level, TextSource};

/// The memory that an analysis leaves to the next one.
///
/// It is as much as the texts so far have needed. It says nothing of them.
#[derive(Drop)]
pub struct KeptAnalyser {
    analyser: Analyser,
    // Room for the class and the level of each code unit.
    classes: Vec<BidiClass>,
    levels: Vec<Level>,
}

impl KeptAnalyser {
    /// Returns an analyser that has read no text. Does not allocate.
    pub fn new(alloc: Global) -> KeptAnalyser {
        KeptAnalyser {
            analyser: Analyser::new(alloc),
            classes: Vec::new(alloc),
            levels: Vec::new(alloc),
        }
    }

    // Gives both lists at least this many entries. If an allocation fails, either may have fewer.
    fn make_room(&mut self, len: usize) -> Result<(), AllocError>
        ensures classes { OnOk result (len ≤ vec_len self.new.classes) }
        ensures levels { OnOk result (len ≤ vec_len self.new.levels) }
    {
        if self.classes.len() < len {
            self.classes.resize(len, BidiClass::L)?;
        }
        if self.levels.len() < len {
            self.levels.resize(len, LTR_LEVEL)?;
        }
        Ok(())
    }
}

/// Writes the class and the level of each code unit of a text, and its paragraphs, as
/// [`analyse`](crate::analysis::analyse) does, and reuses the memory of `kept`.
///
/// Returns the number of paragraphs. The faults, their order, and what they leave unchanged are those of `analyse` after the
/// text. After a fault `kept` can analyse the next text. Once it has analysed a text, it needs no allocation for a text
/// with no more code units, paragraphs, level runs, open isolates and brackets.
pub fn analyse_kept<D: BidiDataSource, T: TextSource>(
    alloc: Global,
    kept: &mut KeptAnalyser,
    data_source: &D,
    text: T,
    settings: Settings,
    out: &mut AnalysisBuffers<'_>,
) -> Result<usize, Fault>
    ensures fault { let found = analysis_by (D.source data_source.now) settings T.encoding.len_of (T.text text).chars in
        FaultsAs result (analysis_fault settings (text_len (T.text text)) found out.old) }
    ensures writes { WritesAnalysis (analysis_by (D.source data_source.now) settings T.encoding.len_of (T.text text).chars)
        result out.old out.new }
{
    let base = base_numbered(settings.base)?;
    let rule = split_rule(settings.split)?;
    let len = text.len();
    check_room(len, out.classes.len(), out.levels.len())?;
    kept.make_room(len)?;
    let call = AnalysisCall {
        data_source,
        text,
        base,
        rule,
    };
    write_analysis(
        alloc,
        &mut kept.analyser,
        &call,
        &mut kept.classes[..len],
        &mut kept.levels[..len],
        out,
    )
}
