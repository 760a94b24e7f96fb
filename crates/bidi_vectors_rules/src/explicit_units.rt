//! What the explicit pass reads and writes, by code units.

ghost use Rattle.std.specs.Prelude.{◌≡◌, [], length, IfOk};

use bidi_base::char_data::BidiClass;
use bidi_base::level::Level;
use bidi_rules::prepare::{LevelRun, LevelRunVec};
use bidi_text::text::StrText;
use bidi_vectors_format::fault::RowFault;
use std::alloc::Global;

/// A paragraph for the explicit pass to read: its level, its text and the stored class of each code unit.
#[derive(Clone, Copy)]
pub struct ParagraphUnits<'a> {
    pub level: Level,
    pub text: StrText<'a>,
    pub classes: &'a [BidiClass],
}

/// What the explicit pass writes: the level and the class of each code unit, and the level runs.
#[derive(Drop)]
pub struct ExplicitUnits {
    pub levels: Vec<Level>,
    pub classes: Vec<BidiClass>,
    pub runs: LevelRunVec,
}

impl ExplicitUnits {
    /// Returns what a pass starts from: any levels, a copy of the stored classes, and no runs.
    pub fn new(alloc: Global, stored: &[BidiClass]) -> Result<ExplicitUnits, RowFault>
        ensures same_len { IfOk result (λ units. length units.levels.items ≡ length stored.now) }
        ensures classes { IfOk result (λ units. units.classes.items ≡ stored.now) }
        ensures runs { IfOk result (λ units. units.runs.items ≡ []) }
    {
        Ok(ExplicitUnits {
            levels: vec![in alloc; Level::rtl(); stored.len()]?,
            classes: Vec::from_slice(alloc, stored)?,
            runs: Vec::new(alloc),
        })
    }
}

/// Returns a copy of runs.
pub fn copied(alloc: Global, runs: &[LevelRun]) -> Result<LevelRunVec, RowFault> {
    let mut copies = Vec::new(alloc);
    for run in runs {
        copies.push(run.start..run.end)?;
    }
    Ok(copies)
}
