//! The results of the rules for a paragraph, stage by stage.
ghost use Rattle.std.specs.Prelude.{◌≡◌, ◌<◌, ◌≤◌, None, map, length, vec_len, zip, All, IfOk, IfSome};
ghost use Rattle.bidi_base.specs.Isolates.{stored_classes};
ghost use Rattle.bidi_base.specs.Indexes.{at_indexes, first_or};
ghost use Rattle.bidi_base.specs.declared.char_data.BidiClass.TheVariants.{L};
ghost use Rattle.bidi_base.specs.Sequences.{level_at};
ghost use Rattle.bidi_explain.specs.Stages.{weak_in, neutral_in, written, row_of, CanResolveIn, HasOneEach, StagesFrom, AreStages};

use bidi_base::char_data::BidiClass;
use bidi_base::data_source::{BidiDataSource, BidiMatchedOpeningBracket};
use bidi_base::level::Level;
use bidi_lines::line_levels::levels_of_line;
use bidi_lines::visual_order::{inverse, reorder_visual};
use bidi_plain::plain::{self, Explicit, PlainSequence};
use bidi_text::text::CharsText;
use std::alloc::{AllocError, Global};
use unicode_bidi::engine::ParagraphAnalysis;

/// The result of each stage of the rules for a paragraph.
///
/// A list has one entry for each character, unless its field says otherwise.
#[derive(Drop)]
pub struct Stages {
    /// The paragraph level (P2, P3), or the base level.
    pub level: Level,
    /// The source classes.
    pub classes: Vec<BidiClass>,
    /// The explicit levels, and the classes under overrides (X1 to X8).
    pub explicit: Explicit,
    /// The isolating run sequences (X10).
    pub sequences: Vec<PlainSequence>,
    /// The classes after W7, or none for a character that X9 removes.
    pub weak: Vec<Option<BidiClass>>,
    /// The classes after N2, or none for a character that X9 removes.
    pub neutral: Vec<Option<BidiClass>>,
    /// The stored levels, those after I2.
    pub levels: Vec<Level>,
    /// The levels after L1, if the paragraph is one line.
    pub line_levels: Vec<Level>,
    /// The visual order: for each visual index, the index of the character there (L2).
    pub order: Vec<usize>,
    /// The visual index of each character.
    pub places: Vec<usize>,
}

/// Returns the classes at some indexes.
fn classes_at(
    alloc: Global,
    classes: &[BidiClass],
    places: &[usize],
) -> Result<Vec<BidiClass>, AllocError>
    requires { All (λ p. p < length classes.now) places.now }
    ensures { IfOk result (λ v. v.items ≡ at_indexes L classes.now places.now) }
{
    let mut found = Vec::with_capacity(alloc, places.len())?;
    for place in places {
        found.push(classes[*place])?;
    }
    Ok(found)
}

/// Returns the brackets at some indexes.
fn brackets_at(
    alloc: Global,
    brackets: &[Option<BidiMatchedOpeningBracket>],
    places: &[usize],
) -> Result<Vec<Option<BidiMatchedOpeningBracket>>, AllocError>
    requires { All (λ p. p < length brackets.now) places.now }
    ensures { IfOk result (λ v. v.items ≡ at_indexes None brackets.now places.now) }
{
    let mut found = Vec::with_capacity(alloc, places.len())?;
    for place in places {
        found.push(brackets[*place])?;
    }
    Ok(found)
}

/// The characters of a paragraph before W1.
#[derive(Clone, Copy)]
struct Characters<'p> {
    source: &'p [BidiClass],
    brackets: &'p [Option<BidiMatchedOpeningBracket>],
    classes: &'p [BidiClass],
    levels: &'p [Level],
}

/// Returns the classes of a sequence after W1 to W7.
fn weak_of(
    alloc: Global,
    paragraph: Characters<'_>,
    sequence: &PlainSequence,
) -> Result<Vec<BidiClass>, AllocError>
    requires { CanResolveIn paragraph sequence.now }
    ensures classes { IfOk result (λ v. v.items ≡ weak_in paragraph.entry.classes.now sequence.now) }
    ensures same_len { IfOk result (λ v. HasOneEach sequence.now v.items) }
{
    let classes = classes_at(alloc, paragraph.classes, sequence.places())?;
    let weak = plain::weak(alloc, sequence.sos(), classes.as_slice())?;
    Ok(weak)
}

/// Returns the level at the first of some indexes.
fn first_level_at(levels: &[Level], places: &[usize]) -> Level
    requires some { 0 < length places.now }
    requires within { All (λ p. p < length levels.now) places.now }
    ensures { result ≡ level_at levels.now (first_or 0 places.now) }
{
    levels[places[0]]
}

/// Returns the classes of a sequence after N0 to N2.
fn neutral_of(
    alloc: Global,
    paragraph: Characters<'_>,
    sequence: &PlainSequence,
    weak: &[BidiClass],
) -> Result<Vec<BidiClass>, AllocError>
    requires sequence { CanResolveIn paragraph sequence.now }
    requires weak { weak.now ≡ weak_in paragraph.classes.now sequence.now }
    ensures classes { IfOk result (λ v. v.items
        ≡ neutral_in paragraph.entry.source.now paragraph.entry.brackets.now paragraph.entry.levels.now
        paragraph.entry.classes.now sequence.now) }
    ensures same_len { IfOk result (λ v. HasOneEach sequence.now v.items) }
{
    let places = sequence.places();
    let source = classes_at(alloc, paragraph.source, places)?;
    let brackets = brackets_at(alloc, paragraph.brackets, places)?;
    let level = first_level_at(paragraph.levels, places);
    let (sos, eos) = (sequence.sos(), sequence.eos());
    let neutral = plain::neutral(
        alloc,
        level,
        sos,
        eos,
        source.as_slice(),
        brackets.as_slice(),
        weak,
    )?;
    Ok(neutral)
}

/// Writes the classes of a sequence's characters to their indexes.
fn write_row(row: &mut Vec<Option<BidiClass>>, places: &[usize], values: &[BidiClass])
    requires within { All (λ p. p < vec_len row.old) places.now }
    requires same_len { length values.now ≡ length places.now }
    ensures { row.new.items ≡ written row.old.items (zip places.now values.now) }
{
    for (at, place) in places.iter().enumerate() {
        row[*place] = Some(values[at]);
    }
}

/// The classes of a paragraph's characters after W7, and after N2.
#[derive(Drop)]
struct Resolved {
    weak: Vec<Option<BidiClass>>,
    neutral: Vec<Option<BidiClass>>,
}

/// Resolves the weak and the neutral classes of a paragraph.
fn resolve(
    alloc: Global,
    paragraph: Characters<'_>,
    sequences: &[PlainSequence],
) -> Result<Resolved, AllocError>
    requires { All (CanResolveIn paragraph) sequences.now }
    ensures weak { IfOk result (λ r. r.weak.items
        ≡ row_of (weak_in paragraph.entry.classes.now) (length paragraph.entry.classes.now) sequences.now) }
    ensures neutral { IfOk result (λ r. r.neutral.items
        ≡ row_of
        (neutral_in paragraph.entry.source.now paragraph.entry.brackets.now paragraph.entry.levels.now
        paragraph.entry.classes.now)
        (length paragraph.entry.classes.now) sequences.now) }
{
    let mut weak_row = vec![in alloc; None; paragraph.classes.len()]?;
    let mut neutral_row = vec![in alloc; None; paragraph.classes.len()]?;
    for sequence in sequences {
        let weak = weak_of(alloc, paragraph, sequence)?;
        let neutral = neutral_of(alloc, paragraph, sequence, weak.as_slice())?;
        write_row(&mut weak_row, sequence.places(), weak.as_slice());
        write_row(&mut neutral_row, sequence.places(), neutral.as_slice());
    }
    Ok(Resolved {
        weak: weak_row,
        neutral: neutral_row,
    })
}

/// Returns the source classes of characters.
fn classes_of<D: BidiDataSource>(
    alloc: Global,
    data_source: &D,
    chars: &[char],
) -> Result<Vec<BidiClass>, AllocError>
    ensures { IfOk result (λ v. v.items ≡ map (D.source data_source.now).class_of chars.now) }
{
    chars
        .iter()
        .map(|c| data_source.bidi_class(*c))
        .collect(alloc)
}

/// Returns the bracket of each character, if it is one.
fn brackets_of<D: BidiDataSource>(
    alloc: Global,
    data_source: &D,
    chars: &[char],
) -> Result<Vec<Option<BidiMatchedOpeningBracket>>, AllocError>
    ensures { IfOk result (λ v. v.items ≡ map (D.source data_source.now).bracket_of chars.now) }
{
    chars
        .iter()
        .map(|c| data_source.bidi_matched_opening_bracket(*c))
        .collect(alloc)
}

/// Returns the result of each stage, given the level of a paragraph, and the stored classes and levels of its
/// characters.
fn stages_of<D: BidiDataSource>(
    alloc: Global,
    data_source: &D,
    level: Level,
    chars: &[char],
    stored: &[BidiClass],
    levels: &[Level],
) -> Result<Stages, AllocError>
    requires low { level ≤ 125 }
    requires stored { stored.now ≡ stored_classes (map (D.source data_source.now).class_of chars.now) }
    requires same_len { length levels.now ≡ length chars.now }
    ensures { IfOk result (StagesFrom (D.source data_source.now) chars.now level levels.now) }
{
    let classes = classes_of(alloc, data_source, chars)?;
    let brackets = brackets_of(alloc, data_source, chars)?;
    let explicit = plain::explicit_levels(alloc, level, stored)?;
    let sequences = plain::sequences(alloc, level, stored, explicit.levels())?;
    let characters = Characters {
        source: classes.as_slice(),
        brackets: brackets.as_slice(),
        classes: explicit.classes(),
        levels: explicit.levels(),
    };
    let resolved = resolve(alloc, characters, sequences.as_slice())?;
    let line_levels = levels_of_line(alloc, level, stored, levels, 0..chars.len())?;
    let order = reorder_visual(alloc, line_levels.as_slice())?;
    let places = inverse(alloc, order.as_slice())?;
    Ok(Stages {
        level,
        classes,
        explicit,
        sequences,
        weak: resolved.weak,
        neutral: resolved.neutral,
        levels: Vec::from_slice(alloc, levels)?,
        line_levels,
        order,
        places,
    })
}

/// Returns the result of each stage of the rules for a paragraph by itself.
///
/// `base_level` is the level of the paragraph, at most 125. If it is `None`, the characters decide (P2, P3). Returns an
/// error if an allocation fails.
pub fn find_stages<D: BidiDataSource>(
    alloc: Global,
    data_source: &D,
    base_level: Option<Level>,
    chars: &[char],
) -> Result<Stages, AllocError>
    requires { IfSome base_level (λ level. level ≤ 125) }
    ensures { IfOk result (AreStages (D.source data_source.now) base_level chars.now) }
{
    let mut analysis = ParagraphAnalysis::new(alloc);
    analysis.find(alloc, data_source, CharsText::new(chars), base_level)?;
    stages_of(
        alloc,
        data_source,
        analysis.level,
        chars,
        analysis.classes.as_slice(),
        analysis.levels.as_slice(),
    )
}
