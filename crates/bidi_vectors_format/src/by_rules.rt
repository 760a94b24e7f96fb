//! The stored classes and levels of a text, found by applying the rules over lists one after another.

ghost use Rattle.std.specs.Prelude.{◌≤◌, IfOk};

use crate::conditions::{are_kept, is_side};
use crate::fault::{RowFault, Why};
use bidi_base::char_data::BidiClass::{self, B, FSI, L, LRI, RLI};
use bidi_base::classes::{is_isolate_initiator, is_pdi, is_removed, is_strong};
use bidi_base::data_source::{BidiDataSource, BidiMatchedOpeningBracket, TableBidiData};
use bidi_base::level::Level;
use bidi_plain::plain::{
    Explicit, PlainSequence, explicit_levels, implicit, neutral, sequences, weak,
};
use std::alloc::Global;

// A condition of the rules over lists does not hold. No row breaks one.
const NO_SEQUENCE: RowFault = RowFault::Line(0, Why::RulesOverLists);

// Returns the index of the PDI that matches an initiator (BD9), or the number of classes if there is none.
fn matching_pdi(classes: &[BidiClass], initiator: usize) -> usize {
    let mut depth = 0usize;
    for (index, class) in classes.iter().enumerate().skip(initiator) {
        if is_isolate_initiator(*class) {
            depth = depth.saturating_add(1);
        } else if is_pdi(*class) {
            depth = depth.saturating_sub(1);
            if depth == 0 {
                return index;
            }
        }
    }
    classes.len()
}

// Returns the first strong class between two indexes that is outside isolates (P2).
fn deciding_class(classes: &[BidiClass], from: usize, to: usize) -> Option<BidiClass> {
    let mut isolate_end = 0;
    for (index, class) in classes.iter().enumerate().take(to).skip(from) {
        if index >= isolate_end {
            if is_strong(*class) {
                return Some(*class);
            }
            if is_isolate_initiator(*class) {
                isolate_end = matching_pdi(classes, index);
            }
        }
    }
    None
}

// Returns the classes with each FSI resolved (X5c).
fn with_resolved_fsi(alloc: Global, classes: &[BidiClass]) -> Result<Vec<BidiClass>, RowFault> {
    let mut stored = Vec::new(alloc);
    for (index, class) in classes.iter().enumerate() {
        let end = matching_pdi(classes, index);
        let decided = match deciding_class(classes, index.saturating_add(1), end) {
            Some(L) => LRI,
            Some(_) => RLI,
            None => FSI,
        };
        stored.push(if *class == FSI { decided } else { *class })?;
    }
    Ok(stored)
}

// Returns the explicit level with a number.
fn explicit(number: u8) -> Result<Level, RowFault>
    ensures { IfOk result (λ level. level ≤ 125) }
{
    Level::new_explicit(number).map_err(|_| NO_SEQUENCE)
}

// Returns the level of a paragraph (P2, P3).
fn paragraph_level(classes: &[BidiClass], base_level: Option<u8>) -> Result<Level, RowFault> {
    match base_level {
        Some(number) => explicit(number),
        None => match deciding_class(classes, 0, classes.len()) {
            None | Some(L) => Ok(Level::ltr()),
            Some(_) => Ok(Level::rtl()),
        },
    }
}

// Returns the entries at these indexes.
fn at<X: Copy>(alloc: Global, entries: &[X], places: &[usize]) -> Result<Vec<X>, RowFault> {
    let mut found = Vec::new(alloc);
    for place in places {
        found.push(entries.get(*place).copied().ok_or(NO_SEQUENCE)?)?;
    }
    Ok(found)
}

// The characters of a paragraph: their stored classes, their brackets, and their classes and levels after X1 to X8.
#[derive(Drop)]
struct Characters {
    classes: Vec<BidiClass>,
    brackets: Vec<Option<BidiMatchedOpeningBracket>>,
    overridden: Vec<BidiClass>,
    levels: Vec<Level>,
}

impl Characters {
    // Returns the characters of a sequence.
    fn of_sequence(&self, alloc: Global, sequence: &PlainSequence) -> Result<Characters, RowFault> {
        let places = sequence.places();
        Ok(Characters {
            classes: at(alloc, self.classes.as_slice(), places)?,
            brackets: at(alloc, self.brackets.as_slice(), places)?,
            overridden: at(alloc, self.overridden.as_slice(), places)?,
            levels: at(alloc, self.levels.as_slice(), places)?,
        })
    }

    // Returns the level that all characters of a sequence have.
    fn level(&self) -> Result<Level, RowFault>
        ensures { IfOk result (λ level. level ≤ 125) }
    {
        let level = self.levels.first().copied().ok_or(NO_SEQUENCE)?;
        explicit(level.number())
    }

    // Returns the levels of these characters, which are a sequence with these sides (W1 to W7, N0 to N2, I1 and I2).
    fn resolved(
        &self,
        alloc: Global,
        sos: BidiClass,
        eos: BidiClass,
    ) -> Result<Vec<Level>, RowFault> {
        let level = self.level()?;
        let (classes, brackets) = (self.classes.as_slice(), self.brackets.as_slice());
        let overridden = self.overridden.as_slice();
        if !is_side(sos) || !is_side(eos) {
            return Err(NO_SEQUENCE);
        }
        if !are_kept(classes) || !are_kept(overridden) {
            return Err(NO_SEQUENCE);
        }
        if classes.len() != overridden.len() || brackets.len() != overridden.len() {
            return Err(NO_SEQUENCE);
        }
        let resolved = weak(alloc, sos, overridden)?;
        let resolved = resolved.as_slice();
        let directed = neutral(alloc, level, sos, eos, classes, brackets, resolved)?;
        Ok(implicit(alloc, level, directed.as_slice())?)
    }

    // Returns the levels of the characters of a sequence.
    fn levels_of(&self, alloc: Global, sequence: &PlainSequence) -> Result<Vec<Level>, RowFault> {
        let characters = self.of_sequence(alloc, sequence)?;
        characters.resolved(alloc, sequence.sos(), sequence.eos())
    }
}

// Returns the bracket of each character of a text, if it is one.
fn brackets_of(
    alloc: Global,
    source: &TableBidiData,
    text: &[char],
) -> Result<Vec<Option<BidiMatchedOpeningBracket>>, RowFault> {
    let mut brackets = Vec::new(alloc);
    for c in text {
        brackets.push(source.bidi_matched_opening_bracket(*c))?;
    }
    Ok(brackets)
}

// Returns the stored classes of a paragraph.
fn classes_of(
    alloc: Global,
    source: &TableBidiData,
    text: &[char],
) -> Result<Vec<BidiClass>, RowFault> {
    let mut classes = Vec::new(alloc);
    for c in text {
        classes.push(source.bidi_class(*c))?;
    }
    with_resolved_fsi(alloc, classes.as_slice())
}

// Writes levels to these indexes.
fn write(levels: &mut [Level], places: &[usize], resolved: &[Level]) {
    for (place, level) in places.iter().zip(resolved) {
        if *place < levels.len() {
            levels[*place] = *level;
        }
    }
}

// Returns the levels of a paragraph's characters. Those of characters that X9 removes are not set yet.
fn levels_by_sequences(
    alloc: Global,
    characters: &Characters,
    sequences: &[PlainSequence],
) -> Result<Vec<Level>, RowFault> {
    let mut levels = Vec::from_slice(alloc, characters.levels.as_slice())?;
    for sequence in sequences {
        let resolved = characters.levels_of(alloc, sequence)?;
        write(
            levels.as_mut_slice(),
            sequence.places(),
            resolved.as_slice(),
        );
    }
    Ok(levels)
}

// A paragraph: its data source, and its characters with their stored classes.
#[derive(Clone, Copy)]
struct Paragraph<'a> {
    source: &'a TableBidiData<'a>,
    text: &'a [char],
    classes: &'a [BidiClass],
}

impl Paragraph<'_> {
    // Returns the characters after X1 to X8.
    fn characters(&self, alloc: Global, explicit: &Explicit) -> Result<Characters, RowFault> {
        Ok(Characters {
            classes: Vec::from_slice(alloc, self.classes)?,
            brackets: brackets_of(alloc, self.source, self.text)?,
            overridden: Vec::from_slice(alloc, explicit.classes())?,
            levels: Vec::from_slice(alloc, explicit.levels())?,
        })
    }

    // Returns the levels of the characters, given the result of X1 to X8 and the sequences.
    fn levels_in(
        &self,
        alloc: Global,
        explicit: &Explicit,
        sequences: &[PlainSequence],
    ) -> Result<Vec<Level>, RowFault> {
        let characters = self.characters(alloc, explicit)?;
        levels_by_sequences(alloc, &characters, sequences)
    }

    // Returns the levels of the characters. Those of characters that X9 removes are not set yet.
    fn levels(&self, alloc: Global, para_level: Level) -> Result<Vec<Level>, RowFault>
        requires { para_level ≤ 125 }
    {
        let explicit = explicit_levels(alloc, para_level, self.classes)?;
        let found = sequences(alloc, para_level, self.classes, explicit.levels())?;
        self.levels_in(alloc, &explicit, found.as_slice())
    }

    // Returns the stored levels.
    fn resolved(&self, alloc: Global, base_level: Option<u8>) -> Result<Vec<Level>, RowFault> {
        let para_level = explicit(paragraph_level(self.classes, base_level)?.number())?;
        let levels = self.levels(alloc, para_level)?;
        with_removed(alloc, para_level, self.classes, levels.as_slice())
    }
}

// Returns the levels, and gives each character that X9 removes the level of the character before it.
fn with_removed(
    alloc: Global,
    para_level: Level,
    classes: &[BidiClass],
    levels: &[Level],
) -> Result<Vec<Level>, RowFault> {
    let mut stored = Vec::new(alloc);
    let mut before = para_level;
    for (class, level) in classes.iter().zip(levels) {
        if !is_removed(*class) {
            before = *level;
        }
        stored.push(before)?;
    }
    Ok(stored)
}

// The stored classes and levels of the paragraphs that are resolved so far.
#[derive(Drop)]
struct Resolved {
    classes: Vec<BidiClass>,
    levels: Vec<Level>,
}

impl Resolved {
    // Appends the classes and levels of a paragraph.
    fn extend(&mut self, classes: &[BidiClass], levels: &[Level]) -> Result<(), RowFault> {
        self.classes.extend_from_slice(classes)?;
        self.levels.extend_from_slice(levels)?;
        Ok(())
    }

    // Resolves the next paragraph.
    fn push(
        &mut self,
        alloc: Global,
        source: &TableBidiData,
        text: &[char],
        base_level: Option<u8>,
    ) -> Result<(), RowFault> {
        let classes = classes_of(alloc, source, text)?;
        let classes = classes.as_slice();
        let paragraph = Paragraph {
            source,
            text,
            classes,
        };
        let levels = paragraph.resolved(alloc, base_level)?;
        self.extend(classes, levels.as_slice())
    }
}

/// Returns the stored classes and levels of a text that is split after each separator (P1), or is one paragraph.
pub fn resolve(
    alloc: Global,
    source: &TableBidiData,
    text: &[char],
    base_level: Option<u8>,
    is_cut: bool,
) -> Result<(Vec<BidiClass>, Vec<Level>), RowFault> {
    let mut resolved = Resolved {
        classes: Vec::new(alloc),
        levels: Vec::new(alloc),
    };
    let mut paragraph = Vec::new(alloc);
    let count = text.len();
    for (index, c) in text.iter().copied().enumerate() {
        paragraph.push(c)?;
        if index.saturating_add(1) == count || (is_cut && source.bidi_class(c) == B) {
            resolved.push(alloc, source, paragraph.as_slice(), base_level)?;
            paragraph.clear();
        }
    }
    Ok((resolved.classes, resolved.levels))
}
