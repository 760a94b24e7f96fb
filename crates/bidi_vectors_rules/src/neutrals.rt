//! Rows of neutrals (N0 to N2) and of the levels that follow, over lists and in place.

ghost use Rattle.std.specs.Prelude.{map, OnOk};
ghost use Rattle.std.specs.Char.{len_utf8};
ghost use Rattle.std.specs.Str.{chars};
ghost use Rattle.bidi_base.specs.InPlace.{CanResolveNeutrals};
ghost use Rattle.bidi_base.specs.Units.{bounds};

use crate::bracket_pairs::brackets_of;
use crate::unit_sequences::{Sequence, sequences_of_field, whole_sequence_of};
use crate::weak_types::class_field;
use bidi_base::char_data::BidiClass;
use bidi_base::data_source::{BidiMatchedOpeningBracket, TableBidiData};
use bidi_base::level::Level;
use bidi_plain::plain::{implicit, neutral, weak};
use bidi_rules::implicit::{NeutralResolver, resolve_neutral, resolve_up_to_n1};
use bidi_rules::leveled_text::LeveledText;
use bidi_rules::prepare::IsolatingRunSequence;
use bidi_text::text::{StrText, is_per_char};
use bidi_vectors_format::answer::{class_words, classes_in, level_words};
use bidi_vectors_format::class::classes_of;
use bidi_vectors_format::conditions::{
    are_kept, are_left, are_left_or_removed, explicit_level, have_directions, is_side,
};
use bidi_vectors_format::fault::{RowFault, Why};
use bidi_vectors_format::item::levels;
use bidi_vectors_format::row::Row;
use bidi_vectors_format::source::Tables;
use bidi_vectors_format::tally::Tally;
use bidi_vectors_format::text::RowText;
use bidi_vectors_format::units::per_unit;
use std::alloc::Global;

// Resolves the neutrals of a sequence over lists.
fn listed(
    alloc: Global,
    level: Level,
    edges: (BidiClass, BidiClass),
    original: &[BidiClass],
    brackets: &[Option<BidiMatchedOpeningBracket>],
    classes: &[BidiClass],
) -> Result<Vec<BidiClass>, RowFault> {
    if level.number() > 125 || !is_side(edges.0) || !is_side(edges.1) {
        return Err(RowFault::Line(0, Why::Sides));
    }
    if brackets.len() != classes.len() || original.len() != classes.len() {
        return Err(RowFault::Line(0, Why::Lengths));
    }
    if !are_kept(original) || !are_left(classes) {
        return Err(RowFault::Line(0, Why::Classes));
    }
    let answer = neutral(alloc, level, edges.0, edges.1, original, brackets, classes)?;
    Ok(answer)
}

// Three lists with one entry for each code unit: the levels, the classes before the weak types, and the classes before
// the neutrals.
#[derive(Drop)]
struct OfUnits {
    levels: Vec<Level>,
    original: Vec<BidiClass>,
    classes: Vec<BidiClass>,
}

impl OfUnits {
    // Returns these lists, given one entry for each character.
    fn new(alloc: Global, text: &str, before: &Before) -> Result<OfUnits, RowFault> {
        let text = StrText::new(text);
        Ok(OfUnits {
            levels: per_unit(alloc, text, before.levels.as_slice())?,
            original: per_unit(alloc, text, before.original.as_slice())?,
            classes: per_unit(alloc, text, before.classes.as_slice())?,
        })
    }
}

// The input of a call that resolves the neutrals of a sequence: the text, its data source and the sequence, and for
// each code unit the level and the class before the weak types.
#[derive(Clone, Copy)]
struct Neutrals<'a> {
    text: StrText<'a>,
    source: &'a TableBidiData<'a>,
    sequence: &'a IsolatingRunSequence,
    levels: &'a [Level],
    original: &'a [BidiClass],
}

const OTHER_TEXT: RowFault = RowFault::Line(0, Why::OtherText);

const OTHER_CLASSES: RowFault = RowFault::Line(0, Why::Classes);

impl Neutrals<'_> {
    // Returns an error unless the calls may resolve these classes.
    fn check(&self, classes: &[BidiClass]) -> Result<(), RowFault>
        ensures { OnOk result (CanResolveNeutrals len_utf8 (chars self.now.text.text.now)
            (map bounds self.now.sequence.now.runs.items) self.now.levels.now self.now.original.now classes.now) }
    {
        if !self.sequence.fits(self.text) {
            return Err(OTHER_TEXT);
        }
        if !is_per_char(self.text, classes) {
            return Err(OTHER_TEXT);
        }
        if self.levels.len() != classes.len() {
            return Err(OTHER_TEXT);
        }
        if self.original.len() != classes.len() {
            return Err(OTHER_TEXT);
        }
        if !are_left_or_removed(classes) {
            return Err(OTHER_CLASSES);
        }
        Ok(())
    }

    // Resolves the neutrals by `implicit::resolve_neutral`.
    fn resolve_alone(self, alloc: Global, classes: &mut [BidiClass]) -> Result<(), RowFault> {
        self.check(classes)?;
        let Neutrals {
            text,
            source,
            sequence,
            levels,
            original,
        } = self;
        resolve_neutral(alloc, text, source, sequence, levels, original, classes)?;
        Ok(())
    }

    // Resolves the neutrals by `NeutralResolver::resolve`.
    fn resolve_by(
        self,
        resolver: &mut NeutralResolver,
        classes: &mut [BidiClass],
    ) -> Result<(), RowFault> {
        self.check(classes)?;
        let Neutrals {
            text,
            source,
            sequence,
            levels,
            original,
        } = self;
        resolver.resolve(text, source, sequence, levels, original, classes)?;
        Ok(())
    }

    // Resolves the neutrals by `resolve_up_to_n1`.
    fn resolve_up_to_n1(
        self,
        resolver: &mut NeutralResolver,
        classes: &mut [BidiClass],
    ) -> Result<(), RowFault> {
        self.check(classes)?;
        let borrowed = self.sequence.borrowed();
        let leveled = LeveledText {
            text: self.text,
            original_classes: self.original,
            levels: self.levels,
        };
        resolve_up_to_n1(resolver, &leveled, self.source, borrowed, classes)?;
        Ok(())
    }
}

// The call that resolves neutrals in place.
#[derive(Clone, Copy)]
enum Call {
    Alone,
    ByOneResolver,
    UpToN1,
}

impl Call {
    fn name(self) -> &'static str {
        match self {
            Call::Alone => "implicit::resolve_neutral",
            Call::ByOneResolver => "NeutralResolver::resolve",
            Call::UpToN1 => "implicit::resolve_up_to_n1",
        }
    }

    // Returns the row's field that has the resulting classes.
    fn key(self) -> &'static str {
        match self {
            Call::UpToN1 => "without n2",
            _ => "after",
        }
    }

    // Resolves the neutrals of a sequence in place. Only `ByOneResolver` uses the resolver.
    fn resolve(
        self,
        alloc: Global,
        neutrals: Neutrals<'_>,
        classes: &mut [BidiClass],
        resolver: &mut NeutralResolver,
    ) -> Result<(), RowFault> {
        match self {
            Call::Alone => neutrals.resolve_alone(alloc, classes),
            Call::ByOneResolver => neutrals.resolve_by(resolver, classes),
            Call::UpToN1 => neutrals.resolve_up_to_n1(&mut NeutralResolver::new(alloc), classes),
        }
    }
}

const CALLS: [Call; 3] = [Call::Alone, Call::ByOneResolver, Call::UpToN1];

// The classes and levels that a row gives the characters of a sequence.
#[derive(Drop)]
struct Before {
    levels: Vec<Level>,
    original: Vec<BidiClass>,
    classes: Vec<BidiClass>,
}

impl Before {
    // Reads them from a row that has the levels.
    fn of_row(alloc: Global, row: &Row<'_>) -> Result<Before, RowFault> {
        Ok(Before {
            levels: levels(alloc, row.field("levels")?)?,
            original: classes_of(alloc, row.field("original")?)?,
            classes: classes_of(alloc, row.field("classes")?)?,
        })
    }

    // Reads them from a row with all characters at level 0.
    fn at_level_0(alloc: Global, row: &Row<'_>) -> Result<Before, RowFault> {
        let classes = classes_of(alloc, row.field("classes")?)?;
        Ok(Before {
            levels: vec![in alloc; Level::ltr(); classes.len()]?,
            original: classes_of(alloc, row.field("original")?)?,
            classes,
        })
    }
}

// What a row gives the calls in place: a text with its data source, its sequences, and the levels and classes of its
// characters.
#[derive(Clone, Copy)]
struct Given<'a> {
    text: &'a str,
    source: &'a TableBidiData<'a>,
    sequences: &'a [Sequence],
    before: &'a Before,
}

impl Given<'_> {
    // Resolves the neutrals of a sequence in place by this call.
    fn resolve(
        &self,
        alloc: Global,
        call: Call,
        sequence: &Sequence,
        units: &mut OfUnits,
        resolver: &mut NeutralResolver,
    ) -> Result<(), RowFault> {
        let (sos, eos) = (sequence.sos, sequence.eos);
        let sequence = whole_sequence_of(alloc, sequence.runs.as_slice(), sos, eos, 0)?;
        let neutrals = Neutrals {
            text: StrText::new(self.text),
            source: self.source,
            sequence: &sequence,
            levels: units.levels.as_slice(),
            original: units.original.as_slice(),
        };
        call.resolve(alloc, neutrals, units.classes.as_mut_slice(), resolver)
    }

    // Resolves the neutrals of all sequences in place by this call.
    fn resolve_each(
        &self,
        alloc: Global,
        call: Call,
        units: &mut OfUnits,
        resolver: &mut NeutralResolver,
    ) -> Result<(), RowFault> {
        for sequence in self.sequences {
            self.resolve(alloc, call, sequence, units, resolver)?;
        }
        Ok(())
    }

    // Resolves the neutrals of all sequences in place by this call, and returns the class of each code unit.
    fn resolved(&self, alloc: Global, call: Call) -> Result<Vec<BidiClass>, RowFault> {
        let mut units = OfUnits::new(alloc, self.text, self.before)?;
        let mut resolver = NeutralResolver::new(alloc);
        self.resolve_each(alloc, call, &mut units, &mut resolver)?;
        Ok(units.classes)
    }

    // Returns the classes that a call leaves, as text.
    fn words(&self, alloc: Global, call: Call) -> Result<String, RowFault> {
        let classes = self.resolved(alloc, call)?;
        classes_in(alloc, StrText::new(self.text), classes.as_slice())
    }
}

// Compares the result of each call in place with a row.
fn check_in_place(alloc: Global, row: &Row<'_>, tally: &mut Tally, given: &Given<'_>) {
    for call in CALLS.iter() {
        tally.agree(row, call.key(), call.name(), given.words(alloc, *call));
    }
}

// Resolves the neutrals over a list, and returns them as text.
fn listed_words(
    alloc: Global,
    source: &TableBidiData,
    text: &[char],
    edges: (BidiClass, BidiClass),
    before: &Before,
) -> Result<String, RowFault> {
    let brackets = brackets_of(alloc, source, text)?;
    let (original, classes) = (before.original.as_slice(), before.classes.as_slice());
    let level = Level::ltr();
    let answer = listed(alloc, level, edges, original, brackets.as_slice(), classes)?;
    class_words(alloc, answer.as_slice())
}

// Returns the one sequence of a whole text.
fn whole_text(
    alloc: Global,
    text: &str,
    edges: (BidiClass, BidiClass),
) -> Result<Vec<Sequence>, RowFault> {
    let runs = vec![in alloc; (0, text.len())]?;
    let (sos, eos) = edges;
    Ok(vec![in alloc; Sequence { runs, sos, eos }]?)
}

/// Runs a row of a text at level 0 that is one sequence: the rule over a list, and the passes in place.
pub fn run_list(
    alloc: Global,
    tables: &Tables,
    row: &Row<'_>,
    tally: &mut Tally,
) -> Result<(), RowFault> {
    row.has_only(&[
        "text",
        "source",
        "sos",
        "eos",
        "original",
        "classes",
        "after",
        "without n2",
    ])?;
    let source = tables.source(row.line)?;
    let edges = (class_field(row, "sos")?, class_field(row, "eos")?);
    let before = Before::at_level_0(alloc, row)?;
    let text = RowText::of_row(alloc, row)?;
    let words = listed_words(alloc, &source, text.chars.as_slice(), edges, &before);
    tally.agree(row, "after", "plain::neutral", words);
    let text = text.utf8.as_str();
    let sequences = whole_text(alloc, text, edges)?;
    let given = Given {
        text,
        source: &source,
        sequences: sequences.as_slice(),
        before: &before,
    };
    check_in_place(alloc, row, tally, &given);
    Ok(())
}

/// Runs a row of a text with its sequences and three lists with one entry for each character.
///
/// These are the explicit levels, the classes before the weak types, and the classes before the neutrals.
pub fn run_units(
    alloc: Global,
    tables: &Tables,
    row: &Row<'_>,
    tally: &mut Tally,
) -> Result<(), RowFault> {
    row.has_only(&[
        "text",
        "source",
        "sequences",
        "levels",
        "original",
        "classes",
        "after",
        "without n2",
    ])?;
    let source = tables.source(row.line)?;
    let field = row.field("sequences")?;
    let before = Before::of_row(alloc, row)?;
    let text = RowText::of_row(alloc, row)?;
    let text = text.utf8.as_str();
    let sequences = sequences_of_field(alloc, StrText::new(text), field)?;
    let given = Given {
        text,
        source: &source,
        sequences: sequences.as_slice(),
        before: &before,
    };
    check_in_place(alloc, row, tally, &given);
    Ok(())
}

// Resolves the weak types of a sequence over a list. Its sos is `edge`.
fn listed_weak(
    alloc: Global,
    edge: BidiClass,
    classes: &[BidiClass],
) -> Result<Vec<BidiClass>, RowFault> {
    if !is_side(edge) || !are_kept(classes) {
        return Err(RowFault::Line(0, Why::Classes));
    }
    Ok(weak(alloc, edge, classes)?)
}

// Returns the implicit levels of classes at a level, as text.
fn listed_levels(alloc: Global, level: Level, classes: &[BidiClass]) -> Result<String, RowFault> {
    if level.number() > 125 || !have_directions(classes) {
        return Err(RowFault::Line(0, Why::Classes));
    }
    let levels = implicit(alloc, level, classes)?;
    level_words(alloc, levels.as_slice())
}

// Returns the levels that the rules over lists give a sequence, as text. Its sos and eos are both `edge`.
fn words_of_levels(
    alloc: Global,
    source: &TableBidiData,
    text: &[char],
    row: &Row<'_>,
) -> Result<String, RowFault> {
    let level = explicit_level(row, "level")?;
    let edge = class_field(row, "edge")?;
    let classes = classes_of(alloc, row.field("classes")?)?;
    let classes = classes.as_slice();
    let resolved = listed_weak(alloc, edge, classes)?;
    let brackets = brackets_of(alloc, source, text)?;
    let (brackets, resolved) = (brackets.as_slice(), resolved.as_slice());
    let answer = listed(alloc, level, (edge, edge), classes, brackets, resolved)?;
    listed_levels(alloc, level, answer.as_slice())
}

/// Runs a row of a text that is one sequence, and compares its levels after I1 and I2.
///
/// The row has the level, one class that is both sos and eos, and the classes.
pub fn run_levels(
    alloc: Global,
    tables: &Tables,
    row: &Row<'_>,
    tally: &mut Tally,
) -> Result<(), RowFault> {
    row.has_only(&["text", "source", "level", "edge", "classes", "levels"])?;
    let source = tables.source(row.line)?;
    let text = RowText::of_row(alloc, row)?;
    let words = words_of_levels(alloc, &source, text.chars.as_slice(), row);
    tally.agree(row, "levels", "plain: weak, neutral, implicit", words);
    Ok(())
}
