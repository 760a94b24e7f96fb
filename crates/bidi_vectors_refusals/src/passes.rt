//! The passes in place, over the code units of one paragraph.

ghost use Rattle.std.specs.Prelude.{◌≡◌, ◌≤◌, ◌||◌, length};

use crate::texts::{TEXT, WITHOUT_ISOLATES};
use crate::trial::{Fault, NoAnswer, tried, tried_by, tried_here};
use bidi_base::char_data::BidiClass::{self, L};
use bidi_base::data_source::TableBidiData;
use bidi_base::level::{LTR_LEVEL, Level, RTL_LEVEL};
use bidi_rules::explicit::{compute, compute_counted};
use bidi_rules::implicit::{NeutralResolver, resolve_levels, resolve_neutral, resolve_weak};
use bidi_rules::prepare::{IsolatingRunSequence, LevelRunVec, Steps, isolating_run_sequences};
use bidi_text::text::{StrText, is_per_char};
use bidi_vectors_format::conditions::{are_left_or_removed, has_initiator};
use std::alloc::Global;
use std::marker::Brand;
use std::sync::ledger::{Blank, Ledger};
use unicode_bidi::InitialInfo;

// The maximum number of code units of a text here.
const ROOM: usize = 256;

// The output of the passes: the level and the class of each code unit.
#[derive(Clone, Copy, PartialEq)]
struct Units {
    levels: [Level; ROOM],
    classes: [BidiClass; ROOM],
}

// A text, the stored class of each code unit, and whether one of these is an initiator.
#[derive(Clone, Copy)]
struct Classified<'a> {
    text: StrText<'a>,
    classes: &'a [BidiClass],
    has_isolate_controls: bool,
}

// Returns the sequences of a paragraph at the level `para_level`, and writes its explicit levels and its classes to the
// slices.
fn prepare(
    alloc: Global,
    paragraph: Classified<'_>,
    para_level: Level,
    levels: &mut [Level],
    processing_classes: &mut [BidiClass],
) -> Result<Vec<IsolatingRunSequence>, NoAnswer>
    requires explicit { para_level ≤ 125 }
    requires same_len { length levels.old ≡ length paragraph.classes.now }
    requires processing { processing_classes.old ≡ paragraph.classes.now }
{
    if !is_per_char(paragraph.text, paragraph.classes)
        || (has_initiator(paragraph.classes) && !paragraph.has_isolate_controls)
    {
        return Err(NoAnswer::Wrong);
    }
    let mut runs = Vec::new(alloc);
    compute(
        alloc,
        paragraph.text,
        para_level,
        paragraph.classes,
        levels,
        processing_classes,
        &mut runs,
    )?;
    let mut sequences = Vec::new(alloc);
    isolating_run_sequences(
        alloc,
        paragraph.text,
        para_level,
        paragraph.classes,
        levels,
        runs,
        paragraph.has_isolate_controls,
        &mut sequences,
    )?;
    Ok(sequences)
}

// Runs the first two passes on a text.
fn prepared(
    alloc: Global,
    paragraph: Classified<'_>,
) -> Result<(Units, Vec<IsolatingRunSequence>), NoAnswer> {
    let count = paragraph.classes.len();
    if count > ROOM {
        return Err(NoAnswer::Wrong);
    }
    let mut units = Units {
        levels: [LTR_LEVEL; ROOM],
        classes: [L; ROOM],
    };
    let classes = &mut units.classes[..count];
    classes.copy_from_slice(paragraph.classes);
    let sequences = prepare(
        alloc,
        paragraph,
        RTL_LEVEL,
        &mut units.levels[..count],
        classes,
    )?;
    Ok((units, sequences))
}

// Runs only the first pass on a text.
fn computed(alloc: Global, paragraph: Classified<'_>) -> Result<(Units, LevelRunVec), NoAnswer> {
    let count = paragraph.classes.len();
    if count > ROOM || !is_per_char(paragraph.text, paragraph.classes) {
        return Err(NoAnswer::Wrong);
    }
    let mut units = Units {
        levels: [LTR_LEVEL; ROOM],
        classes: [L; ROOM],
    };
    let classes = &mut units.classes[..count];
    classes.copy_from_slice(paragraph.classes);
    let mut runs = Vec::new(alloc);
    compute(
        alloc,
        paragraph.text,
        RTL_LEVEL,
        paragraph.classes,
        &mut units.levels[..count],
        classes,
        &mut runs,
    )?;
    Ok((units, runs))
}

// Runs the first pass on a text, and counts its steps in the ledger that this blank opens.
fn computed_by<S: Ledger>(
    alloc: Global,
    paragraph: Classified<'_>,
    blank: Blank,
) -> Result<(Units, LevelRunVec), NoAnswer>
    requires name { blank.name ≡ S.name }
    requires parts { blank.parts ≡ S.parts }
    requires one { blank.parts ≡ 1 }
{
    let count = paragraph.classes.len();
    if count > ROOM || !is_per_char(paragraph.text, paragraph.classes) {
        return Err(NoAnswer::Wrong);
    }
    let mut units = Units {
        levels: [LTR_LEVEL; ROOM],
        classes: [L; ROOM],
    };
    let classes = &mut units.classes[..count];
    classes.copy_from_slice(paragraph.classes);
    let mut runs = Vec::new(alloc);
    let mut steps = Steps::<S>::new(blank);
    compute_counted(
        alloc,
        paragraph.text,
        RTL_LEVEL,
        paragraph.classes,
        &mut units.levels[..count],
        classes,
        &mut runs,
        &mut steps,
    )?;
    Ok((units, runs))
}

// Runs the first pass on a text, and counts its steps.
fn computed_counted(
    alloc: Global,
    paragraph: Classified<'_>,
) -> Result<(Units, LevelRunVec), NoAnswer> {
    computed_by::<Brand>(alloc, paragraph, Blank::new(1))
}

// Resolves the weak types of a sequence, which does not allocate, and returns the code units.
fn with_weak(
    paragraph: Classified<'_>,
    sequence: &IsolatingRunSequence,
    before: &Units,
) -> Result<Units, NoAnswer> {
    let mut units = *before;
    let count = paragraph.classes.len();
    if count > ROOM
        || !sequence.fits(paragraph.text)
        || !is_per_char(paragraph.text, &units.classes[..count])
    {
        return Err(NoAnswer::Wrong);
    }
    resolve_weak(paragraph.text, sequence, &mut units.classes[..count]);
    Ok(units)
}

// A sequence of a text, and the data source that has the brackets of its characters.
#[derive(Clone, Copy)]
struct Neutrals<'t, 'd, 's> {
    paragraph: Classified<'t>,
    source: &'s TableBidiData<'d>,
    sequence: &'s IsolatingRunSequence,
}

// Resolves the neutrals of a sequence in place, by `resolver` or by the plain call.
fn resolve(
    alloc: Global,
    neutrals: Neutrals<'_, '_, '_>,
    levels: &[Level],
    classes: &mut [BidiClass],
    resolver: &mut NeutralResolver,
    is_by_resolver: bool,
) -> Result<(), NoAnswer> {
    let Neutrals {
        paragraph,
        source,
        sequence,
    } = neutrals;
    let (text, original) = (paragraph.text, paragraph.classes);
    let fits = sequence.fits(text) && is_per_char(text, classes);
    if !fits || levels.len() != classes.len() || original.len() != classes.len() {
        return Err(NoAnswer::Wrong);
    }
    if !are_left_or_removed(classes) {
        return Err(NoAnswer::Wrong);
    }
    if is_by_resolver {
        resolver.resolve(text, source, sequence, levels, original, classes)?;
    } else {
        resolve_neutral(alloc, text, source, sequence, levels, original, classes)?;
    }
    Ok(())
}

// Resolves the neutrals of a sequence, and returns the code units. A failed allocation must leave the classes
// unchanged.
fn with_neutrals(
    alloc: Global,
    neutrals: Neutrals<'_, '_, '_>,
    before: &Units,
    resolver: &mut NeutralResolver,
    is_by_resolver: bool,
) -> Result<Units, NoAnswer> {
    let count = neutrals.paragraph.classes.len();
    if count > ROOM {
        return Err(NoAnswer::Wrong);
    }
    let mut units = *before;
    let outcome = resolve(
        alloc,
        neutrals,
        &before.levels[..count],
        &mut units.classes[..count],
        resolver,
        is_by_resolver,
    );
    match outcome {
        Ok(()) => Ok(units),
        Err(_) if units != *before => Err(NoAnswer::Wrong),
        Err(reason) => Err(reason),
    }
}

// Resolves the implicit levels, which does not allocate. Returns the code units and the maximum level.
fn with_implicit(paragraph: Classified<'_>, before: &Units) -> Result<(Units, Level), NoAnswer> {
    let mut units = *before;
    let count = paragraph.classes.len();
    if count > ROOM
        || units.levels[..count]
            .iter()
            .any(|level| level.number() > 125)
    {
        return Err(NoAnswer::Wrong);
    }
    let greatest = resolve_levels(&units.classes[..count], &mut units.levels[..count]);
    Ok((units, greatest))
}

// Tries the weak types of a sequence.
fn try_weak(
    rt: &impl Print,
    paragraph: Classified<'_>,
    sequence: &IsolatingRunSequence,
    units: &mut Units,
) -> Result<(), Fault> {
    let before = *units;
    *units = tried(rt, "implicit::resolve_weak", || {
        with_weak(paragraph, sequence, &before)
    })?;
    Ok(())
}

// Tries the neutrals of a sequence, by a resolver and by the plain call.
fn try_neutrals(
    rt: &(impl Print + AllocGlobal),
    neutrals: Neutrals<'_, '_, '_>,
    units: &mut Units,
    resolver: &mut NeutralResolver,
) -> Result<(), Fault> {
    let alloc = rt.alloc();
    let before = *units;
    tried_by(
        rt,
        "NeutralResolver::resolve",
        || with_neutrals(alloc, neutrals, &before, resolver, true),
        |this, other| *this == *other,
    )?;
    *units = tried_by(
        rt,
        "implicit::resolve_neutral",
        || with_neutrals(alloc, neutrals, &before, resolver, false),
        |this, other| *this == *other,
    )?;
    Ok(())
}

// Tries the passes on a text, one after another.
fn try_passes(
    rt: &(impl Print + AllocGlobal),
    source: &TableBidiData<'_>,
    paragraph: Classified<'_>,
) -> Result<(), Fault> {
    let alloc = rt.alloc();
    tried(rt, "explicit::compute", || computed(alloc, paragraph))?;
    tried(rt, "explicit::compute_counted", || {
        computed_counted(alloc, paragraph)
    })?;
    let name = "explicit::compute and prepare::isolating_run_sequences";
    let (mut units, sequences) = tried(rt, name, || prepared(alloc, paragraph))?;
    for sequence in &sequences {
        try_weak(rt, paragraph, sequence, &mut units)?;
    }
    let mut resolver = NeutralResolver::new(alloc);
    for sequence in &sequences {
        let neutrals = Neutrals {
            paragraph,
            source: &*source,
            sequence,
        };
        try_neutrals(rt, neutrals, &mut units, &mut resolver)?;
    }
    tried(rt, "implicit::resolve_levels", || {
        with_implicit(paragraph, &units)
    })?;
    Ok(())
}

/// Tries the passes on a text with isolates, and on one without.
pub fn run(rt: &(impl Print + AllocGlobal), source: &TableBidiData<'_>) -> Result<(), Fault> {
    for (text, has_isolate_controls) in [(TEXT, true), (WITHOUT_ISOLATES, false)] {
        let alloc = rt.alloc();
        let info = tried_here!(
            rt,
            "InitialInfo::new_with_data_source",
            InitialInfo::new_with_data_source(alloc, source, text, None)
        );
        let paragraph = Classified {
            text: StrText::new(text),
            classes: info.original_classes(),
            has_isolate_controls,
        };
        try_passes(rt, source, paragraph)?;
    }
    Ok(())
}
