//! The levels of one paragraph after another (X1 to I2), by passes in place over its code units. Characters
//! that X9 removes get levels too.
ghost use Rattle.std.specs.Prelude.{◌≡◌, ℕ, ◌+◌, ◌<◌, ◌≤◌, true, false, length, map, slice_index, All, OnOk};
ghost use Rattle.bidi_base.specs.declared.char_data.BidiClass.TheVariants.{L};
ghost use Rattle.bidi_base.specs.Explicit.{explicit_levels, processing_classes};
ghost use Rattle.bidi_base.specs.WithoutOpeners.{is_flat, hidden};
ghost use Rattle.bidi_base.specs.Classes.{is_removed};
ghost use Rattle.bidi_base.specs.Isolates.{stored_classes};
ghost use Rattle.bidi_base.specs.Sequences.{is_kept_at, sequences};
ghost use Rattle.bidi_base.specs.Stored.{levels_in};
ghost use Rattle.bidi_base.specs.Texts.{per_char, per_unit, text_len, AreLines};
ghost use Rattle.bidi_base.specs.Updated.{IsUpdated};
ghost use Rattle.bidi_explicit.specs.InText.{sequences_of};
ghost use Rattle.bidi_explicit.specs.Links.{linked_runs, linked_sequences, AreLinked};
ghost use Rattle.bidi_paragraphs.specs.ParagraphFlags.{flags_of};

use crate::known_levels::{has_known_levels, write_l_over_numbers};
use crate::paragraph_flags::ParagraphFlags;
use bidi_base::char_data::BidiClass;
use bidi_base::classes::is_removed;
use bidi_base::data_source::BidiDataSource;
use bidi_base::level::Level;
use bidi_base::search::{Among, ClassTest, first_passing};
use bidi_base::steps::Steps;
use bidi_explicit::explicit::{Paragraph, StepUnit, find_levels_counted};
use bidi_rules::implicit::{
    NeutralResolver, resolve_levels, resolve_up_to_n1, resolve_weak_borrowed_counted,
};
use bidi_rules::leveled_text::LeveledText;
use bidi_rules::prepare::{BorrowedSequence, LevelRunVec, RunLinks};
use bidi_text::text::TextSource;
use smallvec::SmallVec;
use std::alloc::{AllocError, Global};
use std::marker::Brand;
use std::sync::ledger::{Blank, Ledger};

/// The classes of a paragraph of up to this many code units need no allocation.
pub const FEW_UNITS: usize = 256;

// The list of level runs begins with room for this many, so that it seldom grows in a short text.
const FEW_RUNS: usize = 16;

/// A paragraph with all that is needed to find its levels.
#[derive(Drop)]
pub struct ClassifiedParagraph<'a, D: BidiDataSource, T: TextSource> {
    /// The data source of its classes and brackets.
    pub data_source: &'a D,
    /// The text of this paragraph only.
    pub text: T,
    /// Its level, at most 125.
    pub level: Level,
    /// The flags of this paragraph's characters only.
    pub flags: ParagraphFlags,
    /// The stored classes (X5c) of its text, one for each code unit.
    pub original_classes: &'a [BidiClass],
    ghost low: { level ≤ 125 },
    ghost own_flags: { flags ≡ flags_of (map (D.source data_source.now).class_of (T.text text).chars) },
    ghost stored: { original_classes.now
        ≡ per_unit (T.text text)
        (stored_classes (map (D.source data_source.now).class_of (T.text text).chars)) },
}

/// Finds the levels (X1 to I2) of one paragraph after another, and reuses the memory of its lists for each.
#[derive(Drop)]
pub struct LevelResolver {
    /// The class of each code unit, as far as the passes have resolved it.
    classes: SmallVec<BidiClass, FEW_UNITS>,
    /// The level runs, and then a copy of the runs of the current sequence if it has several.
    runs: LevelRunVec,
    /// The isolating run sequences, as links between the level runs.
    links: RunLinks,
    neutrals: NeutralResolver,
}

impl LevelResolver {
    ghost use Rattle.bidi_paragraphs.specs.Paragraph.{IsOneAUnit, HaveCharLevels, AreOfRules};

    /// Creates a resolver. Does not allocate.
    pub fn new(alloc: Global) -> LevelResolver {
        LevelResolver {
            classes: SmallVec::new(alloc),
            runs: Vec::new(alloc),
            links: RunLinks::new(alloc),
            neutrals: NeutralResolver::new(alloc),
        }
    }

    /// Finds the explicit levels, and the sequences (X1 to X10).
    fn prepare<D: BidiDataSource, T: TextSource, S: Ledger>(
        &mut self,
        paragraph: &ClassifiedParagraph<D, T>,
        levels: &mut [Level],
        steps: &mut Steps<S>,
    ) -> Result<(), AllocError>
        requires { length levels.old ≡ length paragraph.now.original_classes.now }
        ensures levels { let stored = per_char L (T.text paragraph.now.text)
            paragraph.now.original_classes.now in
            OnOk result (levels.new
            ≡ per_unit (T.text paragraph.now.text) (explicit_levels paragraph.now.level stored)) }
        ensures classes { let stored = per_char L (T.text paragraph.now.text)
            paragraph.now.original_classes.now in
            OnOk result (self.new.classes.items
            ≡ per_unit (T.text paragraph.now.text)
            (processing_classes paragraph.now.level stored)) }
        ensures sequences { let stored = per_char L (T.text paragraph.now.text)
            paragraph.now.original_classes.now in
            OnOk result (sequences_of (T.text paragraph.now.text) stored
            (linked_sequences self.new.links (linked_runs self.new.links self.new.runs.items))
            ≡ sequences paragraph.now.level stored (explicit_levels paragraph.now.level stored)) }
        ensures are_lines { OnOk result (All (λ s. AreLines (T.text paragraph.now.text) s.runs)
            (linked_sequences self.new.links (linked_runs self.new.links self.new.runs.items))) }
        ensures linked { OnOk result (AreLinked self.new.links (linked_runs self.new.links self.new.runs.items)) }
    {
        let original_classes = paragraph.original_classes;
        self.classes.clear();
        self.classes.extend_from_slice(original_classes)?;
        self.runs.clear();
        self.runs.reserve_exact(FEW_RUNS)?;
        let stored = Paragraph::new(
            paragraph.text,
            paragraph.level,
            StepUnit::CodeUnit,
            original_classes,
        );
        let classes = self.classes.as_mut_slice();
        find_levels_counted(&stored, levels, classes, &mut self.runs, steps)?;
        let leveled = LeveledText {
            text: paragraph.text,
            original_classes,
            levels,
        };
        self.links.link(
            &leveled,
            paragraph.level,
            self.runs.as_slice(),
            paragraph.flags.has_isolates(),
        )?;
        Ok(())
    }

    /// Copies the classes of a paragraph without openers, with BN for characters that X9 removes.
    fn copy_flat<D: BidiDataSource, T: TextSource>(
        &mut self,
        paragraph: &ClassifiedParagraph<D, T>,
    ) -> Result<(), AllocError>
        ensures { OnOk result (self.new.classes.items ≡ map hidden paragraph.now.original_classes.now) }
    {
        self.classes.clear();
        self.classes.extend_from_slice(paragraph.original_classes)?;
        if paragraph.flags.has_removed() {
            hide_removed(self.classes.as_mut_slice());
        }
        Ok(())
    }

    /// Finds the levels of all characters that X9 keeps, in a non-empty paragraph without openers. The paragraph is one
    /// level run, and one sequence. N2 is left out, since the levels are the same with and without it.
    fn resolve_flat<D: BidiDataSource, T: TextSource, S: Ledger>(
        &mut self,
        paragraph: &ClassifiedParagraph<D, T>,
        levels: &mut [Level],
        steps: &mut Steps<S>,
    ) -> Result<(), AllocError>
        requires same_len { IsOneAUnit paragraph.now levels.old }
        requires some { 0 < length levels.old }
        requires flat { is_flat (map (D.source paragraph.now.data_source.now).class_of (T.text paragraph.now.text).chars) ≡ true }
        ensures per_char { OnOk result (HaveCharLevels paragraph.now levels.new) }
        ensures resolved { OnOk result (AreOfRules paragraph.now levels.new) }
    {
        levels.fill(paragraph.level);
        self.copy_flat(paragraph)?;
        let classes = self.classes.as_mut_slice();
        let runs = [0..classes.len()];
        let side = paragraph.level.bidi_class();
        let sequence = BorrowedSequence::new(&runs, side, side);
        resolve_weak_borrowed_counted(paragraph.text, sequence, classes, steps);
        let leveled = LeveledText {
            text: paragraph.text,
            original_classes: paragraph.original_classes,
            levels,
        };
        resolve_up_to_n1(
            &mut self.neutrals,
            &leveled,
            paragraph.data_source,
            sequence,
            classes,
        )?;
        resolve_levels(classes, levels);
        Ok(())
    }

    /// Finds the levels of all characters that X9 keeps, in any paragraph, by X1 to I2 without N2.
    fn resolve_nested<D: BidiDataSource, T: TextSource, S: Ledger>(
        &mut self,
        paragraph: &ClassifiedParagraph<D, T>,
        levels: &mut [Level],
        steps: &mut Steps<S>,
    ) -> Result<(), AllocError>
        requires { IsOneAUnit paragraph.now levels.old }
        ensures per_char { OnOk result (HaveCharLevels paragraph.now levels.new) }
        ensures resolved { OnOk result (AreOfRules paragraph.now levels.new) }
    {
        self.prepare(paragraph, levels, steps)?;
        let links = &self.links;
        let runs = &mut self.runs;
        let classes = self.classes.as_mut_slice();
        for first in 0..links.run_count() {
            if let Some(found) = links.gather(runs, first)? {
                let sequence = found.borrowed(runs.as_slice());
                if has_known_levels(sequence, levels, classes)
                    || write_l_over_numbers(sequence, levels, classes)
                {
                    continue;
                }
                resolve_weak_borrowed_counted(paragraph.text, sequence, classes, steps);
                let leveled = LeveledText {
                    text: paragraph.text,
                    original_classes: paragraph.original_classes,
                    levels,
                };
                resolve_up_to_n1(
                    &mut self.neutrals,
                    &leveled,
                    paragraph.data_source,
                    sequence,
                    classes,
                )?;
            }
        }
        resolve_levels(classes, levels);
        Ok(())
    }

    /// Finds the levels of all characters that X9 keeps, in a paragraph that is not empty.
    fn resolve<D: BidiDataSource, T: TextSource, S: Ledger>(
        &mut self,
        paragraph: &ClassifiedParagraph<D, T>,
        levels: &mut [Level],
        steps: &mut Steps<S>,
    ) -> Result<(), AllocError>
        requires same_len { IsOneAUnit paragraph.now levels.old }
        requires some { 0 < length levels.old }
        ensures per_char { OnOk result (HaveCharLevels paragraph.now levels.new) }
        ensures resolved { OnOk result (AreOfRules paragraph.now levels.new) }
    {
        if paragraph.flags.is_flat() {
            self.resolve_flat(paragraph, levels, steps)
        } else {
            self.resolve_nested(paragraph, levels, steps)
        }
    }

    // Calls [`LevelResolver::resolve`] with a new count of loop iterations.
    fn resolve_with_new_count<D: BidiDataSource, T: TextSource, S: Ledger>(
        &mut self,
        paragraph: &ClassifiedParagraph<D, T>,
        levels: &mut [Level],
        blank: Blank,
    ) -> Result<(), AllocError>
        requires same_len { IsOneAUnit paragraph.now levels.old }
        requires some { 0 < length levels.old }
        requires name { blank.name ≡ S.name }
        requires parts { blank.parts ≡ S.parts }
        requires one { blank.parts ≡ 1 }
        ensures per_char { OnOk result (HaveCharLevels paragraph.now levels.new) }
        ensures resolved { OnOk result (AreOfRules paragraph.now levels.new) }
    {
        let mut steps = Steps::<S>::new(blank);
        self.resolve(paragraph, levels, &mut steps)
    }

    /// Writes the stored levels of a paragraph, one for each of its code units.
    ///
    /// `levels` has one entry for each code unit, and may hold anything before. If an allocation fails, it may hold
    /// anything.
    pub fn write_levels<D: BidiDataSource, T: TextSource>(
        &mut self,
        paragraph: &ClassifiedParagraph<D, T>,
        levels: &mut [Level],
    ) -> Result<(), AllocError>
        requires { length levels.old ≡ text_len (T.text paragraph.now.text) }
        ensures { let source = D.source paragraph.now.data_source.now in let text = paragraph.now.text in
            OnOk result (levels.new ≡ per_unit (T.text text)
            (levels_in paragraph.now.level (map source.class_of (T.text text).chars) (map source.bracket_of (T.text text).chars))) }
    {
        if paragraph.flags.keeps_to(paragraph.level) {
            levels.fill(paragraph.level);
            return Ok(());
        }
        self.resolve_with_new_count::<D, T, Brand>(paragraph, levels, Blank::new(1))?;
        if paragraph.flags.has_removed() {
            fill_removed(paragraph.level, paragraph.original_classes, levels);
        }
        Ok(())
    }
}

// Returns the class that the passes use for a class: BN if X9 removes it.
fn hidden(class: BidiClass) -> BidiClass
    ensures { result ≡ hidden class }
{
    if is_removed(class) {
        BidiClass::BN
    } else {
        class
    }
}

// Gives the class BN to each code unit of a character that X9 removes, so that the passes recognize it.
fn hide_removed(classes: &mut [BidiClass])
    ensures { classes.new ≡ map hidden classes.old }
{
    for class in classes {
        *class = hidden(*class);
    }
}

// Returns the level of the code unit before `unit`, or the paragraph level at the start.
fn level_before(para_level: Level, levels: &[Level], unit: usize) -> Level
    requires { unit ≤ length levels.now }
    ensures front { unit ≡ 0 → result ≡ para_level }
    ensures inside { (p : ℕ) → p + 1 ≡ unit → result ≡ slice_index levels.now p }
{
    if unit == 0 {
        para_level
    } else {
        levels[unit - 1]
    }
}

/// The classes that X9 removes.
#[derive(Clone, Copy, Debug)]
struct Removed;

impl ClassTest for Removed {
    ghost use Rattle.bidi_base.specs.Classes.{is_removed};

    ghost test = { λ _. is_removed };

    fn passes(self, class: BidiClass) -> bool {
        is_removed(class)
    }
}

// Gives the level `before` to the stretch of removed code units (X9) that begins at `from`. Returns its end.
fn write_removed(classes: &[BidiClass], levels: &mut [Level], from: usize, before: Level) -> usize
    requires same_len { length levels.old ≡ length classes.now }
    requires inside { from < length classes.now }
    requires removed { is_kept_at classes.now from ≡ false }
    ensures advances { from < result }
    ensures within { result ≤ length classes.now }
    ensures removed { (u : ℕ) → from ≤ u → u < result → is_kept_at classes.now u ≡ false }
    ensures written { IsUpdated 0 (λ _. true) (λ _. before) from result levels.old levels.new }
{
    let mut at = from;
    while at < levels.len() && is_removed(classes[at]) {
        levels[at] = before;
        at += 1;
    }
    at
}

// After a removed character, the next one is often among this many code units: a letter of two code units is between
// them. They are tested one by one.
const TESTED_SINGLY: usize = 3;

// Gives each code unit of a character that X9 removes the level of the code unit before it. At the start it
// gets the paragraph level.
fn fill_removed(para_level: Level, classes: &[BidiClass], levels: &mut [Level])
    requires same_len { length levels.old ≡ length classes.now }
    ensures kept { (u : ℕ) → u < length classes.now → is_kept_at classes.now u ≡ true
        → slice_index levels.new u ≡ slice_index levels.old u }
    ensures front { 0 < length classes.now → is_kept_at classes.now 0 ≡ false → slice_index levels.new 0 ≡ para_level }
    ensures removed { (u : ℕ) → u + 1 < length classes.now → is_kept_at classes.now (u + 1) ≡ false
        → slice_index levels.new (u + 1) ≡ slice_index levels.new u }
{
    let units = classes.len();
    let removed = Among {
        test: Removed,
        classes,
    };
    let mut from = 0;
    while from < units {
        let at = first_passing(removed, TESTED_SINGLY, from, units);
        if at == units {
            return;
        }
        let before = level_before(para_level, levels, at);
        from = write_removed(classes, levels, at, before);
    }
}
