//! Explicit levels and directions (X1 to X8), and level runs (BD7), in place over the code units of one
//! paragraph.

ghost use Rattle.std.specs.Prelude.{◌≡◌, ◌+◌, ◌*◌, ◌-◌, ◌≤◌, length, map, OnOk, IfOk};
ghost use Rattle.bidi_base.specs.Texts.{AreExplicitLevels, CanFindExplicitLevels};
ghost use Rattle.bidi_base.specs.Units.{bounds};
ghost use Rattle.bidi_explicit.specs.Paragraph.{AreLevelsOf, CanFindLevels, least_count, whole_count};
ghost use Rattle.bidi_explicit.specs.RunCutting.{filled, runs_before, run_start as run_start_after};

mod overrides;
mod status;
mod stretches;

use crate::prepare::{LevelRunVec, Steps};
use bidi_base::char_data::BidiClass;
use bidi_base::level::Level;
use bidi_text::text::TextSource;
use status::StatusStack;
use std::alloc::{AllocError, Global};
use std::marker::Brand;
use std::ops::Range;
use std::sync::ledger::{Blank, Ledger};
pub use stretches::Paragraph;
use stretches::{OpenRun, is_control};

/// How the pass goes through a stretch without controls, and what it counts there.
#[derive(Clone, Copy, Debug)]
pub enum StepUnit {
    /// From character to character. The pass asks the text for the end of each.
    Character,
    /// From code unit to code unit. The pass reads the text only at controls, and looks for the next control
    /// sixteen code units at a time.
    CodeUnit,
}

// Writes a value to `len` code units from `start` on. `len` is at most three.
fn fill_few<X: Copy>(units: &mut [X], start: usize, len: usize, value: X)
    requires few { len ≤ 3 }
    requires within { start + len ≤ length units.old }
    ensures { units.new ≡ filled start len value units.old }
{
    match len {
        1 => units[start] = value,
        2 => {
            units[start] = value;
            units[start + 1] = value;
        }
        3 => {
            units[start] = value;
            units[start + 1] = value;
            units[start + 2] = value;
        }
        _ => {}
    }
}

// Writes a level to the code units from `from` up to `to`. Up to three are written one by one.
fn write_level(levels: &mut [Level], from: usize, to: usize, level: Level)
    requires ordered { from ≤ to }
    requires within { to ≤ length levels.old }
    ensures { levels.new ≡ filled from (to - from) level levels.old }
{
    if to - from == 1 {
        levels[from] = level;
    } else if to - from <= 3 {
        fill_few(levels, from, to - from, level);
    } else {
        levels[from..to].fill(level);
    }
}

// Writes a class to the code units from `from` up to `to`. Up to three are written one by one.
fn write_class(classes: &mut [BidiClass], from: usize, to: usize, class: BidiClass)
    requires ordered { from ≤ to }
    requires within { to ≤ length classes.old }
    ensures { classes.new ≡ filled from (to - from) class classes.old }
{
    if to - from <= 3 {
        fill_few(classes, from, to - from, class);
    } else {
        classes[from..to].fill(class);
    }
}

// Writes the level and the class of a control to its code units. Most controls have three code units in UTF-8, and
// one in UTF-16.
fn write_control(
    levels: &mut [Level],
    classes: &mut [BidiClass],
    units: Range<usize>,
    level: Level,
    class: BidiClass,
)
    requires ordered { units.start ≤ units.end }
    requires levels { units.end ≤ length levels.old }
    requires classes { units.end ≤ length classes.old }
    ensures levels { levels.new ≡ filled units.start (units.end - units.start) level levels.old }
    ensures classes { classes.new ≡ filled units.start (units.end - units.start) class classes.old }
{
    let Range { start, end } = units;
    // One test of the length decides for both lists.
    match end - start {
        1 => {
            fill_few(levels, start, 1, level);
            fill_few(classes, start, 1, class);
        }
        3 => {
            fill_few(levels, start, 3, level);
            fill_few(classes, start, 3, class);
        }
        _ => {
            write_level(levels, start, end, level);
            write_class(classes, start, end, class);
        }
    }
}

// Ends the level run that began at `run_start` if the kept character at `start` has another level than the
// kept one before it. Returns where the run of that character starts.
fn cut_run(
    runs: &mut LevelRunVec,
    run_start: usize,
    start: usize,
    last_level: Option<Level>,
    level: Level,
) -> Result<usize, AllocError>
    ensures runs { OnOk result (map bounds runs.new.items
        ≡ runs_before last_level level run_start start (map bounds runs.old.items)) }
    ensures start { IfOk result (λ s. s ≡ run_start_after last_level level run_start start) }
{
    match last_level {
        Some(last) if last != level => {
            runs.push(run_start..start)?;
            Ok(start)
        }
        _ => Ok(run_start),
    }
}

/// Finds the explicit levels of a paragraph, its classes under overrides, and its level runs (X1 to X8,
/// BD7).
///
/// `para_level` must be at most 125. The three slices must have one entry for each code unit.
/// `original_classes` has the stored classes, which must be equal within each character. `levels` may hold
/// anything, and gets the explicit level of each code unit's character. `processing_classes` must be a copy
/// of `original_classes`, and gets the classes under overrides, with BN for characters that X9 removes.
///
/// `runs` must be empty. The first run begins at the start of the text. Each other one begins at a character
/// that X9 keeps, exactly if its level differs from that of the kept character before it. The runs cover the
/// text.
///
/// Returns an error only if `runs`, which has its own allocator, cannot grow. The slices and the runs may
/// then hold anything. Nothing else allocates. The allocator that is passed is not used.
pub fn compute<T: TextSource>(
    alloc: Global,
    text: T,
    para_level: Level,
    original_classes: &[BidiClass],
    levels: &mut [Level],
    processing_classes: &mut [BidiClass],
    runs: &mut LevelRunVec,
) -> Result<(), AllocError>
    requires { CanFindExplicitLevels (T.text text) para_level original_classes.now levels.old
        processing_classes.old (map bounds runs.old.items) }
    ensures { OnOk result (AreExplicitLevels (T.text text) para_level original_classes.now levels.new
        processing_classes.new (map bounds runs.new.items)) }
{
    compute_with_new_count::<T, Brand>(
        alloc,
        text,
        para_level,
        original_classes,
        levels,
        processing_classes,
        runs,
        Blank::new(1),
    )
}

// Calls [`compute_counted`] with a new count.
fn compute_with_new_count<T: TextSource, S: Ledger>(
    alloc: Global,
    text: T,
    para_level: Level,
    original_classes: &[BidiClass],
    levels: &mut [Level],
    processing_classes: &mut [BidiClass],
    runs: &mut LevelRunVec,
    blank: Blank,
) -> Result<(), AllocError>
    requires paragraph { CanFindExplicitLevels (T.text text) para_level original_classes.now levels.old
        processing_classes.old (map bounds runs.old.items) }
    requires name { blank.name ≡ S.name }
    requires parts { blank.parts ≡ S.parts }
    requires one { blank.parts ≡ 1 }
    ensures { OnOk result (AreExplicitLevels (T.text text) para_level original_classes.now levels.new
        processing_classes.new (map bounds runs.new.items)) }
{
    let mut steps = Steps::<S>::new(blank);
    compute_counted(
        alloc,
        text,
        para_level,
        original_classes,
        levels,
        processing_classes,
        runs,
        &mut steps,
    )
}

/// Like [`compute`], and counts each loop iteration in `steps`, including those of the functions it calls.
///
/// There is at least one iteration for each character of the paragraph, and at most four. The iterations
/// that pop the status stack at a PDI are charged to the openers that filled it. Calls of the text and of
/// the library count as no iterations. After an error nothing is promised about the count.
pub fn compute_counted<T: TextSource, S: Ledger>(
    _alloc: Global,
    text: T,
    para_level: Level,
    original_classes: &[BidiClass],
    levels: &mut [Level],
    processing_classes: &mut [BidiClass],
    runs: &mut LevelRunVec,
    steps: &mut Steps<S>,
) -> Result<(), AllocError>
    requires { CanFindExplicitLevels (T.text text) para_level original_classes.now levels.old
        processing_classes.old (map bounds runs.old.items) }
    ensures found { OnOk result (AreExplicitLevels (T.text text) para_level original_classes.now levels.new
        processing_classes.new (map bounds runs.new.items)) }
    ensures steps_at_least { OnOk result (steps.old + length (T.text text).chars ≤ steps.new) }
    ensures steps_at_most { OnOk result (steps.new ≤ steps.old + 4 * length (T.text text).chars) }
{
    let paragraph = Paragraph::new(text, para_level, StepUnit::Character, original_classes);
    find_levels_counted(&paragraph, levels, processing_classes, runs, steps)
}

/// Finds the explicit levels of a paragraph, its classes under overrides and its level runs, as [`compute`] does, and
/// counts each loop iteration in `steps`, including those of the functions it calls.
///
/// `levels` must be as long as the paragraph's stored classes, and gets the levels. `classes` must be a copy of the
/// stored classes, and gets the classes under overrides. `runs` must be empty, and gets the level runs. If an
/// allocation fails, returns an error, and all three may then hold anything.
///
/// With [`StepUnit::Character`] there is at least one iteration for each character, and at most four. With
/// [`StepUnit::CodeUnit`] there are at most four for each code unit. No lower bound holds there, because a search tests
/// sixteen code units in one iteration. The iterations that pop the status stack at a PDI are charged to the
/// openers that filled it. Calls of the text and of the library count as no iterations. After an error nothing is
/// promised about the count.
pub fn find_levels_counted<T: TextSource, S: Ledger>(
    paragraph: &Paragraph<'_, T>,
    levels: &mut [Level],
    classes: &mut [BidiClass],
    runs: &mut LevelRunVec,
    steps: &mut Steps<S>,
) -> Result<(), AllocError>
    requires { CanFindLevels paragraph.now levels.old classes.old runs.old.items }
    ensures found { OnOk result (AreLevelsOf paragraph.now levels.new classes.new runs.new.items) }
    ensures steps_at_least { OnOk result (steps.old + least_count paragraph.now ≤ steps.new) }
    ensures steps_at_most { OnOk result (steps.new ≤ steps.old + 4 * whole_count paragraph.now) }
{
    let original_classes = paragraph.original_classes;
    let units = original_classes.len();
    let mut stack = StatusStack::new(paragraph.level);
    let mut run = OpenRun::new();
    let mut at = 0;
    while at < units {
        steps.tick();
        let progress = if is_control(original_classes[at]) {
            paragraph.read_control(at, &mut stack, levels, classes, steps)
        } else {
            let stretch = paragraph.read_stretch(at, stack.top(), classes, steps);
            write_level(levels, at, stretch.end, stretch.level);
            stretch
        };
        run.extend(runs, &progress)?;
        at = progress.end;
    }
    if units > 0 {
        runs.push(run.start..units)?;
    }
    Ok(())
}
