//! Tests of the explicit pass from code unit to code unit, on a paragraph worked by hand.

ghost use Rattle.std.specs.Prelude.{◌≡◌, ◌+◌, ◌*◌, ◌≤◌, [], length, IfOk, OnOk};

use crate::check::same;
use bidi_base::char_data::BidiClass;
use bidi_base::level::{LTR_LEVEL, Level, RTL_LEVEL};
use bidi_explicit::explicit::{self, StepUnit, find_levels_counted};
use bidi_explicit::prepare::{LevelRunVec, Steps};
use bidi_text::text::{StrText, is_per_char};
use std::alloc::{AllocError, Global};
use std::marker::Brand;
use std::ops::Range;
use std::process::Abort;
use std::sync::ledger::{Blank, Ledger};
use std::test::Fail;

// Characters of one stored class, and what X1 to X8 find: their explicit level, and their class under
// overrides.
#[derive(Clone, Copy)]
struct Worked(&'static str, BidiClass, u8, BidiClass);

// An embedding from right to left has an isolate with an override in it, and then an embedding with an
// override. Soft hyphens (BN) are in both overrides. The last PDI matches nothing. The paragraph level is 0.
const PARAGRAPH: [Worked; 19] = [
    Worked("a", BidiClass::L, 0, BidiClass::L),
    Worked("\u{202B}", BidiClass::RLE, 0, BidiClass::BN),
    Worked("\u{5D0}", BidiClass::R, 1, BidiClass::R),
    Worked("\u{2066}", BidiClass::LRI, 1, BidiClass::LRI),
    Worked("\u{202E}", BidiClass::RLO, 2, BidiClass::BN),
    Worked("\u{AD}", BidiClass::BN, 3, BidiClass::BN),
    Worked("b", BidiClass::L, 3, BidiClass::R),
    Worked("\u{AD}", BidiClass::BN, 3, BidiClass::BN),
    Worked("\u{5D2}", BidiClass::R, 3, BidiClass::R),
    Worked("\u{2069}", BidiClass::PDI, 1, BidiClass::PDI),
    Worked("\u{202D}", BidiClass::LRO, 1, BidiClass::BN),
    Worked("\u{5D0}\u{5D1}", BidiClass::R, 2, BidiClass::L),
    Worked("\u{AD}", BidiClass::BN, 2, BidiClass::BN),
    Worked("1", BidiClass::EN, 2, BidiClass::L),
    Worked("\u{202C}", BidiClass::PDF, 1, BidiClass::BN),
    Worked("23456789012345678901", BidiClass::EN, 1, BidiClass::EN),
    Worked("\u{202C}", BidiClass::PDF, 0, BidiClass::BN),
    Worked("\u{2069}", BidiClass::PDI, 0, BidiClass::PDI),
    Worked("\u{2029}", BidiClass::B, 0, BidiClass::B),
];

// Its level runs, in code units. A run begins at a character that X9 keeps.
const RUNS: [Range<usize>; 7] = [0..4, 4..14, 14..19, 19..25, 25..35, 35..58, 58..64];

// The paragraph, with what is known of each code unit.
#[derive(Drop)]
struct Paragraph {
    text: String,
    classes: Vec<BidiClass>,
    levels: Vec<Level>,
    classes_after: Vec<BidiClass>,
}

impl Paragraph {
    fn new(alloc: Global) -> Result<Paragraph, Fail> {
        let mut paragraph = Paragraph {
            text: String::new(alloc),
            classes: Vec::new(alloc),
            levels: Vec::new(alloc),
            classes_after: Vec::new(alloc),
        };
        for worked in PARAGRAPH {
            paragraph.add(worked)?;
        }
        Ok(paragraph)
    }

    fn add(&mut self, worked: Worked) -> Result<(), Fail> {
        let Worked(text, class, level, class_after) = worked;
        let level = Level::new(level)?;
        self.text.push_str(text)?;
        for _ in 0..text.len() {
            self.classes.push(class)?;
            self.levels.push(level)?;
            self.classes_after.push(class_after)?;
        }
        Ok(())
    }
}

// What the pass has found.
#[derive(Drop)]
struct Found {
    levels: Vec<Level>,
    classes: Vec<BidiClass>,
    runs: LevelRunVec,
}

impl Found {
    // Room for what the pass finds in a paragraph with these classes. The levels may hold anything.
    fn new(alloc: Global, classes: &[BidiClass]) -> Result<Found, AllocError>
        ensures same_len { IfOk result (λ found. length found.levels.items ≡ length classes.now) }
        ensures classes { IfOk result (λ found. found.classes.items ≡ classes.now) }
        ensures runs { IfOk result (λ found. found.runs.items ≡ []) }
    {
        Ok(Found {
            levels: vec![in alloc; RTL_LEVEL; classes.len()]?,
            classes: Vec::from_slice(alloc, classes)?,
            runs: Vec::new(alloc),
        })
    }
}

// Compares what was found with what is known.
fn compare(rt: &impl Abort, found: &Found, paragraph: &Paragraph) {
    same(
        rt,
        "levels",
        found.levels.as_slice(),
        paragraph.levels.as_slice(),
    );
    let (classes, wanted) = (found.classes.as_slice(), paragraph.classes_after.as_slice());
    same(rt, "classes", classes, wanted);
    same(rt, "runs", found.runs.as_slice(), RUNS.as_slice());
}

// Runs the counted pass, which takes at most four steps for each code unit.
fn find_counted<S: Ledger>(
    text: StrText,
    classes: &[BidiClass],
    found: &mut Found,
    steps: &mut Steps<S>,
) -> Result<(), Fail>
    requires same_len { length found.old.levels.items ≡ length classes.now }
    requires classes { found.old.classes.items ≡ classes.now }
    requires runs { found.old.runs.items ≡ [] }
    ensures { OnOk result (steps.new ≤ steps.old + 4 * length classes.now) }
{
    if !is_per_char(text, classes) {
        return Err(Fail::from("classes differ within a character"));
    }
    let stored = explicit::Paragraph::new(text, LTR_LEVEL, StepUnit::CodeUnit, classes);
    find_levels_counted(
        &stored,
        found.levels.as_mut_slice(),
        found.classes.as_mut_slice(),
        &mut found.runs,
        steps,
    )?;
    Ok(())
}

// Runs the counted pass, with the count that this blank opens.
fn find_with_new_count<S: Ledger>(
    text: StrText,
    classes: &[BidiClass],
    found: &mut Found,
    blank: Blank,
) -> Result<(), Fail>
    requires same_len { length found.old.levels.items ≡ length classes.now }
    requires classes { found.old.classes.items ≡ classes.now }
    requires runs { found.old.runs.items ≡ [] }
    requires name { blank.name ≡ S.name }
    requires parts { blank.parts ≡ S.parts }
    requires one { blank.parts ≡ 1 }
{
    find_counted(text, classes, found, &mut Steps::<S>::new(blank))
}

#[test]
fn worked_paragraph(rt: HostRuntime) -> Result<(), Fail> {
    let paragraph = Paragraph::new(rt.alloc())?;
    let text = StrText::new(paragraph.text.as_str());
    let classes = paragraph.classes.as_slice();
    let mut found = Found::new(rt.alloc(), classes)?;
    find_with_new_count::<Brand>(text, classes, &mut found, Blank::new(1))?;
    compare(&rt, &found, &paragraph);
    Ok(())
}
