//! The state of a paragraph: its open isolates, and the character that decides its level.
ghost use Rattle.std.specs.Prelude.{◌≡◌, ◌<◌, ◌≤◌, true, length, OnOk, Some};
ghost use Rattle.std.specs.Option.{is_some};
ghost use Rattle.bidi_base.specs.declared.char_data.BidiClass.{BidiClass};
ghost use Rattle.bidi_base.specs.Classes.{is_strong as is_strong_class};
ghost use Rattle.bidi_base.specs.Isolates.{level_by, resolved_fsi};
ghost use Rattle.bidi_base.specs.OpenIsolates.{filled};
ghost use Rattle.bidi_paragraphs.specs.ClassSet.{has};
ghost use Rattle.bidi_paragraphs.specs.FirstPass.{waiting, deciding_after, classes_after, is_decided, wants_strong, stops_at, without_waiting, AreWithin, IsAtStart, IsReadBy, StopsCounting};

use crate::class_set::ClassSet;
use crate::paragraph_flags::ParagraphFlags;
use bidi_base::char_data::BidiClass;
use bidi_base::classes::{is_isolate_initiator, is_pdi, is_strong};
use bidi_base::level::{LTR_LEVEL, Level, RTL_LEVEL};
use std::alloc::AllocError;
use std::ops::Range;

// Returns the class that an FSI becomes if the character that decides its isolate has this class.
fn resolved_by(class: BidiClass) -> BidiClass
    ensures { result ≡ resolved_fsi (Some class) }
{
    match class {
        BidiClass::R | BidiClass::AL => BidiClass::RLI,
        BidiClass::L => BidiClass::LRI,
        _ => BidiClass::FSI,
    }
}

/// Returns the level of a paragraph, from the class of its deciding character (P3). Without one, it is 0.
pub(super) fn level_of_class(deciding: Option<BidiClass>) -> Level
    ensures { result ≡ level_by deciding }
{
    match deciding {
        Some(BidiClass::R | BidiClass::AL) => RTL_LEVEL,
        _ => LTR_LEVEL,
    }
}

// Gives the direction of a strong character to the FSI with these code units.
fn resolve(classes: &mut [BidiClass], initiator: &Range<usize>, class: BidiClass)
    requires begins { initiator.now.start ≤ initiator.now.end }
    requires ends { initiator.now.end ≤ length classes.old }
    ensures { classes.new ≡ filled initiator.now (resolved_fsi (Some class)) classes.old }
{
    let start = initiator.start;
    let end = initiator.end;
    classes[start..end].fill(resolved_by(class));
}

/// An open isolate of an FSI that no character has decided yet.
#[derive(Drop)]
pub(super) struct Undecided {
    // The code units of the FSI.
    units: Range<usize>,
    // The depth of the paragraph directly after the FSI.
    depth: usize,
}

/// The paragraph that is being read.
#[derive(Drop)]
pub(super) struct ParagraphState {
    /// The code unit at which it begins.
    pub(super) start: usize,
    // The number of open isolates. Isolates that were open at any time in a decided state are not counted.
    depth: usize,
    /// The open isolates of an FSI that no character has decided yet, outermost first.
    pub(super) undecided: Vec<Undecided>,
    /// The class of the character that decides its level, if there is one yet.
    pub(super) deciding: Option<BidiClass>,
    /// The flags of the characters that were read.
    pub(super) flags: ParagraphFlags,
}

impl ParagraphState {
    /// Returns the state before the text. It reuses the memory of a list.
    pub(super) fn new(mut undecided: Vec<Undecided>) -> ParagraphState
        ensures { IsAtStart result 0 }
    {
        undecided.clear();
        ParagraphState {
            start: 0,
            depth: 0,
            undecided,
            deciding: None,
            flags: ParagraphFlags::NONE,
        }
    }

    /// Begins the next paragraph.
    pub(super) fn restart(&mut self, start: usize)
        ensures { IsAtStart self.new start }
    {
        self.start = start;
        self.depth = 0;
        self.undecided.clear();
        self.deciding = None;
        self.flags = ParagraphFlags::NONE;
    }

    // Returns whether the innermost open isolate is of an FSI that no character has decided yet.
    fn is_waiting(&self) -> bool
        ensures { result ≡ is_some (waiting self.now.depth self.now.undecided.items) }
    {
        match self.undecided.last() {
            Some(innermost) => innermost.depth == self.depth,
            None => false,
        }
    }

    /// Returns whether no character can decide anything before the next FSI: the level of the paragraph is decided, and
    /// so is the direction of each open FSI. Then it does not matter how many isolates are open.
    pub(super) fn is_decided(&self) -> bool
        ensures { result ≡ is_decided self.now }
    {
        self.deciding.is_some() && self.undecided.is_empty()
    }

    /// Stops counting the isolates that are open, if the state is decided.
    pub(super) fn stop_counting(&mut self)
        ensures { StopsCounting self.old self.new }
    {
        self.depth = if self.is_decided() { 0 } else { self.depth };
    }

    // Returns whether a strong character would decide something if it came next.
    fn wants_strong(&self) -> bool
        ensures { result ≡ wants_strong self.now }
    {
        self.is_waiting() || (self.depth == 0 && self.deciding.is_none())
    }

    /// Returns the classes with which the next character would change more of this state than the flags.
    pub(super) fn stop_classes(&self) -> ClassSet
        ensures { (c : BidiClass) → has result c ≡ stops_at self.now c }
    {
        let closing = ClassSet::CLOSING.when(self.depth > 0);
        if self.is_decided() {
            return ClassSet::ALWAYS_STOPS.union(closing);
        }
        ClassSet::ALWAYS_STOPS
            .union(ClassSet::INITIATORS)
            .union(ClassSet::STRONG.when(self.wants_strong()))
            .union(closing)
    }

    /// Reads the next character, given its code units. `classes` has the classes of the code units before
    /// it.
    #[inline(always)]
    pub(super) fn read(
        &mut self,
        classes: &mut [BidiClass],
        class: BidiClass,
        units: Range<usize>,
    ) -> Result<(), AllocError>
        requires within { AreWithin (length classes.old) self.old.undecided.items }
        requires few { self.old.depth < usize.MAX }
        ensures classes { OnOk result (classes.new
            ≡ classes_after class (waiting self.old.depth self.old.undecided.items) classes.old) }
        ensures state { OnOk result (IsReadBy class units self.old self.new) }
    {
        self.flags = self.flags.with(class);
        if is_strong(class) {
            self.decide(classes, class);
        } else if is_isolate_initiator(class) {
            self.depth += 1;
            if class == BidiClass::FSI {
                self.undecided.push(Undecided {
                    units,
                    depth: self.depth,
                })?;
            }
        } else if is_pdi(class) {
            self.take_waiting();
            self.depth = self.depth.saturating_sub(1);
        }
        Ok(())
    }

    // Removes the innermost open isolate from the undecided ones, if it is one of them.
    fn take_waiting(&mut self) -> Option<Undecided>
        ensures taken { result ≡ waiting self.old.depth self.old.undecided.items }
        ensures rest { self.new.undecided.items ≡ without_waiting self.old }
        ensures start { self.new.start ≡ self.old.start }
        ensures depth { self.new.depth ≡ self.old.depth }
        ensures deciding { self.new.deciding ≡ self.old.deciding }
        ensures flags { self.new.flags ≡ self.old.flags }
    {
        if self.is_waiting() {
            self.undecided.pop()
        } else {
            None
        }
    }

    // Lets a strong character decide the paragraph's level, or the direction of the innermost FSI.
    fn decide(&mut self, classes: &mut [BidiClass], class: BidiClass)
        requires within { AreWithin (length classes.old) self.old.undecided.items }
        requires strong { is_strong_class class ≡ true }
        ensures classes { classes.new ≡ classes_after class (waiting self.old.depth self.old.undecided.items) classes.old }
        ensures rest { self.new.undecided.items ≡ without_waiting self.old }
        ensures start { self.new.start ≡ self.old.start }
        ensures depth { self.new.depth ≡ self.old.depth }
        ensures deciding { self.new.deciding ≡ deciding_after class self.old.depth self.old.deciding }
        ensures flags { self.new.flags ≡ self.old.flags }
    {
        if let Some(initiator) = self.take_waiting() {
            resolve(classes, &initiator.units, class);
        }
        if self.depth == 0 && self.deciding.is_none() {
            self.deciding = Some(class);
        }
    }
}
