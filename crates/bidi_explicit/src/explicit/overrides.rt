//! The class of an override, written over a stretch without controls (X6).

ghost use Rattle.std.specs.Prelude.{◌≡◌, ◌+◌, ◌-◌, ◌≤◌, length, Some};
ghost use Rattle.bidi_explicit.specs.ExplicitStretches.{put_over, IsOverridden, IsUnread};

use super::stretches::{KeptInPlace, Paragraph};
use super::{StepUnit, write_class};
use crate::prepare::Steps;
use bidi_base::char_data::BidiClass;
use bidi_base::search::ClassTest;
use bidi_text::text::TextSource;
use std::sync::ledger::Ledger;

// Returns the class that an override puts in place of another, which is no control's (X6). BN stays.
fn put_over(put: BidiClass, class: BidiClass) -> BidiClass
    ensures { result ≡ put_over put class }
{
    match class {
        BidiClass::BN => class,
        _ => put,
    }
}

// Writes the class of an override to the code units from `from` up to `to`, except to those with BN. Counts
// one step for each code unit.
fn put_override<S: Ledger>(
    classes: &mut [BidiClass],
    from: usize,
    to: usize,
    put: BidiClass,
    steps: &mut Steps<S>,
)
    requires ordered { from ≤ to }
    requires within { to ≤ length classes.old }
    ensures put { IsOverridden (Some put) from to classes.old classes.new }
    ensures steps { steps.new + from ≡ steps.old + to }
{
    for unit in from..to {
        steps.tick();
        classes[unit] = put_over(put, classes[unit]);
    }
}

impl<T: TextSource> Paragraph<'_, T> {
    ghost use Rattle.bidi_explicit.specs.Paragraph.{counted_to, AreCharsCounted, IsStart};

    // Writes the class of an override to the characters of a stretch without controls, except to those with
    // BN (X6). Counts one step for each character.
    fn put_on_characters<S: Ledger>(
        &self,
        classes: &mut [BidiClass],
        from: usize,
        to: usize,
        put: BidiClass,
        steps: &mut Steps<S>,
    )
        requires same_len { length classes.old ≡ length self.now.original_classes.now }
        requires begins { IsStart self.now from }
        requires ends { IsStart self.now to }
        requires ordered { from ≤ to }
        requires within { to ≤ length self.now.original_classes.now }
        requires unread { IsUnread self.now.original_classes.now classes.old from }
        ensures put { IsOverridden (Some put) from to classes.old classes.new }
        ensures steps { AreCharsCounted self.now from to steps.old steps.new }
    {
        let mut at = from;
        while at < to {
            steps.tick();
            let next = self.end_of(at);
            if KeptInPlace.passes(self.original_classes[at]) {
                write_class(classes, at, next, put);
            }
            at = next;
        }
    }

    /// If a stretch without controls is inside an override, writes the class of the override to its
    /// characters, except to those with BN (X6), and counts one step for each character or code unit.
    pub(super) fn write_override<S: Ledger>(
        &self,
        classes: &mut [BidiClass],
        from: usize,
        to: usize,
        override_class: Option<BidiClass>,
        steps: &mut Steps<S>,
    )
        requires same_len { length classes.old ≡ length self.now.original_classes.now }
        requires begins { IsStart self.now from }
        requires ends { IsStart self.now to }
        requires ordered { from ≤ to }
        requires within { to ≤ length self.now.original_classes.now }
        requires unread { IsUnread self.now.original_classes.now classes.old from }
        ensures put { IsOverridden override_class from to classes.old classes.new }
        ensures steps_at_least { steps.old ≤ steps.new }
        ensures steps_at_most { steps.new ≤ steps.old + (counted_to self.now to - counted_to self.now from) }
    {
        if let Some(put) = override_class {
            match self.step_unit {
                StepUnit::CodeUnit => put_override(classes, from, to, put, steps),
                StepUnit::Character => self.put_on_characters(classes, from, to, put, steps),
            }
        }
    }
}
