//! The directional status stack with its three counts (X1 to X8).

ghost use Rattle.std.specs.Prelude.{◌≡◌, ℕ, ◌<◌, ◌≤◌, ◌+◌, ◌^◌, [], ◌∷◌, true, false, length, map, reverse, Some, None, unwrap_or, if◌then◌else◌};
ghost use Rattle.std.specs.Result.{OkIff};
ghost use Rattle.bidi_base.specs.declared.char_data.BidiClass.TheVariants.{BN};
ghost use Rattle.bidi_base.specs.Classes.{is_isolate_initiator, is_kept, is_removed};
ghost use Rattle.bidi_base.specs.Explicit.{next_level, override_of};
ghost use Rattle.bidi_base.specs.StatusMachine.{State, start, answer_class, answer_level, entered, closed, step, fits_in, close_isolate, close_embedding, drop_isolate, counted, IsWithinDepth, IsPoppable};
ghost use Rattle.bidi_explicit.specs.Control.{is_control};
ghost use Rattle.bidi_explicit.specs.Status.{below_last, entry_count, seen, state_by, IsLast};

use crate::prepare::Steps;
use arrayvec::ArrayVec;
use bidi_base::char_data::{BidiClass, is_rtl};
use bidi_base::level::{Error, LTR_LEVEL, Level};
use std::marker::Model;
use std::sync::ledger::Ledger;

/// An entry of the directional status stack: the status of the paragraph, or inside an opener that did not overflow.
#[derive(Clone, Copy)]
pub struct StatusEntry {
    /// The embedding level.
    pub level: Level,
    /// The class that an override gives to characters, L or R, if there is an override.
    pub override_class: Option<BidiClass>,
    /// Whether the opener is an isolate initiator.
    pub is_isolate: bool,
}

impl Default for StatusEntry {
    fn default() -> StatusEntry {
        StatusEntry {
            level: LTR_LEVEL,
            override_class: None,
            is_isolate: false,
        }
    }
}

/// What the pass writes for a control, and whether X9 keeps it.
#[derive(Clone, Copy)]
pub struct Answer {
    /// Its explicit level.
    pub level: Level,
    /// Its processing class: BN if X9 removes it.
    pub class: BidiClass,
    /// Whether X9 keeps it.
    pub is_kept: bool,
}

impl StatusEntry {
    // Returns what is written for an isolate control, which takes the override (X5a to X6a).
    fn answer_kept(self, class: BidiClass) -> Answer
        ensures level { result.level ≡ self.level }
        ensures class { result.class ≡ unwrap_or self.override_class class }
        ensures is_kept { result.is_kept ≡ true }
    {
        Answer {
            level: self.level,
            class: self.override_class.unwrap_or(class),
            is_kept: true,
        }
    }

    // Returns what is written for a control that X9 removes.
    fn answer_removed(self) -> Answer
        ensures level { result.level ≡ self.level }
        ensures class { result.class ≡ BN }
        ensures is_kept { result.is_kept ≡ false }
    {
        Answer {
            level: self.level,
            class: BidiClass::BN,
            is_kept: false,
        }
    }
}

/// The directional status stack, with the overflow isolate, overflow embedding and valid isolate counts.
/// The levels on the stack ascend up to 125, so it has at most 126 entries.
#[derive(Drop)]
pub struct StatusStack {
    /// The entries, outermost first. The first one is the paragraph's.
    entries: ArrayVec<StatusEntry, 126>,
    /// A copy of the last entry, since each control and each stretch reads it.
    top: StatusEntry,
    overflow_isolates: usize,
    overflow_embeddings: usize,
    valid_isolates: usize,
}

impl Model for StatusStack {
    ghost Value = { State };

    ghost view = { λ s. state_by s.top (below_last s.entries.items) s.overflow_isolates s.overflow_embeddings s.valid_isolates };

    ghost invariant = { λ s. IsLast s.top s.entries.items };
}

// Returns the class that an opener gives to the characters inside it, if it is an override.
fn override_class(class: BidiClass) -> Option<BidiClass>
    ensures { result ≡ override_of class }
{
    match class {
        BidiClass::RLO => Some(BidiClass::R),
        BidiClass::LRO => Some(BidiClass::L),
        _ => None,
    }
}

// Returns the level inside an opener, or an error exactly if it would be above 125.
fn next_level(class: BidiClass, level: Level) -> Result<Level, Error>
    ensures { OkIff result (next_level class level ≤ 125) (next_level class level) }
{
    if is_rtl(class) {
        level.new_explicit_next_rtl()
    } else {
        level.new_explicit_next_ltr()
    }
}

// Pops the entries above the innermost isolate, and the isolate itself. Counts one step for each entry.
fn pop_isolate<S: Ledger>(entries: &mut ArrayVec<StatusEntry, 126>, steps: &mut Steps<S>)
    ensures stack { drop_isolate (map seen (reverse entries.old.items)) ≡ map seen (reverse entries.new.items) }
    ensures steps_at_least { steps.old ≤ steps.new }
    ensures popped { steps.new + length entries.new.items ≡ steps.old + length entries.old.items }
{
    while let Some(entry) = entries.pop() {
        steps.tick();
        if entry.is_isolate {
            break;
        }
    }
}

// Returns the entries of a stack that has only this one.
fn only(entry: StatusEntry) -> ArrayVec<StatusEntry, 126>
    ensures { result.items ≡ entry ∷ [] }
{
    let mut entries = ArrayVec::new();
    entries.push(entry);
    entries
}

// Returns the last entry.
fn last(entries: &ArrayVec<StatusEntry, 126>) -> StatusEntry
    requires { 0 < length entries.now.items }
    ensures { IsLast result entries.now.items }
{
    entries[entries.len() - 1]
}

impl StatusStack {
    /// Returns the stack of a paragraph, before its first character (X1).
    pub fn new(paragraph: Level) -> Self
        ensures { result ≡ start paragraph }
    {
        let entries = only(StatusEntry {
            level: paragraph,
            override_class: None,
            is_isolate: false,
        });
        StatusStack {
            top: last(&entries),
            entries,
            overflow_isolates: 0,
            overflow_embeddings: 0,
            valid_isolates: 0,
        }
    }

    /// Reads a control: closes what it closes, returns what is written for it by the status then, and opens what it
    /// opens. The steps that pop the stack are charged to the popped entries.
    ///
    /// One `match` on the class chooses all of that.
    #[inline(always)]
    #[tactic(auto, using(crate::proofs::StackLemmas::entry_counts))]
    pub fn read<S: Ledger>(
        &mut self,
        paragraph: Level,
        class: BidiClass,
        steps: &mut Steps<S>,
    ) -> Answer
        requires control { is_control class ≡ true }
        requires poppable { IsPoppable self.old }
        requires depth { (paragraph : ℕ) × IsWithinDepth paragraph (closed class self.old) }
        requires counts { counted (closed class self.old) + 1 < 2 ^ 64 }
        ensures level { result.level ≡ answer_level paragraph class self.old }
        ensures class { result.class ≡ (if is_removed class then BN else answer_class class self.old) }
        ensures is_kept { result.is_kept ≡ is_kept class }
        ensures state { self.new ≡ step class self.old }
        ensures steps_at_least { steps.old ≤ steps.new }
        ensures steps_at_most { steps.new + entry_count self.new ≤ steps.old + entry_count self.old + 1 }
    {
        match class {
            BidiClass::LRI | BidiClass::RLI | BidiClass::FSI => {
                let outer = self.top;
                self.enter(class, true);
                outer.answer_kept(class)
            }
            BidiClass::LRE | BidiClass::LRO | BidiClass::RLE | BidiClass::RLO => {
                let outer = self.top;
                self.enter(class, false);
                outer.answer_removed()
            }
            BidiClass::PDI => {
                self.close_isolate(steps);
                self.top.answer_kept(class)
            }
            BidiClass::PDF => {
                self.close_embedding();
                self.top.answer_removed()
            }
            // A paragraph separator has the paragraph level, and no override changes it (X8).
            _ => Answer {
                level: paragraph,
                class,
                is_kept: true,
            },
        }
    }

    /// Returns the status on top of the stack.
    pub fn top(&self) -> StatusEntry
        ensures { seen result ≡ self.now.top }
    {
        self.top
    }

    // Closes the innermost isolate at a PDI (X6a).
    #[tactic(auto, using(crate::proofs::StackLemmas::isolate_closings))]
    fn close_isolate<S: Ledger>(&mut self, steps: &mut Steps<S>)
        requires { IsPoppable self.old }
        ensures state { self.new ≡ close_isolate self.old }
        ensures steps_at_least { steps.old ≤ steps.new }
        ensures steps_at_most { steps.new + entry_count self.new ≤ steps.old + entry_count self.old }
    {
        if self.overflow_isolates > 0 {
            self.overflow_isolates -= 1;
        } else if self.valid_isolates > 0 {
            self.overflow_embeddings = 0;
            self.valid_isolates -= 1;
            pop_isolate(&mut self.entries, steps);
            self.top = last(&self.entries);
        }
    }

    // Closes the innermost embedding at a PDF (X7).
    #[tactic(auto, using(crate::proofs::StackLemmas::embedding_closings))]
    fn close_embedding(&mut self)
        ensures { self.new ≡ close_embedding self.old }
    {
        if self.overflow_isolates > 0 {
            return;
        }
        if self.overflow_embeddings > 0 {
            self.overflow_embeddings -= 1;
            return;
        }
        if self.top.is_isolate {
            return;
        }
        // The paragraph's own entry stays.
        if self.entries.len() > 1 {
            self.entries.pop();
            self.top = last(&self.entries);
        }
    }

    // Returns the level inside an opener, or `None` if it would be above 125 or if an open opener has
    // overflowed.
    fn taken_level(&self, class: BidiClass) -> Option<Level>
        ensures { result ≡ (if fits_in class self.now then Some (next_level class self.now.top.status.level) else None) }
    {
        if self.overflow_isolates == 0 && self.overflow_embeddings == 0 {
            next_level(class, self.top.level).ok()
        } else {
            None
        }
    }

    // Pushes an opener's entry, or counts its overflow.
    fn enter(&mut self, class: BidiClass, is_isolate: bool)
        requires depth { (paragraph : ℕ) × IsWithinDepth paragraph self.old }
        requires counts { counted self.old + 1 < 2 ^ 64 }
        requires isolate { is_isolate ≡ is_isolate_initiator class }
        ensures { self.new ≡ entered class self.old }
    {
        if let Some(level) = self.taken_level(class) {
            self.top = StatusEntry {
                level,
                override_class: override_class(class),
                is_isolate,
            };
            self.entries.push(self.top);
            if is_isolate {
                self.valid_isolates += 1;
            }
        } else if is_isolate {
            self.overflow_isolates += 1;
        } else if self.overflow_isolates == 0 {
            self.overflow_embeddings += 1;
        }
    }
}
