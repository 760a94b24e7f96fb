//! The openers that are open while a paragraph is read.
ghost use Rattle.std.specs.Prelude.{◌≡◌, reverse, OnOk, is_some, if◌then◌else◌};

use bidi_base::char_data::BidiClass;
use bidi_base::classes::{is_embedding_initiator, is_isolate_initiator};
use std::alloc::{AllocError, Global};
use std::marker::Model;

/// An embedding, an override or an isolate initiator.
#[derive(Clone, Copy)]
pub struct Opener {
    /// Its index in the paragraph.
    pub place: usize,
    /// Whether it is an isolate initiator.
    pub is_isolate: bool,
}

/// The openers that are open at an index of a paragraph. In clauses they are a list, the innermost first.
#[derive(Drop)]
pub struct Openers {
    /// The outermost first.
    entries: Vec<Opener>,
    /// How many of them are isolate initiators.
    isolates: usize,
}

impl Model for Openers {
    ghost use Rattle.std.specs.Prelude.{◌≡◌, List, reverse, count_by};
    ghost use Rattle.bidi_controls.specs.declared.openers.Opener.{Opener};

    ghost Value = { List Opener };

    ghost view = { λ o. reverse o.entries.items };

    ghost invariant = { λ o. o.isolates ≡ count_by (λ opener. opener.is_isolate) (reverse o.entries.items) };
}

impl Openers {
    ghost use Rattle.std.specs.Prelude.{[]};
    ghost use Rattle.bidi_controls.specs.OpenOpeners.{innermost_isolate, outside_isolate, innermost_embedding, outside_embedding, closed_place, left_open, then_open};

    /// Returns no openers. Does not allocate.
    pub fn new(alloc: Global) -> Self
        ensures { result ≡ [] }
    {
        Openers {
            entries: Vec::new(alloc),
            isolates: 0,
        }
    }

    /// Removes all openers. Keeps the memory.
    pub fn clear(&mut self)
        ensures { self.new ≡ [] }
    {
        self.entries.clear();
        self.isolates = 0;
    }

    /// Removes the innermost isolate and all that was opened inside it, and returns its index.
    fn take_isolate(entries: &mut Vec<Opener>) -> Option<usize>
        ensures place { result ≡ innermost_isolate (reverse entries.old.items) }
        ensures left { reverse entries.new.items ≡ outside_isolate (reverse entries.old.items) }
    {
        while let Some(opener) = entries.pop() {
            if opener.is_isolate {
                return Some(opener.place);
            }
        }
        None
    }

    /// Closes what a PDI closes: the innermost isolate, with all that was opened inside it (X6a).
    fn close_isolate(&mut self) -> Option<usize>
        ensures place { result ≡ innermost_isolate self.old }
        ensures left { self.new ≡ (if is_some (innermost_isolate self.old) then outside_isolate self.old else self.old) }
    {
        if self.isolates == 0 {
            return None;
        }
        self.isolates -= 1;
        Openers::take_isolate(&mut self.entries)
    }

    /// Closes what a PDF closes: the innermost embedding or override, unless an isolate was opened inside it (X7).
    fn close_embedding(&mut self) -> Option<usize>
        ensures place { result ≡ innermost_embedding self.old }
        ensures left { self.new ≡ outside_embedding self.old }
    {
        let innermost = *self.entries.last()?;
        if innermost.is_isolate {
            return None;
        }
        self.entries.pop();
        Some(innermost.place)
    }

    /// Closes what a character of this class closes, and returns the index of what it closed.
    pub fn close(&mut self, class: BidiClass) -> Option<usize>
        ensures place { result ≡ closed_place class self.old }
        ensures left { self.new ≡ left_open class self.old }
    {
        match class {
            BidiClass::PDI => self.close_isolate(),
            BidiClass::PDF => self.close_embedding(),
            _ => None,
        }
    }

    /// Opens what a character of this class at this index opens. Returns an error if an allocation fails.
    pub fn open(&mut self, place: usize, class: BidiClass) -> Result<(), AllocError>
        ensures { OnOk result (self.new ≡ then_open place class self.old) }
    {
        let is_isolate = is_isolate_initiator(class);
        if is_isolate || is_embedding_initiator(class) {
            self.entries.push(Opener { place, is_isolate })?;
            self.isolates += usize::from(is_isolate);
        }
        Ok(())
    }
}
