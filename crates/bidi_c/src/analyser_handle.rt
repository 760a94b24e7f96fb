//! What a caller in C keeps of an analyser between its calls.
ghost use Rattle.std.specs.Prelude.{◌≡◌, Option, None, Some, IfOk, IfSome};
ghost use Rattle.std.specs.Option.{MatchOption};
ghost use Rattle.bidi_calls.specs.declared.kept.KeptAnalyser.{KeptAnalyser as Kept};

use crate::raw_box::RawBox;
use bidi_calls::kept::KeptAnalyser;
use std::alloc::{AllocError, Global};
use std::marker::Model;
use std::mem;
use std::ptr::null_mut;

/// What C sees of an analyser: an address, behind which it reads nothing.
#[repr(C)]
pub struct Opaque {
    _first_byte: u8,
}

/// A box of an analyser as its pointer, or null. C owns the pointer, and begins with null.
#[repr(C)]
pub struct AnalyserHandle {
    at: *mut Opaque,
    pub(crate) ghost value: { Option Kept },
}

impl Model for AnalyserHandle {
    ghost use Rattle.bidi_c.specs.Held.{held_at};
    ghost use Rattle.bidi_calls.specs.contracts.kept.KeptAnalyser.{the_row};

    ghost also_owns = { λ handle. held_at the_row handle.at handle.value };
}

// A caller may pass the handle from thread to thread.
unsafe impl Send for AnalyserHandle {}

// Makes an analyser. This is rare, and has large locals, which would be cleared at each call of a function around it.
#[inline(never)]
fn new_analyser(alloc: Global) -> Result<Box<KeptAnalyser>, AllocError> {
    Ok(Box::new(alloc, KeptAnalyser::new(alloc))?)
}

impl AnalyserHandle {
    // Returns a handle that keeps nothing.
    fn empty() -> AnalyserHandle
        ensures { result.value ≡ None }
    {
        AnalyserHandle { at: null_mut() }
    }

    // Returns a handle that keeps this analyser.
    fn of(kept: Box<KeptAnalyser>) -> AnalyserHandle
        ensures { result.value ≡ Some kept.value }
    {
        AnalyserHandle::holding(RawBox::of(kept))
    }

    fn holding(kept: RawBox<KeptAnalyser, Global>) -> AnalyserHandle
        ensures { result.value ≡ Some kept.value }
    {
        let RawBox { at, alloc: _ } = kept;
        AnalyserHandle {
            at: at as *mut Opaque,
        }
    }

    fn into_raw_box(self, alloc: Global) -> Option<RawBox<KeptAnalyser, Global>>
        ensures { MatchOption result (self.value ≡ None) (λ kept. self.value ≡ Some kept.value) }
    {
        let AnalyserHandle { at } = self;
        if at.is_null() {
            None
        } else {
            Some(RawBox {
                at: at as *mut KeptAnalyser,
                alloc,
            })
        }
    }

    // Returns what the handle keeps.
    fn into_box(self, alloc: Global) -> Option<Box<KeptAnalyser>>
        ensures { MatchOption result (self.value ≡ None) (λ kept. self.value ≡ Some kept.value) }
    {
        Some(self.into_raw_box(alloc)?.into_box())
    }

    /// Takes the analyser out of a handle, or makes one if the handle keeps none. Leaves the handle empty.
    pub(crate) fn take(&mut self, alloc: Global) -> Result<Box<KeptAnalyser>, AllocError>
        ensures emptied { self.new.value ≡ None }
        ensures kept { IfOk result (λ kept. IfSome self.old.value (λ value. kept.value ≡ value)) }
    {
        match mem::replace(self, AnalyserHandle::empty()).into_box(alloc) {
            Some(kept) => Ok(kept),
            None => new_analyser(alloc),
        }
    }

    /// Puts an analyser into a handle. Frees the one that the handle has kept so far.
    pub(crate) fn put(&mut self, alloc: Global, kept: Box<KeptAnalyser>)
        ensures { self.new.value ≡ Some kept.value }
    {
        drop(mem::replace(self, AnalyserHandle::of(kept)).into_box(alloc));
    }

    /// Frees what a handle keeps, and leaves it empty.
    pub(crate) fn free(&mut self, alloc: Global)
        ensures { self.new.value ≡ None }
    {
        drop(mem::replace(self, AnalyserHandle::empty()).into_box(alloc));
    }
}
