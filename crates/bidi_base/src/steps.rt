//! A count that only contracts see, such as the number of loop iterations.

ghost use Rattle.std.specs.Prelude.{◌≡◌, ◌+◌};

use std::marker::{Brand, Model};
use std::mem::size_of;
use std::sync::ledger::{Blank, Book, Ledger, Share};

/// A count, such as the number of loop iterations so far.
///
/// Contracts see it as a number. It takes no bytes at run time, and only [`Steps::tick`] changes it. The
/// parameter names the ledger that keeps the count.
#[derive(Drop)]
pub struct Steps<L: Ledger> {
    book: Book<L>,
    share: Share<L>,
}

impl<L: Ledger> Model for Steps<L> {
    ghost use Rattle.std.specs.Prelude.{ℕ, ◌<◌};

    ghost Value = { ℕ };

    ghost view = { λ s. s.book.total };

    ghost invariant = { λ s. 0 < s.share.parts };
}

const _: () = prove!(size_of::<Steps<Brand>>() == 0);

impl<L: Ledger> Steps<L> {
    /// Starts a count at 0. The blank opens the ledger `L` and holds its only part.
    pub fn new(blank: Blank) -> Steps<L>
        requires name { blank.name ≡ L.name }
        requires parts { blank.parts ≡ L.parts }
        requires one { blank.parts ≡ 1 }
        ensures { result ≡ 0 }
    {
        let (book, share) = blank.open();
        Steps { book, share }
    }

    /// Adds one to the count.
    pub fn tick(&mut self)
        ensures { self.new ≡ self.old + 1 }
    {
        self.book.add(&mut self.share, 1);
    }
}
