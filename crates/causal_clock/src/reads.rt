//! A counter of the operations of a log that were read. Only the call that reads a row with its entries raises it.
ghost use Rattle.std.specs.Prelude.{◌≡◌, ◌+◌, ◌<◌};

use std::marker::Model;
use std::sync::ledger::{Blank, Book, Ledger, Share};

/// How many operations were read, over any ledger. It takes no bytes, and counting does nothing at run time.
#[derive(Drop)]
pub struct Reads<L: Ledger> {
    book: Book<L>,
    share: Share<L>,
}

impl<L: Ledger> Model for Reads<L> {
    ghost use Rattle.std.specs.Prelude.{ℕ, ◌<◌};

    ghost Value = { ℕ };

    ghost view = { λ s. s.book.total };

    ghost invariant = { λ s. 0 < s.share.parts };
}

impl<L: Ledger> Reads<L> {
    /// A counter at 0, over a ledger of this blank. Constant time.
    pub fn new(blank: Blank) -> Reads<L>
        requires name { blank.name ≡ L.name }
        requires parts { blank.parts ≡ L.parts }
        requires some { 0 < L.parts }
        ensures { result ≡ 0 }
    {
        let (book, share) = blank.open::<L>();
        Reads { book, share }
    }

    /// Counts one operation.
    pub(crate) fn tick(&mut self)
        ensures { self.new ≡ self.old + 1 }
    {
        self.book.add(&mut self.share, 1);
    }
}
