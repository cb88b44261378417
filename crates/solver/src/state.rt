// An assignment that is being improved.
ghost use Rattle.std.specs.Prelude.{◌≡◌, ◌<◌, length};

use crate::nodes::Spot;
use plans::Roster;

// Where a book is sent, and its word: bit w says that the book may be moved to weekend w.
#[derive(Clone, Copy)]
pub(crate) struct Sent {
    pub(crate) weekend: u8,
    pub(crate) word: u16,
}

// Stays a clause where a book or a weekend is named: that it has a place here is asked of a number, and every caller has it of the source.
// Place b of `books` is book b, and place weekend * 8 + class of `counts` is how many members of the class go to the weekend.
#[derive(Clone, Copy)]
pub(crate) struct State {
    pub(crate) books: [Sent; 120],
    pub(crate) counts: [usize; 128],
    ghost sized: { (length books ≡ 120) × (length counts ≡ 128) },
}

impl State {
    ghost use Rattle.std.specs.Prelude.{replicate, slice_index, slice_set};
    ghost use Rattle.plans.specs.Places.{at};
    ghost use Rattle.solver.specs.States.{sent_of, words_of};

    // Nothing is counted, and no book may go anywhere.
    pub(crate) fn empty() -> Self
        ensures sent { sent_of result ≡ replicate 120 0 }
        ensures words { words_of result ≡ replicate 120 0 }
        ensures counts { result.counts ≡ replicate 128 0 }
    {
        let unsent = Sent {
            weekend: 0,
            word: 0,
        };
        State {
            books: [unsent; 120],
            counts: [0; 128],
        }
    }

    // The weekend of a book.
    pub(crate) fn weekend_of(&self, book: usize) -> usize
        requires { book < 120 }
        ensures { result ≡ at (sent_of self.now) book }
    {
        usize::from(self.books[book].weekend)
    }

    // The word of a book.
    pub(crate) fn word_of(&self, book: usize) -> u16
        requires { book < 120 }
        ensures { result ≡ slice_index (words_of self.now) book }
    {
        self.books[book].word
    }

    // Where a book is.
    pub(crate) fn spot_of(&self, roster: &Roster, book: usize) -> Spot
        requires book { book < 120 }
        requires sent { at (sent_of self.now) book < 16 }
        ensures weekend { result.weekend ≡ at (sent_of self.now) book }
        ensures class { result.class ≡ at roster.now.homes book }
    {
        Spot {
            weekend: self.weekend_of(book),
            class: roster.class_of(book),
        }
    }

    // Sends a book to a weekend.
    pub(crate) fn send(&mut self, book: usize, weekend: usize)
        requires { (book < 120) × (weekend < 16) }
        ensures sent { sent_of self.new ≡ slice_set (sent_of self.old) book weekend }
        ensures words { words_of self.new ≡ words_of self.old }
        ensures counts { self.new.counts ≡ self.old.counts }
    {
        self.books[book].weekend = weekend as u8;
    }

    // Gives a book its word.
    pub(crate) fn widen(&mut self, book: usize, word: u16)
        requires { book < 120 }
        ensures sent { sent_of self.new ≡ sent_of self.old }
        ensures words { words_of self.new ≡ slice_set (words_of self.old) book word }
        ensures counts { self.new.counts ≡ self.old.counts }
    {
        self.books[book].word = word;
    }

    // The weekends of all books.
    pub(crate) fn weekends(&self) -> [u8; 120]
        ensures { result ≡ sent_of self.now }
    {
        self.books.map(|book| book.weekend)
    }
}
