// Pairs of a book and a weekend that are struck.
ghost use Rattle.std.specs.Prelude.{◌≡◌, ◌<◌, true, false, replicate};
ghost use Rattle.sources.specs.Strikes.{struck_at, with_pair, without_pair, OnlyAt};

use crate::words::has_weekend;

// One word for each book; bit w of it says that weekend w is struck.
#[derive(Clone, Copy)]
pub struct StruckPairs {
    words: [u16; 120],
}

impl StruckPairs {
    pub fn none() -> Self
        ensures { result.words ≡ replicate 120 0 }
    {
        StruckPairs { words: [0; 120] }
    }

    // Whether a pair is struck; one that has no place here is not.
    pub fn has(&self, book: usize, weekend: usize) -> bool
        ensures { result ≡ struck_at self.now.words book weekend }
    {
        self.words
            .get(book)
            .is_some_and(|word| has_weekend(*word, weekend))
    }

    // Strikes a pair; one that has no place here changes nothing.
    pub fn put(&mut self, book: usize, weekend: usize)
        ensures after { self.new.words ≡ with_pair self.old.words book weekend }
        ensures exact { book < 120 → weekend < 16 → OnlyAt self.old.words self.new.words book weekend true }
    {
        if book < 120 && weekend < 16 {
            self.words[book] |= 1 << weekend;
        }
    }

    // Stays beside `put`: the two do opposite things to a word, and a flag for which of them would say less at every call.
    // Lifts the strike of a pair; one that has no place here changes nothing.
    pub fn lift(&mut self, book: usize, weekend: usize)
        ensures after { self.new.words ≡ without_pair self.old.words book weekend }
        ensures exact { book < 120 → weekend < 16 → OnlyAt self.old.words self.new.words book weekend false }
    {
        if book < 120 && weekend < 16 {
            let bit: u16 = 1 << weekend;
            self.words[book] = (self.words[book] | bit) ^ bit;
        }
    }
}
