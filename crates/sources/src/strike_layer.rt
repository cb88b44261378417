// A layer over any source that remembers struck pairs.
ghost use Rattle.std.specs.Prelude.{◌≡◌, ◌<◌, true, false, replicate};
ghost use Rattle.sources.specs.Strikes.{struck_at, with_pair, without_pair, OnlyAt, struck_out};
ghost use Rattle.sources.specs.Ranges.{layer_ranges};

use crate::meaning::Source;
use crate::struck_pairs::StruckPairs;

// A struck pair is shut; every other pair and both numbers are as below.
#[derive(Drop)]
pub struct StrikeLayer<S> {
    below: S,
    struck: StruckPairs,
}

impl<S: Source> StrikeLayer<S> {
    // Nothing is struck at first.
    pub fn over(below: S) -> Self
        ensures same { result.below ≡ below }
        ensures clean { result.struck.words ≡ replicate 120 0 }
    {
        StrikeLayer {
            below,
            struck: StruckPairs::none(),
        }
    }

    pub fn is_struck(&self, book: usize, weekend: usize) -> bool
        ensures { result ≡ struck_at self.now.struck.words book weekend }
    {
        self.struck.has(book, weekend)
    }

    pub fn strike(&mut self, book: usize, weekend: usize)
        ensures same { self.new.below ≡ self.old.below }
        ensures after { self.new.struck.words ≡ with_pair self.old.struck.words book weekend }
        ensures exact { book < 120 → weekend < 16 → OnlyAt self.old.struck.words self.new.struck.words book weekend true }
    {
        self.struck.put(book, weekend);
    }

    pub fn lift(&mut self, book: usize, weekend: usize)
        ensures same { self.new.below ≡ self.old.below }
        ensures after { self.new.struck.words ≡ without_pair self.old.struck.words book weekend }
        ensures exact { book < 120 → weekend < 16 → OnlyAt self.old.struck.words self.new.struck.words book weekend false }
    {
        self.struck.lift(book, weekend);
    }
}

impl<S: Source> Source for StrikeLayer<S> {
    type Quote = S::Quote;

    ghost count = { λ s. S.Source.count s.below };

    ghost weeks = { λ s. S.Source.weeks s.below };

    ghost table = { λ s. struck_out (S.Source.table s.below) s.struck.words };

    ghost ranges = { layer_ranges S.Source.ranges (λ s. s.below) (λ s. s.struck.words) };

    fn books(&self) -> usize {
        self.below.books()
    }

    fn weekends(&self) -> usize {
        self.below.weekends()
    }

    fn quote(&self, book: usize, weekend: usize) -> Option<S::Quote> {
        if self.is_struck(book, weekend) {
            return None;
        }
        self.below.quote(book, weekend)
    }
}
