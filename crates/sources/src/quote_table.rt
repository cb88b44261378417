// A table of quotes that is lent.
ghost use Rattle.std.specs.Prelude.{◌≡◌};
ghost use Rattle.sources.specs.Tables.{clamped, word_opens, table_pair};
ghost use Rattle.sources.specs.Ranges.{table_ranges};

use crate::extent::Extent;
use crate::meaning::Source;
use crate::words::has_weekend;
use amounts::Amount;

// What a quote may weigh at most.
const HEAVIEST: u64 = 1_000_000_000;

// Place book * weekends + weekend of `quotes` is the pair's amount, and bit w of a book's word says that weekend w is open.
// A missing place or word, or an amount over 10^9, makes a pair shut. A count outside its range is taken as the nearer end.
#[derive(Clone, Copy)]
pub struct QuoteTable<'a, X> {
    extent: Extent,
    quotes: &'a [X],
    words: &'a [u16],
}

impl<'a, X: Amount> QuoteTable<'a, X> {
    // Stays two numbers: any may be given, and Extent is made of them here.
    pub fn new(books: usize, weekends: usize, quotes: &'a [X], words: &'a [u16]) -> Self
        ensures books { result.extent.books ≡ books }
        ensures weekends { result.extent.weekends ≡ weekends }
        ensures quotes { result.quotes.now ≡ quotes.now }
        ensures words { result.words.now ≡ words.now }
    {
        QuoteTable {
            extent: Extent { books, weekends },
            quotes,
            words,
        }
    }

    // Does the book's word open the weekend?
    fn opens(&self, book: usize, weekend: usize) -> bool
        ensures { result ≡ word_opens self.now.words.now (clamped 120 self.now.extent.books) (clamped 16 self.now.extent.weekends) book weekend }
    {
        self.extent.has(book, weekend)
            && self
                .words
                .get(book)
                .is_some_and(|word| has_weekend(*word, weekend))
    }
}

impl<'a, X: Amount> Source for QuoteTable<'a, X> {
    type Quote = X;

    ghost count = { λ s. clamped 120 s.extent.books };

    ghost weeks = { λ s. clamped 16 s.extent.weekends };

    ghost table = { λ s. table_pair X.Amount.kind.weight s.quotes.now s.words.now (clamped 120 s.extent.books) (clamped 16 s.extent.weekends) };

    ghost ranges = { table_ranges X.Amount.kind.weight (λ s. s.extent.books) (λ s. s.extent.weekends) (λ s. s.quotes.now) (λ s. s.words.now) };

    fn books(&self) -> usize {
        self.extent.books()
    }

    fn weekends(&self) -> usize {
        self.extent.weekends()
    }

    fn quote(&self, book: usize, weekend: usize) -> Option<X> {
        if !self.opens(book, weekend) {
            return None;
        }
        let place = book * self.extent.weekends() + weekend;
        let amount = *self.quotes.get(place)?;
        (amount.weight() <= HEAVIEST).then_some(amount)
    }
}
