// A tariff by the wait: for each book a span of weekends, a base and a step.
ghost use Rattle.std.specs.Prelude.{◌≡◌};
ghost use Rattle.sources.specs.Tables.{clamped};
ghost use Rattle.sources.specs.Spans.{span_opens, span_quote, span_pair};
ghost use Rattle.sources.specs.Ranges.{span_ranges};

use crate::extent::Extent;
use crate::meaning::Source;
use amounts::{Amount, times};

// What a base and a step may weigh at most: with 15 steps a quote stays light.
const HEAVIEST_BASE: u64 = 500_000_000;

const HEAVIEST_STEP: u64 = 4_000_000;

// The weekends from first to last are open to a book; each costs the base, and a step more for every weekend of wait.
#[derive(Clone, Copy)]
pub struct Span<X> {
    pub first: usize,
    pub last: usize,
    pub base: X,
    pub step: X,
}

impl<X: Amount> Span<X> {
    // Whether it opens a weekend, of so many. One that runs backward, ends behind the weekends, or is too heavy opens none.
    fn opens(self, weekends: usize, weekend: usize) -> bool
        ensures { result ≡ span_opens self.first self.last weekends (X.Amount.kind.weight self.base) (X.Amount.kind.weight self.step) weekend }
    {
        self.first <= self.last
            && self.last < weekends
            && self.base.weight() <= HEAVIEST_BASE
            && self.step.weight() <= HEAVIEST_STEP
            && self.first <= weekend
            && weekend <= self.last
    }

    fn quote(self, weekends: usize, weekend: usize) -> Option<X>
        ensures { result ≡ span_quote X.Amount.kind weekends weekend self }
    {
        if !self.opens(weekends, weekend) {
            return None;
        }
        Some(self.base.sum(times(weekend - self.first, self.step)))
    }
}

// One span for each book; a missing book is shut. A count outside its range is taken as the nearer end.
#[derive(Clone, Copy)]
pub struct SpanTariff<'a, X> {
    extent: Extent,
    spans: &'a [Span<X>],
}

impl<'a, X: Amount> SpanTariff<'a, X> {
    // Stays two numbers: any may be given, and Extent is made of them here.
    pub fn new(books: usize, weekends: usize, spans: &'a [Span<X>]) -> Self
        ensures books { result.extent.books ≡ books }
        ensures weekends { result.extent.weekends ≡ weekends }
        ensures spans { result.spans.now ≡ spans.now }
    {
        SpanTariff {
            extent: Extent { books, weekends },
            spans,
        }
    }
}

impl<'a, X: Amount> Source for SpanTariff<'a, X> {
    type Quote = X;

    ghost count = { λ s. clamped 120 s.extent.books };

    ghost weeks = { λ s. clamped 16 s.extent.weekends };

    ghost table = { λ s. span_pair X.Amount.kind s.spans.now (clamped 120 s.extent.books) (clamped 16 s.extent.weekends) };

    ghost ranges = { span_ranges X.Amount.kind (λ s. s.extent.books) (λ s. s.extent.weekends) (λ s. s.spans.now) };

    fn books(&self) -> usize {
        self.extent.books()
    }

    fn weekends(&self) -> usize {
        self.extent.weekends()
    }

    fn quote(&self, book: usize, weekend: usize) -> Option<X> {
        if !self.extent.has(book, weekend) {
            return None;
        }
        let span = *self.spans.get(book)?;
        span.quote(self.extent.weekends(), weekend)
    }
}
