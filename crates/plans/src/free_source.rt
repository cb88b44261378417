// A source with every quote counted zero: which pairs are open is all that is left of it.
ghost use Rattle.std.specs.Prelude.{◌≡◌};
ghost use Rattle.plans.specs.Free.{freed, free_ranges};

use amounts::{Amount, Money};
use sources::Source;

#[derive(Drop)]
pub(crate) struct FreeSource<'a, S> {
    below: &'a S,
}

impl<'a, S: Source> FreeSource<'a, S> {
    pub(crate) fn over(below: &'a S) -> Self
        ensures { result.below.now ≡ below.now }
    {
        FreeSource { below }
    }
}

impl<'a, S: Source> Source for FreeSource<'a, S> {
    type Quote = Money;

    ghost count = { λ f. S.Source.count f.below.now };

    ghost weeks = { λ f. S.Source.weeks f.below.now };

    ghost table = { λ f. freed (S.Source.table f.below.now) };

    ghost ranges = { free_ranges S.Source.ranges (λ f. f.below.now) };

    fn books(&self) -> usize {
        self.below.books()
    }

    fn weekends(&self) -> usize {
        self.below.weekends()
    }

    fn quote(&self, book: usize, weekend: usize) -> Option<Money> {
        self.below.quote(book, weekend).map(|_| Money::zero())
    }
}
