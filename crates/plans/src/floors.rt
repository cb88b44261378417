// The floor of a sheet, from its parts.
ghost use Rattle.std.specs.Prelude.{◌≡◌, option_map};
ghost use Rattle.amounts.specs.Least.{better as the_better, or_none};
ghost use Rattle.amounts.specs.Sums.{sum_below, table_sum};
ghost use Rattle.plans.specs.Posed.{put, roster_toll, bounds_ceiling};
ghost use Rattle.plans.specs.Sheets.{entries, smallest, ceiling_of, floor as the_floor};

use crate::setting::Setting;
use crate::tolls::{entry, toll};
use amounts::{Amount, larger, smaller, times};
use sources::Source;

// The smaller of what was found so far, if anything, and one more.
fn better<X: Amount>(found: Option<X>, more: X) -> X
    ensures { result ≡ the_better X.Amount.kind found more }
{
    match found {
        Some(least) => smaller(least, more),
        None => more,
    }
}

// The greater of `lower` times the entry and `upper` times the entry.
fn ceiling<X: Amount>(own: X, lower: usize, upper: usize) -> X
    ensures { result ≡ ceiling_of X.Amount.kind lower upper own }
{
    larger(times(lower, own), times(upper, own))
}

impl<'a, S: Source> Setting<'a, S> {
    // What a book costs at a weekend, quote plus toll, if it is open there.
    fn cost(&self, sheet: &[S::Quote], book: usize, weekend: usize) -> Option<S::Quote>
        ensures { result ≡ option_map (λ q. S.Quote.Amount.kind.plus q (roster_toll S.Quote.Amount.kind self.now.roster.now sheet.now book weekend)) (S.Source.table self.now.source.now book weekend) }
    {
        let quote = self.source.quote(book, weekend)?;
        Some(quote.sum(toll(self.roster, sheet, book, weekend)))
    }

    // The smallest cost of a book among its open weekends, if it has one.
    // By `fold` and not by `reduce`, which asks for the first cost apart: then the checks took twice as long (docs/DESIGN-PASS.md).
    fn cheapest(&self, sheet: &[S::Quote], book: usize) -> Option<S::Quote>
        ensures { result ≡ smallest S.Quote.Amount.kind (S.Source.weeks self.now.source.now) (S.Source.table self.now.source.now book) (roster_toll S.Quote.Amount.kind self.now.roster.now sheet.now book) }
    {
        (0..self.source.weekends())
            .filter_map(|weekend| self.cost(sheet, book, weekend))
            .fold(None, |least, cost| Some(better(least, cost)))
    }

    // What the books cost at least, all together; a book with no open weekend counts zero.
    fn costs(&self, sheet: &[S::Quote]) -> S::Quote
        ensures { result ≡ sum_below S.Quote.Amount.kind (S.Source.count self.now.source.now) (λ b. or_none S.Quote.Amount.kind (smallest S.Quote.Amount.kind (S.Source.weeks self.now.source.now) (S.Source.table self.now.source.now b) (roster_toll S.Quote.Amount.kind self.now.roster.now sheet.now b))) }
    {
        (0..self.source.books())
            .map(|book| self.cheapest(sheet, book).unwrap_or(S::Quote::zero()))
            .fold(S::Quote::zero(), S::Quote::sum)
    }

    // The most that can be paid for the entries of one weekend.
    fn ceilings_of(&self, sheet: &[S::Quote], weekend: usize) -> S::Quote
        ensures { result ≡ sum_below S.Quote.Amount.kind self.now.roster.now.classes (bounds_ceiling S.Quote.Amount.kind self.now.roster.now.classes self.now.bounds.now sheet.now weekend) }
    {
        let classes = self.roster.classes();
        (0..classes)
            .map(|class| {
                let own = entry(sheet, classes, weekend, class);
                let lower = self.bounds.lower(weekend, class);
                let upper = self.bounds.upper(weekend, class);
                ceiling(own, lower, upper)
            })
            .fold(S::Quote::zero(), S::Quote::sum)
    }

    // The most that can be paid for all entries.
    fn ceilings(&self, sheet: &[S::Quote]) -> S::Quote
        ensures { result ≡ table_sum S.Quote.Amount.kind (S.Source.weeks self.now.source.now) self.now.roster.now.classes (bounds_ceiling S.Quote.Amount.kind self.now.roster.now.classes self.now.bounds.now sheet.now) }
    {
        (0..self.source.weekends())
            .map(|weekend| self.ceilings_of(sheet, weekend))
            .fold(S::Quote::zero(), S::Quote::sum)
    }

    // The floor of a sheet: what the books cost at least, less what the bounds can take back. It has nothing to do with a limit.
    pub fn floor(&self, sheet: &[S::Quote]) -> S::Quote
        ensures { result ≡ the_floor S.Quote.Amount.kind (put S.Source self.now S.Quote.Amount.kind.none) (entries S.Quote.Amount.kind self.now.roster.now.classes sheet.now) }
    {
        self.costs(sheet).sum(self.ceilings(sheet).opposite())
    }
}
