// Both checks: whether a sheet shows that there is no plan within the limit.
ghost use Rattle.std.specs.Prelude.{◌≡◌};
ghost use Rattle.plans.specs.Posed.{put};
ghost use Rattle.plans.specs.Sheets.{goes, stranded as is_stranded, toll_accepts as the_toll_accepts};

use crate::setting::Setting;
use amounts::Amount;
use sources::Source;

// Has the book an open weekend?
fn has_open<S: Source>(source: &S, book: usize) -> bool
    ensures { result ≡ goes (S.Source.weeks source.now) (S.Source.table source.now book) }
{
    (0..source.weekends()).any(|weekend| source.quote(book, weekend).is_some())
}

// Has some book no open weekend?
fn stranded<S: Source>(source: &S) -> bool
    ensures { result ≡ is_stranded (S.Source.count source.now) (S.Source.weeks source.now) (S.Source.table source.now) }
{
    (0..source.books()).any(|book| !has_open(source, book))
}

impl<'a, S: Source> Setting<'a, S> {
    // The toll check: a book has no open weekend, or the floor of the sheet exceeds the limit. The entry for a weekend and a class stands at
    // place weekend * classes + class; a place past the end counts zero, and later places are not read.
    pub fn toll_accepts(&self, limit: S::Quote, sheet: &[S::Quote]) -> bool
        ensures { result ≡ the_toll_accepts S.Quote.Amount.kind (put S.Source self.now limit) sheet.now }
    {
        stranded(self.source) || limit.compare(self.floor(sheet)).is_lt()
    }
}
