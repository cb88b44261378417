use amounts::Money;
use sources::Source;

// The coins of a pair's amount, if it is open.
pub(crate) fn asked<S: Source<Quote = Money>>(
    source: &S,
    book: usize,
    weekend: usize,
) -> Option<i64> {
    source.quote(book, weekend).map(|amount| amount.value)
}
