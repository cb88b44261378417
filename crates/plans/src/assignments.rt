// Assignments: what one comes to, and how many members of a class it sends to a weekend.
ghost use Rattle.std.specs.Prelude.{◌≡◌};
ghost use Rattle.plans.specs.Places.{at};
ghost use Rattle.plans.specs.Posed.{meaning, assignment_total, assignment_count};

use crate::class_tree::Roster;
use amounts::Amount;
use sources::Source;

// The weekend that a book is sent to; 0 where the assignment does not say.
fn weekend_of(assignment: &[u8], book: usize) -> usize
    ensures { result ≡ at assignment.now book }
{
    usize::from(assignment.get(book).copied().unwrap_or(0))
}

// The sum of the quotes of an assignment; a shut pair counts zero.
pub fn total_of<S: Source>(source: &S, assignment: &[u8]) -> S::Quote
    ensures { result ≡ assignment_total S.Quote.Amount.kind (meaning S.Source source.now) assignment.now }
{
    (0..source.books())
        .map(|book| {
            let weekend = weekend_of(assignment, book);
            source.quote(book, weekend).unwrap_or(S::Quote::zero())
        })
        .fold(S::Quote::zero(), S::Quote::sum)
}

// Stays a number beside the assignment: a place past its end counts as weekend 0, so it is not its length.
// How many of the first `books` books are members of the class and sent to the weekend.
pub fn count_of(
    roster: &Roster,
    books: usize,
    assignment: &[u8],
    weekend: usize,
    class: usize,
) -> usize
    ensures { result ≡ assignment_count roster.now books assignment.now weekend class }
{
    (0..books)
        .filter(|book| { weekend_of(assignment, *book) == weekend && roster.member(*book, class) })
        .count()
}
