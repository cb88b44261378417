// Sheets of entries, and the tolls that they put on books.
ghost use Rattle.std.specs.Prelude.{◌≡◌, ◌+◌, ◌*◌, ◌<◌, ◌≤◌};
ghost use Rattle.amounts.specs.Sums.{item};
ghost use Rattle.plans.specs.Places.{at};
ghost use Rattle.plans.specs.Posed.{roster_toll};
ghost use Rattle.plans.specs.Sheets.{entries, upward};

use crate::class_tree::Roster;
use amounts::Amount;

// The entry at a place of a sheet; zero past its end.
fn entry_at<X: Amount>(sheet: &[X], place: usize) -> X
    ensures { result ≡ item X.Amount.kind sheet.now place }
{
    sheet.get(place).copied().unwrap_or(X::zero())
}

// Stays a sheet beside the number of classes: it is lent with more places than they fill, so its length does not tell it.
// The entry of a sheet for a weekend and a class, at place weekend * classes + class; zero where the sheet has no such place.
pub(crate) fn entry<X: Amount>(sheet: &[X], classes: usize, weekend: usize, class: usize) -> X
    ensures { result ≡ entries X.Amount.kind classes sheet.now weekend class }
{
    weekend
        .checked_mul(classes)
        .and_then(|start| start.checked_add(class))
        .map_or(X::zero(), |place| entry_at(sheet, place))
}

// What stands at a class and at every class above it, added up; `start` is the place of class 0.
// Stays beside `Roster::sum_up`: tried as that over a closure, with which both checks took twice to three times as long (docs/DESIGN-PASS.md).
fn climb<X: Amount>(roster: &Roster, sheet: &[X], start: usize, class: usize) -> X
    requires known { class < roster.now.classes }
    requires near { start ≤ 128 }
    ensures { result ≡ upward X.Amount.kind (at roster.now.parents) (λ c. item X.Amount.kind sheet.now (start + c)) class class }
{
    let own = entry_at(sheet, start + class);
    if class == 0 {
        return own;
    }
    let above = climb(roster, sheet, start, roster.parent(class));
    own.sum(above)
}

// The toll of a book at a weekend: the weekend's entries for the book's class and for every class above.
pub(crate) fn toll<X: Amount>(roster: &Roster, sheet: &[X], book: usize, weekend: usize) -> X
    requires { weekend < 16 }
    ensures { result ≡ roster_toll X.Amount.kind roster.now sheet.now book weekend }
{
    let start = weekend * roster.classes();
    climb(roster, sheet, start, roster.class_of(book))
}
