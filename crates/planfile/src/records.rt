// One record after another: the first fault of each, or what the file has come to with it.
ghost use Rattle.std.specs.Prelude.{◌≡◌, ◌<◌, ◌&&◌, ◌==◌, nat_le, nat_lt, not, Ok};
ghost use Rattle.planfile.specs.Progress.{before, rank, within};
ghost use Rattle.planfile.specs.Records.{refuse, class_line, weekend_line, book_line, bound_line, quote_line, limit_line, stepped};
ghost use Rattle.planfile.specs.declared.refusal.Refusal.TheVariants.{Bounds, Letter, Number};

use crate::fields::{read_price, spare_bytes, zeros};
use crate::progress::{FileKind, Place, Progress, Stage};
use crate::refusal::{Refusal, Spot};

// The letter may stand where the file has come to one of the stages from `first` to `last`.
fn letter_may_follow(so_far: Progress, first: Stage, last: Stage) -> Result<(), Spot>
    ensures { result ≡ refuse Letter 0 (not (within (rank first) (rank last) so_far.stage)) (Ok tt) }
{
    Refusal::Letter
        .at(0)
        .when(!so_far.stage.is_within(first, last))
}

// A class, weekend or book has the number that comes next, and one below `most`.
fn next_in_turn(number: u8, so_far: u8, most: u8) -> Result<(), Spot>
    ensures { result ≡ refuse Number 1 (not (number == so_far && nat_lt number most)) (Ok tt) }
{
    Refusal::Number
        .at(1)
        .when(number != so_far || number >= most)
}

// The place of a bound or a quote: its row, then its order, then its column.
#[tactic(auto, unfolding(crate::specs::Progress::before))]
fn place_in_turn(place: Place, least: Place, rows: u8, columns: u8) -> Result<(), Spot>
    ensures { result ≡ refuse Number 1 (not (nat_lt place.row rows)) (refuse Number 1 (before place least) (refuse Number 2 (not (nat_lt place.column columns)) (Ok tt))) }
{
    Refusal::Number.at(1).when(place.row >= rows)?;
    Refusal::Number.at(1).when(place < least)?;
    Refusal::Number.at(2).when(place.column >= columns)
}

// A lower bound is at most the upper one, and that at most 120.
fn straight(lower: u8, upper: u8) -> Result<(), Spot>
    ensures { result ≡ refuse Bounds 3 (not (nat_le lower upper && nat_le upper 120)) (Ok tt) }
{
    Refusal::Bounds.at(3).when(lower > upper || upper > 120)
}

#[tactic(auto, unfolding(crate::specs::Records::class_line))]
fn take_class(so_far: Progress, raw: &[u8; 16]) -> Result<Progress, Spot>
    ensures { result ≡ class_line so_far raw.now }
{
    let [_, class, parent, rest @ ..] = raw.as_slice() else {
        unreachable()
    };
    letter_may_follow(so_far, Stage::Start, Stage::Class)?;
    zeros(3, rest)?;
    next_in_turn(*class, so_far.classes, 8)?;
    Refusal::Number.at(2).when(*parent >= (*class).max(1))?;
    Ok(Progress {
        stage: Stage::Class,
        classes: *class + 1,
        ..so_far
    })
}

#[tactic(auto, unfolding(crate::specs::Records::weekend_line))]
fn take_weekend(so_far: Progress, raw: &[u8; 16]) -> Result<Progress, Spot>
    ensures { result ≡ weekend_line so_far raw.now }
{
    let [_, weekend, rest @ ..] = raw.as_slice() else {
        unreachable()
    };
    letter_may_follow(so_far, Stage::Class, Stage::Weekend)?;
    zeros(2, rest)?;
    next_in_turn(*weekend, so_far.weekends, 16)?;
    Ok(Progress {
        stage: Stage::Weekend,
        weekends: *weekend + 1,
        ..so_far
    })
}

#[tactic(auto, unfolding(crate::specs::Records::book_line))]
fn take_book(so_far: Progress, raw: &[u8; 16]) -> Result<Progress, Spot>
    ensures { result ≡ book_line so_far raw.now }
{
    let [_, book, class, rest @ ..] = raw.as_slice() else {
        unreachable()
    };
    letter_may_follow(so_far, Stage::Weekend, Stage::Book)?;
    zeros(3, rest)?;
    next_in_turn(*book, so_far.books, 120)?;
    Refusal::Number.at(2).when(*class >= so_far.classes)?;
    Ok(Progress {
        stage: Stage::Book,
        books: *book + 1,
        ..so_far
    })
}

#[tactic(auto, unfolding(crate::specs::Records::bound_line))]
fn take_bound(so_far: Progress, raw: &[u8; 16]) -> Result<Progress, Spot>
    requires { so_far.bounds < 2193 }
    ensures { result ≡ bound_line so_far raw.now }
{
    let [_, weekend, class, lower, upper, rest @ ..] = raw.as_slice() else {
        unreachable()
    };
    let place = Place {
        row: *weekend,
        column: *class,
    };
    letter_may_follow(so_far, Stage::Book, Stage::Bound)?;
    zeros(5, rest)?;
    place_in_turn(place, so_far.next_bound, so_far.weekends, so_far.classes)?;
    straight(*lower, *upper)?;
    Ok(Progress {
        stage: Stage::Bound,
        bounds: so_far.bounds + 1,
        next_bound: Place {
            column: place.column + 1,
            ..place
        },
        ..so_far
    })
}

#[tactic(auto, unfolding(crate::specs::Records::quote_line, crate::specs::Progress::before))]
fn take_quote(kind: FileKind, so_far: Progress, raw: &[u8; 16]) -> Result<Progress, Spot>
    requires { so_far.quotes < 2193 }
    ensures { result ≡ quote_line kind so_far raw.now }
{
    let [_, book, weekend, rest @ ..] = raw.as_slice() else {
        unreachable()
    };
    let price = read_price(raw);
    let place = Place {
        row: *book,
        column: *weekend,
    };
    letter_may_follow(so_far, Stage::Book, Stage::Quote)?;
    zeros(3, &rest[..spare_bytes(kind)])?;
    place_in_turn(place, so_far.next_quote, so_far.books, so_far.weekends)?;
    Refusal::Weight
        .at(4)
        .when(price.strain.unsigned_abs() > 1_000_000_000)?;
    Refusal::Weight
        .at(8)
        .when(price.money.unsigned_abs() > 1_000_000_000)?;
    Ok(Progress {
        stage: Stage::Quote,
        quotes: so_far.quotes + 1,
        next_quote: Place {
            column: place.column + 1,
            ..place
        },
        ..so_far
    })
}

#[tactic(auto, unfolding(crate::specs::Records::limit_line))]
fn take_limit(kind: FileKind, so_far: Progress, raw: &[u8; 16]) -> Result<Progress, Spot>
    ensures { result ≡ limit_line kind so_far raw.now }
{
    let [_, rest @ ..] = raw.as_slice() else {
        unreachable()
    };
    let price = read_price(raw);
    letter_may_follow(so_far, Stage::Book, Stage::Quote)?;
    zeros(1, &rest[..2 + spare_bytes(kind)])?;
    Refusal::Weight
        .at(8)
        .when(price.money.unsigned_abs() > 1_000_000_000_000)?;
    Ok(Progress {
        stage: Stage::Limit,
        ..so_far
    })
}

// One record more. Its first byte is a letter, and what the other bytes mean goes by that.
#[tactic(auto, unfolding(crate::specs::Records::stepped))]
pub(crate) fn step(kind: FileKind, so_far: Progress, raw: &[u8; 16]) -> Result<Progress, Spot>
    requires bounds { so_far.bounds < 2193 }
    requires quotes { so_far.quotes < 2193 }
    ensures { result ≡ stepped kind so_far raw.now }
{
    let [letter, ..] = raw;
    match char::from(*letter) {
        'C' => take_class(so_far, raw),
        'W' => take_weekend(so_far, raw),
        'B' => take_book(so_far, raw),
        'N' => take_bound(so_far, raw),
        'Q' => take_quote(kind, so_far, raw),
        'L' => take_limit(kind, so_far, raw),
        _ => Err(Refusal::Letter.at(0)),
    }
}
