// The solver for callers in C.
#![tactic(auto)]

use amounts::Money;
use plans::{Bounds, Roster, Setting};
use solver::{Unsolved, solve};
use sources::QuoteTable;

// The first quotes as amounts, and zero behind them.
fn amounts_of(quotes: &[i64]) -> [Money; 1920] {
    let mut amounts = [Money::from(0); 1920];
    for (amount, quote) in amounts.iter_mut().zip(quotes) {
        *amount = Money::from(*quote);
    }
    amounts
}

// The bounds of 16 weekends and 8 classes: lower and upper in turn.
fn bounds_of(books: usize, pairs: &[u8]) -> Bounds {
    let mut bounds = Bounds::open(books);
    let (pairs, _) = pairs.as_chunks::<2>();
    for (place, [lower, upper]) in pairs.iter().take(128).enumerate() {
        bounds.set(
            place / 8,
            place % 8,
            usize::from(*lower),
            usize::from(*upper),
        );
    }
    bounds
}

// Stays: the C interface: lists, and a code for how it ended: 0 solved, 1 a book has no open weekend, 2 no roster or too short a sheet.
#[unsafe(no_mangle)]
pub extern "C" fn solve_money(
    books: usize,
    weekends: usize,
    quotes: &[i64],
    words: &[u16],
    parents: &[usize],
    classes: &[usize],
    bounds: &[u8],
    sent: &mut [u8],
) -> u8 {
    let Ok(roster) = Roster::from_lists(parents, classes, books) else {
        return 2;
    };
    let amounts = amounts_of(quotes);
    let source = QuoteTable::new(books, weekends, &amounts, words);
    let bounds = bounds_of(books, bounds);
    let setting = Setting {
        source: &source,
        roster: &roster,
        bounds: &bounds,
    };
    let mut work = [Money::from(0); 1024];
    match solve(&setting, &mut work) {
        Ok(weekends) => {
            for (place, weekend) in sent.iter_mut().zip(weekends) {
                *place = weekend;
            }
            0
        }
        Err(Unsolved::Stranded) => 1,
        Err(Unsolved::Short) => 2,
    }
}
