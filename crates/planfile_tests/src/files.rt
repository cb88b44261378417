// Files to test on, record by record.
ghost use Rattle.std.specs.Prelude.{◌<◌};

use std::alloc::{AllocError, Global};

// A record of this letter and numbers.
fn numbered(letter: u8, numbers: [u8; 4]) -> [u8; 16] {
    let [a, b, c, d] = numbers;
    [letter, a, b, c, d, 0, 0, 0, 0, 0, 0, 0, 0, 0, 0, 0]
}

pub(crate) fn class(class: u8, parent: u8) -> [u8; 16] {
    numbered(b'C', [class, parent, 0, 0])
}

pub(crate) fn weekend(weekend: u8) -> [u8; 16] {
    numbered(b'W', [weekend, 0, 0, 0])
}

pub(crate) fn book(book: u8, class: u8) -> [u8; 16] {
    numbered(b'B', [book, class, 0, 0])
}

pub(crate) fn bound(weekend: u8, class: u8, lower: u8, upper: u8) -> [u8; 16] {
    numbered(b'N', [weekend, class, lower, upper])
}

// A record of this letter and numbers, and of an amount.
fn priced(letter: u8, numbers: [u8; 2], strain: i32, money: i64) -> [u8; 16] {
    let [n, m] = numbers;
    let [a, b, c, d] = strain.to_le_bytes();
    let [e, f, g, h, i, j, k, l] = money.to_le_bytes();
    [letter, n, m, 0, a, b, c, d, e, f, g, h, i, j, k, l]
}

pub(crate) fn strained_quote(book: u8, weekend: u8, strain: i32, money: i64) -> [u8; 16] {
    priced(b'Q', [book, weekend], strain, money)
}

pub(crate) fn quote(book: u8, weekend: u8, money: i64) -> [u8; 16] {
    strained_quote(book, weekend, 0, money)
}

pub(crate) fn strained_limit(strain: i32, money: i64) -> [u8; 16] {
    priced(b'L', [0, 0], strain, money)
}

pub(crate) fn limit(money: i64) -> [u8; 16] {
    strained_limit(0, money)
}

// The record with one byte changed.
pub(crate) fn with(row: [u8; 16], byte: usize, value: u8) -> [u8; 16] {
    let mut row = row;
    if byte < 16 {
        row[byte] = value;
    }
    row
}

// Board Z: class 1 under class 0, two weekends, books 0 and 1 in class 0 and book 2 in class 1.
pub(crate) fn board_z() -> [[u8; 16]; 17] {
    [
        class(0, 0),
        class(1, 0),
        weekend(0),
        weekend(1),
        book(0, 0),
        book(1, 0),
        book(2, 1),
        bound(0, 0, 1, 2),
        bound(1, 0, 1, 2),
        bound(1, 1, 1, 1),
        quote(0, 0, 4),
        quote(0, 1, 1),
        quote(1, 0, 2),
        quote(1, 1, 3),
        quote(2, 0, 1),
        quote(2, 1, 5),
        limit(11),
    ]
}

// So many classes, weekends and books, and nothing else yet.
pub(crate) fn board(
    heap: Global,
    classes: u8,
    weekends: u8,
    books: u8,
) -> Result<Vec<[u8; 16]>, AllocError> {
    let mut rows = Vec::new(heap);
    rows.extend((0..classes).map(|c| class(c, c / 2)))?;
    rows.extend((0..weekends).map(weekend))?;
    rows.extend((0..books).map(|b| book(b, 0)))?;
    Ok(rows)
}

// A bound for each weekend and class.
pub(crate) fn add_bounds(
    rows: &mut Vec<[u8; 16]>,
    weekends: u8,
    classes: u8,
) -> Result<(), AllocError> {
    for w in 0..weekends {
        rows.extend((0..classes).map(|c| bound(w, c, c, 120)))?;
    }
    Ok(())
}

// A quote for each book and weekend.
pub(crate) fn add_quotes(
    rows: &mut Vec<[u8; 16]>,
    books: u8,
    weekends: u8,
) -> Result<(), AllocError> {
    for b in 0..books {
        rows.extend((0..weekends).map(|w| quote(b, w, i64::from(b) - i64::from(w))))?;
    }
    Ok(())
}

// The largest board, but for its limit: 2,192 records.
pub(crate) fn largest(heap: Global) -> Result<Vec<[u8; 16]>, AllocError> {
    let mut rows = board(heap, 8, 16, 120)?;
    add_bounds(&mut rows, 16, 8)?;
    add_quotes(&mut rows, 120, 16)?;
    Ok(rows)
}
