// The order of a file's records, and where it ends.
use crate::files::{board_z, book, bound, class, limit, quote, weekend, with};
use crate::told::{Case, money, ranked};
use std::test::Fail;

#[test]
fn tells_a_letter_that_may_not_stand_there(rt: HostRuntime) {
    let cases = [
        // no letter of a record
        Case(0, with(class(0, 0), 0, 0), Some((2, 0))),
        Case(0, with(class(0, 0), 0, b'c'), Some((2, 0))),
        Case(16, with(limit(11), 0, b'X'), Some((2, 0))),
        // at the start
        Case(0, weekend(0), Some((2, 0))),
        Case(0, book(0, 0), Some((2, 0))),
        Case(0, bound(0, 0, 1, 2), Some((2, 0))),
        Case(0, quote(0, 0, 4), Some((2, 0))),
        Case(0, limit(11), Some((2, 0))),
        // after a class
        Case(1, book(0, 0), Some((2, 0))),
        Case(1, bound(0, 0, 1, 2), Some((2, 0))),
        Case(1, quote(0, 0, 4), Some((2, 0))),
        Case(1, limit(11), Some((2, 0))),
        // after a weekend
        Case(3, class(2, 0), Some((2, 0))),
        Case(3, bound(0, 0, 1, 2), Some((2, 0))),
        Case(3, quote(0, 0, 4), Some((2, 0))),
        Case(3, limit(11), Some((2, 0))),
        // after a book
        Case(6, class(2, 0), Some((2, 0))),
        Case(6, weekend(2), Some((2, 0))),
        // after a bound
        Case(9, class(2, 0), Some((2, 0))),
        Case(9, weekend(2), Some((2, 0))),
        Case(9, book(3, 0), Some((2, 0))),
        // after a quote
        Case(15, class(2, 0), Some((2, 0))),
        Case(15, weekend(2), Some((2, 0))),
        Case(15, book(3, 0), Some((2, 0))),
        Case(15, bound(1, 1, 1, 1), Some((2, 0))),
    ];
    money(&rt).each_told(&cases);
}

#[test]
fn tells_any_record_after_the_limit(rt: HostRuntime) -> Result<(), Fail> {
    let rows = [
        class(2, 0),
        weekend(2),
        book(3, 0),
        bound(1, 1, 1, 1),
        quote(2, 1, 5),
        limit(11),
        with(limit(11), 0, b'X'),
    ];
    for row in &rows {
        let mut file = Vec::from_slice(rt.alloc(), &board_z())?;
        file.push(*row)?;
        money(&rt).refused(&file, 2, 17, 0);
        ranked(&rt).refused(&file, 2, 17, 0);
    }
    Ok(())
}

#[test]
fn tells_a_file_that_ends_early(rt: HostRuntime) {
    let rows = board_z();
    for kept in 0..17usize {
        let number = if kept == 0 { 1 } else { 2 };
        money(&rt).refused(&rows[0..kept], number, kept, 0);
        ranked(&rt).refused(&rows[0..kept], number, kept, 0);
    }
}

#[test]
fn accepts_a_file_with_no_bounds_or_no_quotes(rt: HostRuntime) -> Result<(), Fail> {
    let (c, w, b) = (class(0, 0), weekend(0), book(0, 0));
    money(&rt).accepted(&[c, w, b, limit(0)])?;
    money(&rt).accepted(&[c, w, b, bound(0, 0, 0, 1), limit(0)])?;
    money(&rt).accepted(&[c, w, b, quote(0, 0, 3), limit(0)])?;
    money(&rt).refused(&[w, b, limit(0)], 2, 0, 0);
    money(&rt).refused(&[c, b, limit(0)], 2, 1, 0);
    money(&rt).refused(&[c, w, limit(0)], 2, 2, 0);
    Ok(())
}

// With two classes and three weekends, and at the places 6 and 7 a bound at (1, 0) and this one.
fn two_bounds(second: [u8; 16]) -> [[u8; 16]; 9] {
    [
        class(0, 0),
        class(1, 0),
        weekend(0),
        weekend(1),
        weekend(2),
        book(0, 1),
        bound(1, 0, 0, 1),
        second,
        limit(1),
    ]
}

// The order of two bounds goes by their bytes as they stand, before the second's class is looked at.
#[test]
fn tells_the_order_of_bounds_before_a_class(rt: HostRuntime) -> Result<(), Fail> {
    money(&rt).accepted(&two_bounds(bound(2, 0, 0, 1)))?;
    money(&rt).accepted(&two_bounds(bound(1, 1, 0, 1)))?;
    money(&rt).refused(&two_bounds(bound(0, 9, 0, 1)), 3, 7, 1);
    money(&rt).refused(&two_bounds(bound(1, 9, 0, 1)), 3, 7, 2);
    money(&rt).refused(&two_bounds(bound(2, 9, 0, 1)), 3, 7, 2);
    money(&rt).refused(&two_bounds(bound(3, 9, 0, 1)), 3, 7, 1);
    Ok(())
}

// Each fault stands before those above it, so each is told in its turn.
#[test]
fn tells_the_first_faulty_record(rt: HostRuntime) {
    let faults = [
        Case(16, limit(i64::MAX), Some((7, 8))),
        Case(14, with(quote(2, 0, 1), 5, 1), Some((4, 5))),
        Case(12, quote(1, 0, i64::MAX), Some((7, 8))),
        Case(9, bound(1, 1, 2, 1), Some((6, 3))),
        Case(7, class(2, 0), Some((2, 0))),
        Case(5, book(1, 2), Some((3, 2))),
        Case(3, with(weekend(1), 9, 1), Some((4, 9))),
        Case(1, class(1, 1), Some((3, 2))),
        Case(0, limit(1), Some((2, 0))),
    ];
    let mut rows = board_z();
    for Case(at, row, expected) in &faults {
        assert!(rt; *at < 17);
        rows[*at] = *row;
        money(&rt).told_at(&rows, *at, *expected);
    }
}
