// Board Z, and board Z with one record replaced.
use crate::files::{board_z, book, bound, class, limit, quote, weekend, with};
use crate::told::{Case, Reader, money, ranked};
use planfile::{FileKind, read};
use std::process::Abort;
use std::test::Fail;

#[test]
fn reads_what_board_z_names(rt: HostRuntime) -> Result<(), Fail> {
    money(&rt).accepted(&board_z())?;
    let rows = board_z();
    let plan = read(FileKind::Money, rows.as_flattened()).map_err(|_| Fail::new("refused"))?;
    let counts = plan.counts();
    assert_eq!(rt; (counts.classes, counts.weekends, counts.books), (2, 2, 3));
    assert_eq!(rt; (counts.bounds, counts.quotes), (3, 6));
    assert_eq!(rt; (plan.parent(0), plan.parent(1)), (Some(0), Some(0)));
    assert_eq!(rt;
        (plan.class(0), plan.class(1), plan.class(2)),
        (Some(0), Some(0), Some(1))
    );
    let last = plan.bound(2).ok_or("no bound")?;
    assert_eq!(rt;
        (last.weekend, last.class, last.lower, last.upper),
        (1, 1, 1, 1)
    );
    let third = plan.quote(2).ok_or("no quote")?;
    assert_eq!(rt; (third.book, third.weekend), (1, 0));
    assert_eq!(rt; (third.price.strain, third.price.money), (0, 2));
    assert_eq!(rt; (plan.limit().strain, plan.limit().money), (0, 11));
    // and nothing past the ends
    assert!(rt; plan.parent(2).is_none() && plan.parent(usize::MAX).is_none());
    assert!(rt; plan.class(3).is_none() && plan.class(usize::MAX).is_none());
    assert!(rt; plan.bound(3).is_none() && plan.bound(usize::MAX).is_none());
    assert!(rt; plan.quote(6).is_none() && plan.quote(usize::MAX).is_none());
    Ok(())
}

#[test]
fn tells_a_number_out_of_range_or_order(rt: HostRuntime) {
    let cases = [
        // class 0 is its own parent, and any other has one below it
        Case(0, class(1, 0), Some((3, 1))),
        Case(0, class(0, 1), Some((3, 2))),
        Case(1, class(0, 0), Some((3, 1))),
        Case(1, class(2, 0), Some((3, 1))),
        Case(1, class(1, 1), Some((3, 2))),
        Case(1, class(1, 255), Some((3, 2))),
        Case(2, weekend(1), Some((3, 1))),
        Case(3, weekend(0), Some((3, 1))),
        Case(3, weekend(2), Some((3, 1))),
        Case(4, book(1, 0), Some((3, 1))),
        Case(5, book(0, 0), Some((3, 1))),
        Case(5, book(2, 0), Some((3, 1))),
        Case(5, book(1, 1), None),
        Case(5, book(1, 2), Some((3, 2))),
        // the first bound, the second after (0, 0), the third after (1, 0)
        Case(7, bound(2, 0, 1, 2), Some((3, 1))),
        Case(7, bound(0, 2, 1, 2), Some((3, 2))),
        Case(8, bound(0, 0, 1, 2), Some((3, 1))),
        Case(9, bound(0, 1, 1, 1), Some((3, 1))),
        Case(9, bound(0, 9, 1, 1), Some((3, 1))),
        Case(9, bound(1, 0, 1, 1), Some((3, 1))),
        Case(9, bound(1, 2, 1, 1), Some((3, 2))),
        Case(9, bound(2, 0, 1, 1), Some((3, 1))),
        // the first quote, the third after (0, 1), the fourth after (1, 0)
        Case(10, quote(3, 0, 4), Some((3, 1))),
        Case(10, quote(0, 2, 4), Some((3, 2))),
        Case(12, quote(0, 0, 2), Some((3, 1))),
        Case(12, quote(0, 1, 2), Some((3, 1))),
        Case(12, quote(0, 2, 2), Some((3, 2))),
        Case(13, quote(0, 9, 3), Some((3, 1))),
        Case(13, quote(1, 0, 3), Some((3, 1))),
        Case(13, quote(1, 2, 3), Some((3, 2))),
        Case(13, quote(3, 0, 3), Some((3, 1))),
    ];
    money(&rt).each_told(&cases);
}

#[test]
fn tells_a_bound_that_is_turned_or_too_high(rt: HostRuntime) {
    let cases = [
        Case(7, bound(0, 0, 2, 1), Some((6, 3))),
        Case(7, bound(0, 0, 0, 121), Some((6, 3))),
        Case(7, bound(0, 0, 121, 121), Some((6, 3))),
        Case(7, bound(0, 0, 255, 0), Some((6, 3))),
        Case(7, bound(0, 0, 0, 0), None),
        Case(7, bound(0, 0, 0, 120), None),
        Case(7, bound(0, 0, 120, 120), None),
    ];
    money(&rt).each_told(&cases);
}

#[test]
fn tells_money_that_weighs_too_much(rt: HostRuntime) {
    let cases = [
        Case(10, quote(0, 0, 1_000_000_000), None),
        Case(10, quote(0, 0, -1_000_000_000), None),
        Case(10, quote(0, 0, 1_000_000_001), Some((7, 8))),
        Case(10, quote(0, 0, -1_000_000_001), Some((7, 8))),
        Case(10, quote(0, 0, i64::MAX), Some((7, 8))),
        Case(10, quote(0, 0, i64::MIN), Some((7, 8))),
        Case(16, limit(1_000_000_000_000), None),
        Case(16, limit(-1_000_000_000_000), None),
        Case(16, limit(1_000_000_000_001), Some((7, 8))),
        Case(16, limit(-1_000_000_000_001), Some((7, 8))),
        Case(16, limit(i64::MAX), Some((7, 8))),
        Case(16, limit(i64::MIN), Some((7, 8))),
    ];
    money(&rt).each_told(&cases);
}

// A record of board Z, and the places from and up to which its bytes must be zero.
#[derive(Clone, Copy)]
struct Spare(usize, u8, u8);

impl<R: Abort + AllocGlobal> Reader<'_, R> {
    fn each_spare_byte_told(&self, spares: &[Spare]) {
        for Spare(at, from, to) in spares {
            for byte in *from..*to {
                let mut rows = board_z();
                assert!(self.rt; *at < 17 && byte < 16);
                rows[*at] = with(rows[*at], usize::from(byte), 128);
                self.refused(&rows, 4, *at, byte);
            }
        }
    }
}

#[test]
fn tells_each_byte_that_must_be_zero(rt: HostRuntime) {
    let in_money = [
        Spare(0, 3, 16),
        Spare(3, 2, 16),
        Spare(5, 3, 16),
        Spare(8, 5, 16),
        Spare(12, 3, 8),
        Spare(16, 1, 8),
    ];
    money(&rt).each_spare_byte_told(&in_money);
    let in_ranked = [
        Spare(0, 3, 16),
        Spare(3, 2, 16),
        Spare(5, 3, 16),
        Spare(8, 5, 16),
        Spare(12, 3, 4),
        Spare(16, 1, 4),
    ];
    ranked(&rt).each_spare_byte_told(&in_ranked);
}

#[test]
fn tells_one_of_two_faults_in_a_record(rt: HostRuntime) {
    let cases = [
        // the letter (2) before a byte that must be zero (4)
        Case(4, with(class(2, 0), 3, 1), Some((2, 0))),
        Case(6, with(weekend(2), 2, 1), Some((2, 0))),
        Case(9, with(book(3, 0), 3, 1), Some((2, 0))),
        Case(15, with(bound(1, 1, 1, 1), 5, 1), Some((2, 0))),
        Case(3, with(quote(0, 0, 1), 3, 1), Some((2, 0))),
        Case(3, with(limit(1), 1, 1), Some((2, 0))),
        // that (4) before a number (3)
        Case(1, with(class(9, 9), 15, 1), Some((4, 15))),
        Case(3, with(weekend(9), 15, 1), Some((4, 15))),
        Case(5, with(book(9, 9), 15, 1), Some((4, 15))),
        Case(8, with(bound(9, 9, 1, 2), 15, 1), Some((4, 15))),
        Case(12, with(quote(9, 9, 1), 7, 1), Some((4, 7))),
        // and before a bound (6) and a weight (7)
        Case(8, with(bound(1, 0, 2, 1), 15, 1), Some((4, 15))),
        Case(12, with(quote(1, 0, i64::MAX), 3, 1), Some((4, 3))),
        Case(16, with(limit(i64::MAX), 1, 1), Some((4, 1))),
        // a number (3) before a bound (6) and a weight (7), which no record has both
        Case(8, bound(1, 2, 2, 1), Some((3, 2))),
        Case(12, quote(1, 2, i64::MAX), Some((3, 2))),
        // the lower byte first
        Case(1, with(with(class(1, 0), 9, 1), 4, 1), Some((4, 4))),
        Case(1, class(2, 9), Some((3, 1))),
        Case(5, book(2, 9), Some((3, 1))),
        Case(8, bound(9, 9, 1, 2), Some((3, 1))),
        Case(12, quote(9, 9, 1), Some((3, 1))),
    ];
    money(&rt).each_told(&cases);
}
