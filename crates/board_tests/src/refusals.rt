use crate::zed::*;
use amounts::Money;
use board::Board;
use sources::QuoteTable;

#[test]
fn a_pair_is_struck_once(rt: HostRuntime) {
    let mut board = opened();
    assert_eq!(rt; told(board.strike(2, 0)), Ok(()));
    assert_eq!(rt; told(board.strike(2, 0)), Err(9));
    assert_eq!(rt; told(board.pin(2, 0)), Err(9));
    assert_eq!(rt; told(board.reopen(2, 1)), Err(10));
    assert_eq!(rt; told(board.reopen(2, 0)), Ok(()));
    assert_eq!(rt; told(board.reopen(2, 0)), Err(10));
    assert_eq!(rt; told(board.strike(2, 0)), Ok(()));
}

#[test]
fn a_pair_that_the_source_has_shut(rt: HostRuntime) {
    let words = [1, 3, 0];
    let mut board = Board::open(QuoteTable::new(3, 2, &QUOTES, &words));
    assert_eq!(rt; told(board.strike(0, 1)), Err(9));
    assert_eq!(rt; told(board.pin(0, 1)), Err(9));
    assert_eq!(rt; told(board.reopen(0, 1)), Err(10));
    assert_eq!(rt; told(board.strike(2, 0)), Err(9));
}

#[test]
fn what_the_board_lacks(rt: HostRuntime) {
    let mut board = opened();
    assert_eq!(rt; told(board.strike(3, 0)), Err(5));
    assert_eq!(rt; told(board.strike(0, 2)), Err(5));
    assert_eq!(rt; told(board.reopen(3, 0)), Err(5));
    assert_eq!(rt; told(board.pin(0, usize::MAX)), Err(5));
    assert_eq!(rt; told(board.bounds(2, 0, 0, 0)), Err(5));
    assert_eq!(rt; told(board.bounds(0, 1, 0, 0)), Err(5));
    assert_eq!(rt; told(board.bounds(0, 1, 5, 4)), Err(5));
}

#[test]
fn bounds_that_cross(rt: HostRuntime) {
    let mut board = opened();
    assert_eq!(rt; told(board.bounds(0, 0, 0, 120)), Ok(()));
    assert_eq!(rt; told(board.bounds(0, 0, 0, 121)), Err(6));
    assert_eq!(rt; told(board.bounds(0, 0, 3, 2)), Err(6));
    assert_eq!(rt; told(board.bounds(0, 0, 120, 120)), Ok(()));
}

#[test]
fn lists_that_make_no_roster(rt: HostRuntime) {
    let mut board = opened();
    assert_eq!(rt; told(board.roster(&[0, 0], &[0, 0])), Err(8));
    assert_eq!(rt; told(board.roster(&[1], &[0, 0])), Err(8));
    assert_eq!(rt; told(board.roster(&[], &[0, 0, 0])), Err(3));
    assert_eq!(rt;
        told(board.roster(&[0, 0, 1, 2, 3, 4, 5, 6, 7], &[0, 0, 0])),
        Err(3)
    );
    assert_eq!(rt; told(board.roster(&[1], &[0, 0, 0])), Err(3));
    assert_eq!(rt; told(board.roster(&[0, 1], &[0, 0, 0])), Err(3));
    assert_eq!(rt; told(board.roster(&[0, 0], &[0, 0, 2])), Err(3));
    assert_eq!(rt;
        told(board.roster(&[0, 0, 1, 2, 3, 4, 5, 6], &[7, 0, 3])),
        Ok(())
    );
    assert_eq!(rt; told(board.roster(&[0, 0], &[0, 0, 1, 99])), Ok(()));
}

#[test]
fn limits_that_weigh_too_much(rt: HostRuntime) {
    let mut board = opened();
    assert_eq!(rt; told(board.limit(Money::from(1_000_000_000_000))), Ok(()));
    assert_eq!(rt; told(board.limit(Money::from(1_000_000_000_001))), Err(7));
    assert_eq!(rt; told(board.limit(Money::from(-1_000_000_000_000))), Ok(()));
    assert_eq!(rt; told(board.limit(Money::from(i64::MIN))), Err(7));
}
