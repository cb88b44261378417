use crate::zed::*;
use amounts::Money;

#[test]
fn a_toll_sheet_with_floor_eight(rt: HostRuntime) {
    let mut board = board_z(&rt, 7);
    let sheet = [0, 0, 0, -4].map(Money::from);
    assert_eq!(rt; told(board.toll_check(&sheet)), Ok(true));
    assert_eq!(rt; told(board.limit(Money::from(8))), Ok(()));
    assert_eq!(rt; told(board.toll_check(&sheet)), Ok(false));
}

#[test]
fn later_places_are_not_read(rt: HostRuntime) {
    let mut board = board_z(&rt, 7);
    let sheet = [0, 0, 0, -4, i64::MIN].map(Money::from);
    assert_eq!(rt; told(board.toll_check(&sheet)), Ok(true));
    let heads = [0, 0, 0, 0, 100];
    assert_eq!(rt; told(board.head_check(&heads)), Ok(false));
}

#[test]
fn sheets_that_are_refused(rt: HostRuntime) {
    let mut board = board_z(&rt, 7);
    assert_eq!(rt;
        told(board.toll_check(&[i64::MIN, 0, 0].map(Money::from))),
        Err(8)
    );
    assert_eq!(rt;
        told(board.toll_check(&[0, 0, 0, 1_000_000_000_001].map(Money::from))),
        Err(7)
    );
    assert_eq!(rt;
        told(board.toll_check(&[0, 0, 0, -1_000_000_000_000].map(Money::from))),
        Ok(true)
    );
    assert_eq!(rt; told(board.head_check(&[2, 0, 0])), Err(8));
    assert_eq!(rt; told(board.head_check(&[0, 0, 0, 2])), Err(3));
    assert_eq!(rt; told(board.head_check(&[0, -2, 0, 0])), Err(3));
    assert_eq!(rt; told(board.head_check(&[1, -1, 1, -1])), Ok(false));
}

#[test]
fn a_head_sheet_shows_that_there_is_no_plan(rt: HostRuntime) {
    let mut board = board_z(&rt, 8);
    assert_eq!(rt; told(board.head_check(&[-1, 0, 0, -1])), Ok(false));
    assert_eq!(rt; told(board.bounds(0, 0, 3, 3)), Ok(()));
    assert_eq!(rt; told(board.head_check(&[-1, 0, 0, -1])), Ok(true));
}

#[test]
fn a_book_without_a_weekend_is_reason_enough(rt: HostRuntime) {
    let mut board = board_z(&rt, 8);
    assert_eq!(rt; told(board.head_check(&[0, 0, 0, 0])), Ok(false));
    assert_eq!(rt; told(board.strike(2, 0)), Ok(()));
    assert_eq!(rt; told(board.strike(2, 1)), Ok(()));
    assert_eq!(rt; told(board.head_check(&[0, 0, 0, 0])), Ok(true));
    assert_eq!(rt;
        told(board.toll_check(&[0, 0, 0, 0].map(Money::from))),
        Ok(true)
    );
}
