use crate::zed::*;
use amounts::{Amount, Money, Ranked};
use board::{Board, Call};
use sources::{QuoteTable, Span, SpanTariff, StrikeLayer};

#[test]
fn a_pin_strikes_the_others_and_reopening_lifts_one(rt: HostRuntime) {
    let quotes = [1, 2, 3, 4].map(Money::from);
    let words = [0b1011];
    let mut board = Board::open(QuoteTable::new(1, 4, &quotes, &words));
    assert_eq!(rt; told(board.pin(0, 1)), Ok(()));
    assert_eq!(rt; told(board.strike(0, 0)), Err(9));
    assert_eq!(rt; told(board.strike(0, 3)), Err(9));
    assert_eq!(rt; told(board.reopen(0, 2)), Err(10));
    assert_eq!(rt; told(board.reopen(0, 3)), Ok(()));
    assert_eq!(rt; told(board.strike(0, 0)), Err(9));
    assert_eq!(rt; told(board.strike(0, 3)), Ok(()));
    assert_eq!(rt; told(board.strike(0, 1)), Ok(()));
}

#[test]
fn a_new_roster_sets_the_bounds_back(rt: HostRuntime) {
    let mut board = board_z(&rt, 8);
    assert_eq!(rt; told(board.bounds(0, 0, 3, 3)), Ok(()));
    assert_eq!(rt; told(board.head_check(&[-1, 0, 0, -1])), Ok(true));
    assert_eq!(rt; told(board.roster(&[0, 0], &[0, 0, 1])), Ok(()));
    assert_eq!(rt; told(board.head_check(&[-1, 0, 0, -1])), Ok(false));
    assert_eq!(rt; told(board.bounds(0, 0, 3, 3)), Ok(()));
    assert_eq!(rt; told(board.roster(&[1], &[0, 0, 0])), Err(3));
    assert_eq!(rt; told(board.bounds(1, 1, 1, 1)), Ok(()));
    assert_eq!(rt; told(board.head_check(&[-1, 0, 0, -1])), Ok(true));
}

#[test]
fn a_list_of_calls_is_played(rt: HostRuntime) {
    let mut board = opened();
    let sheet = [Money::from(0)];
    let calls = [
        Call::Roster {
            parents: &[0, 0],
            classes: &[0, 0, 1],
        },
        Call::Bounds {
            weekend: 0,
            class: 0,
            lower: 3,
            upper: 3,
        },
        Call::Bounds {
            weekend: 1,
            class: 1,
            lower: 1,
            upper: 1,
        },
        Call::Strike {
            book: 7,
            weekend: 0,
        },
        Call::TollCheck { sheet: &sheet },
        Call::Strike {
            book: 0,
            weekend: 0,
        },
        Call::Reopen {
            book: 0,
            weekend: 0,
        },
        Call::Limit {
            amount: Money::from(9),
        },
        Call::HeadCheck { sheet: &[0] },
        Call::Pin {
            book: 2,
            weekend: 1,
        },
    ];
    board.play(&calls);
    assert_eq!(rt; told(board.head_check(&[-1, 0, 0, -1])), Ok(true));
    assert_eq!(rt; told(board.strike(0, 0)), Ok(()));
    assert_eq!(rt; told(board.strike(2, 0)), Err(9));
}

#[test]
fn a_board_over_a_pile_of_ranked_quotes(rt: HostRuntime) {
    let spans = [Span {
        first: 0,
        last: 1,
        base: Ranked {
            first: Money::from(1),
            second: Money::from(9),
        },
        step: Ranked {
            first: Money::from(0),
            second: Money::from(-3),
        },
    }];
    let tariff: SpanTariff<Ranked<Money, Money>> = SpanTariff::new(1, 2, &spans);
    let mut board = Board::open(StrikeLayer::over(tariff));
    assert_eq!(rt;
        told(board.limit(Ranked {
            first: Money::from(1),
            second: Money::from(5),
        })),
        Ok(())
    );
    let zero: Ranked<Money, Money> = Ranked::zero();
    assert_eq!(rt; told(board.toll_check(&[zero, zero])), Ok(true));
    assert_eq!(rt;
        told(board.limit(Ranked {
            first: Money::from(1),
            second: Money::from(6),
        })),
        Ok(())
    );
    assert_eq!(rt; told(board.toll_check(&[zero, zero])), Ok(false));
    assert_eq!(rt; told(board.strike(0, 1)), Ok(()));
    assert_eq!(rt; told(board.toll_check(&[zero, zero])), Ok(true));
}
