// Board Z: three books and two weekends. Class 1 is under class 0; books 0 and 1 are in class 0, and book 2 is in class 1.
use amounts::Money;
use board::{Board, Refusal};
use sources::QuoteTable;
use std::process::Abort;

pub const QUOTES: [Money; 6] = [
    Money { value: 4 },
    Money { value: 1 },
    Money { value: 2 },
    Money { value: 3 },
    Money { value: 1 },
    Money { value: 5 },
];

pub const WORDS: [u16; 3] = [3, 3, 3];

// The answer of a call, with a refusal as its number.
pub fn told<T>(answer: Result<T, Refusal>) -> Result<T, u8> {
    answer.map_err(|refusal| refusal.number())
}

// A board opened over Z's quotes.
pub fn opened() -> Board<QuoteTable<'static, Money>> {
    Board::open(QuoteTable::new(3, 2, &QUOTES, &WORDS))
}

// Board Z, with its roster, its bounds and a limit.
pub fn board_z(rt: &impl Abort, limit: i64) -> Board<QuoteTable<'static, Money>> {
    let mut board = opened();
    assert_eq!(rt; told(board.roster(&[0, 0], &[0, 0, 1])), Ok(()));
    assert_eq!(rt; told(board.bounds(0, 0, 1, 2)), Ok(()));
    assert_eq!(rt; told(board.bounds(1, 0, 1, 2)), Ok(()));
    assert_eq!(rt; told(board.bounds(1, 1, 1, 1)), Ok(()));
    assert_eq!(rt; told(board.bounds(0, 1, 0, 3)), Ok(()));
    assert_eq!(rt; told(board.limit(Money::from(limit))), Ok(()));
    board
}
