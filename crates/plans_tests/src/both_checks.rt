use crate::six_quotes::SixQuotes;
use amounts::Money;
use plans::{Bounds, Roster, Setting, count_of, total_of};
use std::array;
use std::test::Fail;

const BOARD_Z: SixQuotes = SixQuotes {
    coins: [4, 1, 2, 3, 1, 5],
};

fn roster() -> Result<Roster, Fail> {
    Roster::from_lists(&[0, 0], &[0, 0, 1], 3).map_err(|_| Fail::new("no roster"))
}

fn bounds() -> Bounds {
    let mut bounds = Bounds::open(3);
    bounds.set(0, 0, 1, 2);
    bounds.set(1, 0, 1, 2);
    bounds.set(1, 1, 1, 1);
    bounds
}

fn over<'a>(
    source: &'a SixQuotes,
    roster: &'a Roster,
    bounds: &'a Bounds,
) -> Setting<'a, SixQuotes> {
    Setting {
        source,
        roster,
        bounds,
    }
}

// The places of the entries for weekend 1, of class 0 and of class 1.
const ROOT: usize = 2;

const LEAF: usize = 3;

// The sheet with one entry.
fn only(at: usize, value: i64) -> [Money; 4] {
    array::from_fn(|place| Money::from(if place == at { value } else { 0 }))
}

#[test]
fn an_assignment_adds_up(rt: HostRuntime) -> Result<(), Fail> {
    let roster = roster()?;
    assert_eq!(rt; total_of(&BOARD_Z, &[1, 0, 1]).value, 8);
    assert_eq!(rt; count_of(&roster, 3, &[1, 0, 1], 1, 0), 2);
    assert_eq!(rt; count_of(&roster, 3, &[1, 0, 1], 1, 1), 1);
    assert_eq!(rt; count_of(&roster, 3, &[1, 0, 1], 0, 1), 0);
    Ok(())
}

#[test]
fn floors_of_toll_sheets(rt: HostRuntime) -> Result<(), Fail> {
    let roster = roster()?;
    let bounds = bounds();
    let board_z = over(&BOARD_Z, &roster, &bounds);
    assert_eq!(rt; board_z.floor(&only(LEAF, -4)).value, 8);
    assert_eq!(rt; board_z.floor(&only(ROOT, 1)).value, 3);
    assert_eq!(rt; board_z.floor(&only(ROOT, -1)).value, 4);
    assert_eq!(rt; board_z.floor(&[]).value, 4);
    Ok(())
}

#[test]
fn a_toll_sheet_shows_that_seven_is_too_low(rt: HostRuntime) -> Result<(), Fail> {
    let roster = roster()?;
    let bounds = bounds();
    let board_z = over(&BOARD_Z, &roster, &bounds);
    let sheet = only(LEAF, -4);
    assert!(rt; board_z.toll_accepts(Money::from(7), &sheet));
    assert!(rt; !board_z.toll_accepts(Money::from(8), &sheet));
    Ok(())
}

#[test]
fn a_head_sheet_shows_that_there_is_no_plan(rt: HostRuntime) -> Result<(), Fail> {
    let roster = roster()?;
    let mut bounds = bounds();
    let sheet = [-1, 0, 0, -1];
    assert!(rt; !over(&BOARD_Z, &roster, &bounds).head_accepts(&sheet));
    bounds.set(0, 0, 3, 3);
    let full = over(&BOARD_Z, &roster, &bounds);
    assert!(rt; full.head_accepts(&sheet));
    assert!(rt; !full.head_accepts(&[0, 0, 0, 0]));
    Ok(())
}

#[test]
fn a_book_with_no_open_weekend(rt: HostRuntime) -> Result<(), Fail> {
    let roster = roster()?;
    let bounds = bounds();
    let source = SixQuotes {
        coins: [4, 1, 2, 3, 0, 0],
    };
    let setting = over(&source, &roster, &bounds);
    assert!(rt; setting.head_accepts(&[0, 0, 0, 0]));
    assert!(rt; setting.toll_accepts(Money::from(1000), &[]));
    Ok(())
}
