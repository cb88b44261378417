// Strain, in ranked files and in money files.
use crate::files::{board_z, limit, strained_limit, strained_quote, with};
use crate::told::{Case, money, ranked};
use planfile::{FileKind, read};
use std::test::Fail;

#[test]
fn reads_strain_in_a_ranked_file(rt: HostRuntime) -> Result<(), Fail> {
    ranked(&rt).accepted(&board_z())?;
    let mut rows = board_z();
    rows[10] = strained_quote(0, 0, 7, 4);
    rows[11] = strained_quote(0, 1, -7, -1);
    rows[16] = strained_limit(i32::MIN, 11);
    ranked(&rt).accepted(&rows)?;
    let plan = read(FileKind::Ranked, rows.as_flattened()).map_err(|_| Fail::new("refused"))?;
    let first = plan.quote(0).ok_or("no quote")?;
    assert_eq!(rt; (first.price.strain, first.price.money), (7, 4));
    let second = plan.quote(1).ok_or("no quote")?;
    assert_eq!(rt; (second.price.strain, second.price.money), (-7, -1));
    assert_eq!(rt; (plan.limit().strain, plan.limit().money), (i32::MIN, 11));
    money(&rt).refused(&rows, 4, 10, 4);
    Ok(())
}

#[test]
fn tells_strain_that_weighs_too_much(rt: HostRuntime) {
    let cases = [
        Case(10, strained_quote(0, 0, 1_000_000_000, 1_000_000_000), None),
        Case(
            10,
            strained_quote(0, 0, -1_000_000_000, -1_000_000_000),
            None,
        ),
        Case(10, strained_quote(0, 0, 1_000_000_001, 0), Some((7, 4))),
        Case(10, strained_quote(0, 0, -1_000_000_001, 0), Some((7, 4))),
        Case(10, strained_quote(0, 0, i32::MAX, 0), Some((7, 4))),
        Case(10, strained_quote(0, 0, i32::MIN, 0), Some((7, 4))),
        // strain first, and then money
        Case(
            10,
            strained_quote(0, 0, 1_000_000_001, 1_000_000_001),
            Some((7, 4)),
        ),
        Case(
            10,
            strained_quote(0, 0, 1_000_000_000, 1_000_000_001),
            Some((7, 8)),
        ),
        Case(
            10,
            strained_quote(0, 0, -1_000_000_000, -1_000_000_001),
            Some((7, 8)),
        ),
        // a byte that must be zero and a number come before a weight
        Case(
            10,
            with(strained_quote(0, 0, i32::MAX, 0), 3, 1),
            Some((4, 3)),
        ),
        Case(10, strained_quote(0, 2, i32::MAX, 0), Some((3, 2))),
        // any strain will do in a limit
        Case(16, strained_limit(i32::MIN, 1_000_000_000_000), None),
        Case(16, strained_limit(i32::MAX, -1_000_000_000_000), None),
        Case(
            16,
            strained_limit(i32::MIN, 1_000_000_000_001),
            Some((7, 8)),
        ),
        Case(16, strained_limit(1, -1_000_000_000_001), Some((7, 8))),
        Case(16, limit(i64::MIN), Some((7, 8))),
    ];
    ranked(&rt).each_told(&cases);
}

#[test]
fn tells_the_first_byte_of_strain_in_a_money_file(rt: HostRuntime) {
    let cases = [
        Case(10, strained_quote(0, 0, 1, 4), Some((4, 4))),
        Case(10, strained_quote(0, 0, -1, 4), Some((4, 4))),
        Case(10, strained_quote(0, 0, 0x100, 4), Some((4, 5))),
        Case(10, strained_quote(0, 0, 0x10000, 4), Some((4, 6))),
        Case(10, strained_quote(0, 0, 0x1000000, 4), Some((4, 7))),
        Case(10, strained_quote(0, 0, i32::MIN, i64::MAX), Some((4, 7))),
        Case(16, strained_limit(1, 11), Some((4, 4))),
        Case(16, strained_limit(0x100, 11), Some((4, 5))),
        Case(16, strained_limit(0x10000, 11), Some((4, 6))),
        Case(16, strained_limit(i32::MIN, i64::MAX), Some((4, 7))),
    ];
    money(&rt).each_told(&cases);
}
