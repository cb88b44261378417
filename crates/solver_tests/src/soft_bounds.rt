use amounts::{Money, Ranked};
use solver::{fall, rise};

// Between 2 and 4 members are wanted.
fn rise_at(members: usize) -> i64 {
    let cost: Ranked<Money, Money> = rise(2, 4, members);
    cost.first.value
}

fn fall_at(members: usize) -> i64 {
    let cost: Ranked<Money, Money> = fall(2, 4, members);
    cost.first.value
}

#[test]
fn one_more_mends_or_breaks(rt: HostRuntime) {
    assert_eq!(rt; rise_at(0), -1);
    assert_eq!(rt; rise_at(1), -1);
    assert_eq!(rt; rise_at(2), 0);
    assert_eq!(rt; rise_at(3), 0);
    assert_eq!(rt; rise_at(4), 1);
    assert_eq!(rt; rise_at(5), 1);
}

#[test]
fn one_fewer_mends_or_breaks(rt: HostRuntime) {
    assert_eq!(rt; fall_at(1), 1);
    assert_eq!(rt; fall_at(2), 1);
    assert_eq!(rt; fall_at(3), 0);
    assert_eq!(rt; fall_at(4), 0);
    assert_eq!(rt; fall_at(5), -1);
}
