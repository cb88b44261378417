use amounts::{Amount, Money};
use std::cmp::Ordering;

const LEAST: Money = Money { value: i64::MIN };

const MOST: Money = Money { value: i64::MAX };

const ONE: Money = Money { value: 1 };

#[test]
fn sums_wrap(rt: HostRuntime) {
    assert_eq!(rt; MOST.sum(ONE).value, i64::MIN);
    assert_eq!(rt; LEAST.sum(ONE.opposite()).value, i64::MAX);
    assert_eq!(rt; LEAST.sum(LEAST).value, 0);
    assert_eq!(rt; ONE.sum(Money::zero()).value, 1);
}

#[test]
fn the_least_is_its_own_opposite(rt: HostRuntime) {
    assert_eq!(rt; LEAST.opposite().value, i64::MIN);
    assert_eq!(rt; MOST.opposite().value, -i64::MAX);
    assert_eq!(rt; Money::zero().opposite().value, 0);
}

#[test]
fn weights_are_absolute(rt: HostRuntime) {
    assert_eq!(rt; LEAST.weight(), 9_223_372_036_854_775_808);
    assert_eq!(rt; MOST.weight(), 9_223_372_036_854_775_807);
    assert_eq!(rt; ONE.opposite().weight(), 1);
    assert_eq!(rt; Money::zero().weight(), 0);
}

#[test]
fn compared_by_count(rt: HostRuntime) {
    assert!(rt; LEAST.compare(MOST) == Ordering::Less);
    assert!(rt; MOST.compare(LEAST) == Ordering::Greater);
    assert!(rt; ONE.opposite().compare(Money::zero()) == Ordering::Less);
    assert!(rt; LEAST.compare(LEAST) == Ordering::Equal);
}
