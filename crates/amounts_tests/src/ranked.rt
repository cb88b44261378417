use amounts::{Amount, Money, Ranked};
use std::cmp::Ordering;

type Pair = Ranked<Money, Money>;

type Nested = Ranked<Pair, Money>;

fn pair(first: i64, second: i64) -> Pair {
    Ranked {
        first: Money::from(first),
        second: Money::from(second),
    }
}

fn nested(first: i64, second: i64, third: i64) -> Nested {
    Ranked {
        first: pair(first, second),
        second: Money::from(third),
    }
}

#[test]
fn the_first_part_comes_first(rt: HostRuntime) {
    assert!(rt; pair(1, 9).compare(pair(2, -30)) == Ordering::Less);
    assert!(rt; pair(2, -30).compare(pair(1, 9)) == Ordering::Greater);
    assert!(rt; pair(2, -30).compare(pair(2, 9)) == Ordering::Less);
    assert!(rt; pair(2, 9).compare(pair(2, -30)) == Ordering::Greater);
    assert!(rt; pair(2, 9).compare(pair(2, 9)) == Ordering::Equal);
}

#[test]
fn the_heavier_part_weighs(rt: HostRuntime) {
    assert_eq!(rt; pair(2, -30).weight(), 30);
    assert_eq!(rt; pair(-31, 30).weight(), 31);
    assert_eq!(rt; Pair::zero().weight(), 0);
}

#[test]
fn summed_part_by_part(rt: HostRuntime) {
    let sum = pair(1, 9).sum(pair(2, -30));
    assert_eq!(rt; sum.first.value, 3);
    assert_eq!(rt; sum.second.value, -21);
    let none = sum.sum(sum.opposite());
    assert_eq!(rt; none.first.value, 0);
    assert_eq!(rt; none.second.value, 0);
}

#[test]
fn ranked_of_ranked(rt: HostRuntime) {
    assert!(rt; nested(1, 5, 9).compare(nested(1, 5, 8)) == Ordering::Greater);
    assert!(rt; nested(1, 5, 9).compare(nested(1, 6, 0)) == Ordering::Less);
    assert!(rt; nested(1, 5, 9).compare(nested(0, 60, 90)) == Ordering::Greater);
    assert_eq!(rt; nested(1, -50, 9).weight(), 50);
    let sum = nested(1, 5, 9).sum(nested(10, 20, 30).opposite());
    assert_eq!(rt; sum.first.first.value, -9);
    assert_eq!(rt; sum.first.second.value, -15);
    assert_eq!(rt; sum.second.value, -21);
}
