use amounts::{Amount, Money, Ranked, larger, smaller, times, total};

#[test]
fn copies_add_up(rt: HostRuntime) {
    assert_eq!(rt; times(0, Money::from(7)).value, 0);
    assert_eq!(rt; times(1, Money::from(7)).value, 7);
    assert_eq!(rt;
        times(120, Money::from(1_000_000_000_000)).value,
        120_000_000_000_000
    );
    assert_eq!(rt; times(200, Money::from(-3)).value, -600);
    assert_eq!(rt; times(2, Money::from(i64::MIN)).value, 0);
}

#[test]
fn copies_of_ranked(rt: HostRuntime) {
    let many = times(
        300,
        Ranked {
            first: Money::from(1),
            second: Money::from(-2),
        },
    );
    assert_eq!(rt; many.first.value, 300);
    assert_eq!(rt; many.second.value, -600);
}

#[test]
fn totals_add_up(rt: HostRuntime) {
    let none: [Money; 0] = [];
    assert_eq!(rt; total(&none).value, 0);
    assert_eq!(rt; total(&[Money::from(5)]).value, 5);
    assert_eq!(rt;
        total(&[
            Money::from(5),
            Money::from(-7),
            Money::from(9),
            Money::from(0)
        ])
        .value,
        7
    );
    assert_eq!(rt;
        total(&[Money::from(i64::MAX), Money::from(1), Money::from(-1)]).value,
        i64::MAX
    );
}

#[test]
fn the_smaller_and_the_larger(rt: HostRuntime) {
    assert_eq!(rt; smaller(Money::from(-2), Money::from(3)).value, -2);
    assert_eq!(rt; smaller(Money::from(3), Money::from(-2)).value, -2);
    assert_eq!(rt; larger(Money::from(-2), Money::from(3)).value, 3);
    assert_eq!(rt; larger(Money::from(3), Money::from(-2)).value, 3);
}
