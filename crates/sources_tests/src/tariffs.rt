use crate::asking::asked;
use amounts::{Money, Ranked};
use sources::{Source, Span, SpanTariff};
use std::test::Fail;

fn span(first: usize, last: usize, base: i64, step: i64) -> Span<Money> {
    Span {
        first,
        last,
        base: Money::from(base),
        step: Money::from(step),
    }
}

#[test]
fn each_weekend_of_wait_costs_a_step(rt: HostRuntime) {
    let spans = [span(1, 3, 100, 10), span(2, 2, 50, -5)];
    let tariff = SpanTariff::new(2, 4, &spans);
    assert_eq!(rt; tariff.books(), 2);
    assert_eq!(rt; tariff.weekends(), 4);
    assert_eq!(rt; asked(&tariff, 0, 0), None);
    assert_eq!(rt; asked(&tariff, 0, 1), Some(100));
    assert_eq!(rt; asked(&tariff, 0, 2), Some(110));
    assert_eq!(rt; asked(&tariff, 0, 3), Some(120));
    assert_eq!(rt; asked(&tariff, 1, 1), None);
    assert_eq!(rt; asked(&tariff, 1, 2), Some(50));
    assert_eq!(rt; asked(&tariff, 1, 3), None);
    assert_eq!(rt; asked(&tariff, 0, 4), None);
    assert_eq!(rt; asked(&tariff, 2, 2), None);
}

#[test]
fn a_faulty_span_shuts_its_book(rt: HostRuntime) {
    let spans = [span(2, 1, 1, 1), span(0, 3, 1, 1), span(0, 2, 1, 1)];
    let tariff = SpanTariff::new(4, 3, &spans);
    assert_eq!(rt; asked(&tariff, 0, 1), None);
    assert_eq!(rt; asked(&tariff, 0, 2), None);
    assert_eq!(rt; asked(&tariff, 1, 0), None);
    assert_eq!(rt; asked(&tariff, 1, 2), None);
    assert_eq!(rt; asked(&tariff, 2, 2), Some(3));
    assert_eq!(rt; asked(&tariff, 3, 0), None);
}

#[test]
fn a_heavy_base_or_step_shuts_its_book(rt: HostRuntime) {
    let spans = [
        span(0, 15, 500_000_000, 4_000_000),
        span(0, 15, 500_000_001, 0),
        span(0, 15, 0, 4_000_001),
        span(0, 15, -500_000_000, -4_000_000),
    ];
    let tariff = SpanTariff::new(4, 16, &spans);
    assert_eq!(rt; asked(&tariff, 0, 15), Some(560_000_000));
    assert_eq!(rt; asked(&tariff, 1, 0), None);
    assert_eq!(rt; asked(&tariff, 2, 0), None);
    assert_eq!(rt; asked(&tariff, 3, 15), Some(-560_000_000));
}

#[test]
fn ranked_tariffs_step_part_by_part(rt: HostRuntime) -> Result<(), Fail> {
    let spans = [Span {
        first: 0,
        last: 2,
        base: Ranked {
            first: Money::from(1),
            second: Money::from(9),
        },
        step: Ranked {
            first: Money::from(2),
            second: Money::from(-3),
        },
    }];
    let tariff: SpanTariff<Ranked<Money, Money>> = SpanTariff::new(1, 3, &spans);
    let amount = tariff.quote(0, 2).ok_or("the pair should be open")?;
    assert_eq!(rt; amount.first.value, 5);
    assert_eq!(rt; amount.second.value, 3);
    Ok(())
}

#[test]
fn counts_are_taken_as_the_nearer_end(rt: HostRuntime) {
    let spans = [span(0, 0, 4, 0)];
    let least = SpanTariff::new(0, 0, &spans);
    assert_eq!(rt; least.books(), 1);
    assert_eq!(rt; least.weekends(), 1);
    assert_eq!(rt; asked(&least, 0, 0), Some(4));
    let most = SpanTariff::new(121, 17, &spans);
    assert_eq!(rt; most.books(), 120);
    assert_eq!(rt; most.weekends(), 16);
}
