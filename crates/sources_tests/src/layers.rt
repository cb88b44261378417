use amounts::{Money, Ranked};
use sources::{QuoteTable, Source, Span, SpanTariff, StrikeLayer};
use std::test::Fail;

#[test]
fn a_strike_shuts_one_pair_and_can_be_lifted(rt: HostRuntime) {
    let quotes = [
        Money::from(1),
        Money::from(2),
        Money::from(3),
        Money::from(4),
    ];
    let words = [0b11, 0b11];
    let mut layer = StrikeLayer::over(QuoteTable::new(2, 2, &quotes, &words));
    assert_eq!(rt; layer.books(), 2);
    assert_eq!(rt; layer.weekends(), 2);
    layer.strike(1, 0);
    assert!(rt; layer.is_struck(1, 0));
    assert!(rt; !layer.is_struck(0, 1));
    assert!(rt; layer.quote(1, 0).is_none());
    assert!(rt; layer.quote(0, 0).is_some());
    assert!(rt; layer.quote(1, 1).is_some());
    layer.lift(1, 0);
    assert!(rt; !layer.is_struck(1, 0));
    assert!(rt; layer.quote(1, 0).is_some());
}

#[test]
fn a_strike_without_a_place_changes_nothing(rt: HostRuntime) {
    let quotes = [Money::from(1)];
    let words = [0b1];
    let mut layer = StrikeLayer::over(QuoteTable::new(1, 1, &quotes, &words));
    layer.strike(120, 0);
    layer.strike(0, 16);
    layer.strike(usize::MAX, usize::MAX);
    assert!(rt; !layer.is_struck(120, 0));
    assert!(rt; !layer.is_struck(0, 16));
    assert!(rt; layer.quote(0, 0).is_some());
    layer.strike(119, 15);
    assert!(rt; layer.is_struck(119, 15));
}

#[test]
fn a_pile_of_layers_is_a_source(rt: HostRuntime) {
    let spans = [Span {
        first: 0,
        last: 2,
        base: Money::from(5),
        step: Money::from(1),
    }];
    let mut low = StrikeLayer::over(SpanTariff::new(1, 3, &spans));
    low.strike(0, 1);
    let mut high: StrikeLayer<StrikeLayer<SpanTariff<Money>>> = StrikeLayer::over(low);
    high.strike(0, 2);
    assert!(rt; high.quote(0, 0).is_some());
    assert!(rt; high.quote(0, 1).is_none());
    assert!(rt; high.quote(0, 2).is_none());
    assert!(rt; !high.is_struck(0, 1));
    high.lift(0, 1);
    assert!(rt; high.quote(0, 1).is_none());
}

#[test]
fn a_pile_of_ranked_quotes(rt: HostRuntime) -> Result<(), Fail> {
    let quotes = [Ranked {
        first: Money::from(1),
        second: Money::from(-2),
    }];
    let words = [0b1];
    let table: QuoteTable<Ranked<Money, Money>> = QuoteTable::new(1, 1, &quotes, &words);
    let pile = StrikeLayer::over(StrikeLayer::over(table));
    let amount = pile.quote(0, 0).ok_or("the pair should be open")?;
    assert_eq!(rt; amount.first.value, 1);
    assert_eq!(rt; amount.second.value, -2);
    Ok(())
}
