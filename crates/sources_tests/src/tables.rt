use crate::asking::asked;
use amounts::Money;
use sources::{QuoteTable, Source};

#[test]
fn a_pair_has_its_place_and_bit(rt: HostRuntime) {
    let quotes = [
        Money::from(10),
        Money::from(11),
        Money::from(12),
        Money::from(20),
        Money::from(21),
        Money::from(22),
    ];
    let words = [0b101, 0b010];
    let table = QuoteTable::new(2, 3, &quotes, &words);
    assert_eq!(rt; table.books(), 2);
    assert_eq!(rt; table.weekends(), 3);
    assert_eq!(rt; asked(&table, 0, 0), Some(10));
    assert_eq!(rt; asked(&table, 0, 1), None);
    assert_eq!(rt; asked(&table, 0, 2), Some(12));
    assert_eq!(rt; asked(&table, 1, 0), None);
    assert_eq!(rt; asked(&table, 1, 1), Some(21));
    assert_eq!(rt; asked(&table, 1, 2), None);
}

#[test]
fn outside_the_numbers_is_shut(rt: HostRuntime) {
    let quotes = [
        Money::from(1),
        Money::from(2),
        Money::from(3),
        Money::from(4),
    ];
    let words = [0xffff, 0xffff, 0xffff];
    let table = QuoteTable::new(2, 2, &quotes, &words);
    assert_eq!(rt; asked(&table, 1, 1), Some(4));
    assert_eq!(rt; asked(&table, 2, 0), None);
    assert_eq!(rt; asked(&table, 0, 2), None);
    assert_eq!(rt; asked(&table, usize::MAX, usize::MAX), None);
}

#[test]
fn a_heavy_amount_is_shut(rt: HostRuntime) {
    let quotes = [
        Money::from(1_000_000_000),
        Money::from(1_000_000_001),
        Money::from(-1_000_000_000),
        Money::from(-1_000_000_001),
    ];
    let words = [0b1111];
    let table = QuoteTable::new(1, 4, &quotes, &words);
    assert_eq!(rt; asked(&table, 0, 0), Some(1_000_000_000));
    assert_eq!(rt; asked(&table, 0, 1), None);
    assert_eq!(rt; asked(&table, 0, 2), Some(-1_000_000_000));
    assert_eq!(rt; asked(&table, 0, 3), None);
}

#[test]
fn missing_places_and_words_are_shut(rt: HostRuntime) {
    let quotes = [Money::from(1), Money::from(2), Money::from(3)];
    let words = [0b11, 0b11];
    let table = QuoteTable::new(3, 2, &quotes, &words);
    assert_eq!(rt; asked(&table, 1, 0), Some(3));
    assert_eq!(rt; asked(&table, 1, 1), None);
    assert_eq!(rt; asked(&table, 2, 0), None);
    let empty: [Money; 0] = [];
    let none: [u16; 0] = [];
    assert_eq!(rt; asked(&QuoteTable::new(2, 2, &empty, &words), 0, 0), None);
    assert_eq!(rt; asked(&QuoteTable::new(2, 2, &quotes, &none), 0, 0), None);
}

#[test]
fn counts_are_taken_as_the_nearer_end(rt: HostRuntime) {
    let quotes = [Money::from(7)];
    let words = [0b1];
    let least = QuoteTable::new(0, 0, &quotes, &words);
    assert_eq!(rt; least.books(), 1);
    assert_eq!(rt; least.weekends(), 1);
    assert_eq!(rt; asked(&least, 0, 0), Some(7));
    let most = QuoteTable::new(121, 17, &quotes, &words);
    assert_eq!(rt; most.books(), 120);
    assert_eq!(rt; most.weekends(), 16);
    let ends = QuoteTable::new(120, 16, &quotes, &words);
    assert_eq!(rt; ends.books(), 120);
    assert_eq!(rt; ends.weekends(), 16);
}
