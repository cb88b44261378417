// Three books and two weekends.
ghost use Rattle.plans_tests.specs.Six.{six_quote, six_ranges};

use amounts::Money;
use sources::Source;

// The quote of a book at a weekend, in coins, at place book * 2 + weekend; a pair at 0 is shut.
#[derive(Clone, Copy)]
pub struct SixQuotes {
    pub coins: [u8; 6],
}

impl Source for SixQuotes {
    type Quote = Money;

    ghost count = { λ s. 3 };

    ghost weeks = { λ s. 2 };

    ghost table = { λ s. six_quote s.coins };

    ghost ranges = { six_ranges (λ s. s.coins) };

    fn books(&self) -> usize {
        3
    }

    fn weekends(&self) -> usize {
        2
    }

    fn quote(&self, book: usize, weekend: usize) -> Option<Money> {
        if book >= 3 || weekend >= 2 {
            return None;
        }
        let coins = self.coins[book * 2 + weekend];
        (coins > 0).then(|| Money::from(i64::from(coins)))
    }
}
