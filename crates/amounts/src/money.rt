// Money, counted in the smallest coin.
ghost use Rattle.std.specs.Prelude.{◌≡◌};
ghost use Rattle.amounts.specs.Models.{money, money_kind};
ghost use Rattle.amounts.specs.MoneyLaws.{money_lawful};

use super::Amount;
use std::cmp::Ordering;

#[derive(Clone, Copy, PartialEq, Eq, PartialOrd, Ord, Debug)]
pub struct Money {
    // How many of the smallest coin; below zero where it is owed.
    pub value: i64,
}

impl From<i64> for Money {
    ghost from_gives = { λ value m. m ≡ money value };

    fn from(value: i64) -> Money {
        Money { value }
    }
}

// Sums and opposites wrap around at 64 bits.
impl Amount for Money {
    ghost kind = { money_kind };

    ghost lawful = { money_lawful };

    fn zero() -> Money {
        Money { value: 0 }
    }

    fn sum(self, other: Money) -> Money {
        Money {
            value: self.value.wrapping_add(other.value),
        }
    }

    fn opposite(self) -> Money {
        Money {
            value: self.value.wrapping_neg(),
        }
    }

    fn compare(self, other: Money) -> Ordering {
        self.cmp(&other)
    }

    fn weight(self) -> u64 {
        self.value.unsigned_abs()
    }
}
