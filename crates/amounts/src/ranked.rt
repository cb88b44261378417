// Two kinds ranked: what the first part says comes before anything that the second says.
ghost use Rattle.amounts.specs.Models.{ranked_kind};
ghost use Rattle.amounts.specs.RankedLaws.{ranked_lawful};

use super::Amount;
use std::cmp::Ordering;

#[derive(Clone, Copy, PartialEq, Eq, Debug)]
pub struct Ranked<P, Q> {
    pub first: P,
    pub second: Q,
}

// Summed part by part, and compared by the first part and then by the second.
impl<P: Amount, Q: Amount> Amount for Ranked<P, Q> {
    ghost kind = { ranked_kind P.Amount.kind Q.Amount.kind };

    ghost lawful = { ranked_lawful P.Amount.lawful Q.Amount.lawful };

    fn zero() -> Ranked<P, Q> {
        Ranked {
            first: P::zero(),
            second: Q::zero(),
        }
    }

    fn sum(self, other: Ranked<P, Q>) -> Ranked<P, Q> {
        Ranked {
            first: self.first.sum(other.first),
            second: self.second.sum(other.second),
        }
    }

    fn opposite(self) -> Ranked<P, Q> {
        Ranked {
            first: self.first.opposite(),
            second: self.second.opposite(),
        }
    }

    fn compare(self, other: Ranked<P, Q>) -> Ordering {
        self.first
            .compare(other.first)
            .then_with(|| self.second.compare(other.second))
    }

    // The weight of the heavier part.
    fn weight(self) -> u64 {
        self.first.weight().max(self.second.weight())
    }
}
