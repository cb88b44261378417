// Amounts: values that are summed and compared, of kinds that a caller may choose or add.
// The laws of a kind hold for amounts that are light enough; docs/amounts.md says each of them in words.
#![tactic(auto)]

ghost use Rattle.std.specs.Prelude.{◌≡◌};
ghost use Rattle.amounts.specs.Kind.{Kind, Lawful};

use std::cmp::Ordering;

mod adding;
mod choosing;
mod money;
mod promises;
mod ranked;

pub use adding::{times, total};
pub use choosing::{larger, smaller};
pub use money::Money;
pub use promises::{bounds_stand, ranked_stands, tables_stand, totals_stand};
pub use ranked::Ranked;

// A kind of amounts. No call is refused: an operation has an answer for every amount, and the laws say what the answers
// of light amounts have to do with one another.
pub trait Amount: Copy {
    // The operations as the contracts cite them.
    ghost kind: { Kind Self };

    // The amount of nothing.
    fn zero() -> Self
        ensures { result ≡ kind.none };

    fn sum(self, other: Self) -> Self
        ensures { result ≡ kind.plus self other };

    // What sums to zero with `self`.
    fn opposite(self) -> Self
        ensures { result ≡ kind.minus self };

    // Stays a function of its own, and no `Ord`: the laws of a kind speak of this order, and each kind owes them for light amounts alone.
    fn compare(self, other: Self) -> Ordering
        ensures { result ≡ kind.cmp self other };

    // How much of the room that the laws leave the amount takes up.
    fn weight(self) -> u64
        ensures { result ≡ kind.weight self };

    // A law, which each implementation proves: it is one since it stands below the last function.
    ghost lawful: { Lawful kind };
}
