// Soft bounds: what one member more or one fewer costs, in violations first.
ghost use Rattle.std.specs.Prelude.{◌≡◌};
ghost use Rattle.solver.specs.Soft.{rise as the_rise, fall as the_fall, soft_kind, violation as the_violation};

use amounts::{Amount, Money, Ranked};

// One violation, and behind it nothing.
pub fn violation<X: Amount>() -> Ranked<Money, X>
    ensures { result ≡ the_violation X.Amount.kind }
{
    Ranked {
        first: Money { value: 1 },
        second: X::zero(),
    }
}

// Stays two bounds and a number: no fact ties the three, and a struct of them would be made for each call.
// What it costs to go from so many members to one more, where at least `lower` and at most `upper` are wanted.
#[tactic(auto, unfolding(crate::specs::Soft::rise))]
pub fn rise<X: Amount>(lower: usize, upper: usize, members: usize) -> Ranked<Money, X>
    ensures { result ≡ the_rise (soft_kind X.Amount.kind) (the_violation X.Amount.kind) lower upper members }
{
    let one = violation::<X>();
    if members < lower {
        one.opposite()
    } else if members < upper {
        Ranked::<Money, X>::zero()
    } else {
        one
    }
}

// What it costs to go from so many members to one fewer.
#[tactic(auto, unfolding(crate::specs::Soft::fall))]
pub fn fall<X: Amount>(lower: usize, upper: usize, members: usize) -> Ranked<Money, X>
    ensures { result ≡ the_fall (soft_kind X.Amount.kind) (the_violation X.Amount.kind) lower upper members }
{
    let one = violation::<X>();
    if members <= lower {
        one
    } else if members <= upper {
        Ranked::<Money, X>::zero()
    } else {
        one.opposite()
    }
}
