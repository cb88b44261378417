// The cheapest of some places.
ghost use Rattle.std.specs.Prelude.{◌≡◌};
ghost use Rattle.solver.specs.Choosing.{cheaper as the_cheaper};

use amounts::Amount;

// A place, that is a weekend or a node, and what it costs to choose it.
#[derive(Clone, Copy)]
pub(crate) struct Choice<X> {
    pub(crate) place: usize,
    pub(crate) cost: X,
}

// The cheaper of what was found so far, if anything, and one more; of equal ones the first.
pub(crate) fn cheaper<X: Amount>(found: Option<Choice<X>>, more: Choice<X>) -> Choice<X>
    ensures { result ≡ the_cheaper X.Amount.kind found more }
{
    match found {
        Some(best) if !more.cost.compare(best.cost).is_lt() => best,
        _ => more,
    }
}
