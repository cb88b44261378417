// Sums of several amounts, of any kind.
ghost use Rattle.std.specs.Prelude.{◌≡◌};
ghost use Rattle.amounts.specs.Sums.{copies, total as summed};

use super::Amount;

// The sum of `count` copies of `x`; zero if there is none.
pub fn times<X: Amount>(count: usize, x: X) -> X
    ensures { result ≡ copies X.Amount.kind count x }
{
    let mut sum = X::zero();
    for _ in 0..count {
        sum = sum.sum(x);
    }
    sum
}

// The sum of `xs`, from the first to the last; zero if there is none.
pub fn total<X: Amount>(xs: &[X]) -> X
    ensures { result ≡ summed X.Amount.kind xs.now }
{
    let mut sum = X::zero();
    for x in xs {
        sum = sum.sum(*x);
    }
    sum
}
