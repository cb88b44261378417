// The lesser and the greater of two amounts, of any kind.
ghost use Rattle.std.specs.Prelude.{◌≡◌};
ghost use Rattle.amounts.specs.Kind.{larger as the_larger, smaller as the_smaller};

use super::Amount;
use std::cmp::Ordering;

// The first where the two are equal.
pub fn smaller<X: Amount>(x: X, y: X) -> X
    ensures { result ≡ the_smaller X.Amount.kind x y }
{
    match x.compare(y) {
        Ordering::Greater => y,
        _ => x,
    }
}

// The second where the two are equal.
// Stays beside `smaller`: of equal amounts each answers the other one, and a flag for which of them would say less at every call.
pub fn larger<X: Amount>(x: X, y: X) -> X
    ensures { result ≡ the_larger X.Amount.kind x y }
{
    match x.compare(y) {
        Ordering::Greater => x,
        _ => y,
    }
}
