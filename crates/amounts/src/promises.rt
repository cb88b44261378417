// Theorems on amounts of any kind. Each function has a theorem for its contract and does nothing else.
ghost use Rattle.amounts.specs.Promises.{PermutationKeepsTotal, OrderCarriesToTotals, TableByRowsOrColumns, CopiesWithinBounds, RankedKeepsLaws};

use super::Amount;

// The total of light amounts: in whatever order they come it is the same, and it rises with each of them.
pub fn totals_stand<X: Amount>()
    ensures permuted { PermutationKeepsTotal X.Amount.kind }
    ensures ordered { OrderCarriesToTotals X.Amount.kind }
{}

// A table of light amounts comes to one sum, by rows and by columns.
pub fn tables_stand<X: Amount>()
    ensures { TableByRowsOrColumns X.Amount.kind }
{}

// A number of copies between two bounds comes to no more than the copies of one of the bounds.
pub fn bounds_stand<X: Amount>()
    ensures { CopiesWithinBounds X.Amount.kind }
{}

// Two kinds that keep the laws keep them when they are ranked.
pub fn ranked_stands<P, Q>()
    ensures { RankedKeepsLaws P Q }
{}
