// Tests of the crate `amounts`: the edges of money, ranked amounts, copies and totals.
#![tactic(auto)]

#[cfg(test)]
mod money;
#[cfg(test)]
mod ranked;
#[cfg(test)]
mod sums;
