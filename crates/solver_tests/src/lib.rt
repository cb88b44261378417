// Tests of the crate `solver`.
#![tactic(auto)]

#[cfg(test)]
mod soft_bounds;
