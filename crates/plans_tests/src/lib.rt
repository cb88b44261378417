// Tests of the crate `plans` on one small board, which is tried in full too.
#![tactic(auto)]

mod six_quotes;
mod worked;

pub use worked::board_z_stands;

#[cfg(test)]
mod both_checks;
#[cfg(test)]
mod rosters;
