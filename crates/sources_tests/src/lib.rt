// Tests of the crate `sources`: the edges of each rule, and piles of layers.
#![tactic(auto)]

#[cfg(test)]
mod asking;
#[cfg(test)]
mod layers;
#[cfg(test)]
mod tables;
#[cfg(test)]
mod tariffs;
