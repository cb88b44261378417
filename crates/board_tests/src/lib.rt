// Tests of the crate `board`: the calls that change it, their refusals, both checks, and runs of calls.
#![tactic(auto)]

#[cfg(test)]
mod calls;
#[cfg(test)]
mod checks;
#[cfg(test)]
mod refusals;
#[cfg(test)]
mod zed;
