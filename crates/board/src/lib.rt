// The standing board: what a planner's calls make of it, and what it answers.
#![tactic(auto)]

mod call;
mod desk;
mod keeping;
mod playing;
mod questions;
mod refusal;
mod standing;
mod worked;

pub use call::Call;
pub use desk::Board;
pub use refusal::Refusal;
pub use worked::{cases_stand, runs_stand};
