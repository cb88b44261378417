// The search for a least plan: assignments under soft bounds, labels that show them least, and the solver.
#![tactic(auto)]

mod arcs;
mod augmenting;
mod choices;
mod counts;
mod first_labels;
mod flow_promises;
mod graph;
mod labels;
mod marks;
mod movers;
mod network;
mod nodes;
mod offers;
mod open_words;
mod reassigning;
mod relaxing;
mod searching;
mod solving;
mod start;
mod starting;
mod state;
mod unsolved;

pub use arcs::Arc;
pub use flow_promises::{
    class_searches_stand, hole_stands, labels_stand, searches_stand, soft_bounds_stand,
};
pub use network::{fall, rise, violation};
pub use solving::solve;
pub use unsolved::Unsolved;
