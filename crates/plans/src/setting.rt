// What a planner has before there is a limit.
use crate::bound_table::Bounds;
use crate::class_tree::Roster;

// What plans are sought over: where quotes come from, the classes of the books, and the bounds. With a limit it is a problem.
#[derive_where(Clone, Copy)]
pub struct Setting<'a, S> {
    pub source: &'a S,
    pub roster: &'a Roster,
    pub bounds: &'a Bounds,
}
