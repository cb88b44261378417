// What a search has found out about a node that has a label, but for the label.
ghost use Rattle.std.specs.Prelude.{◌<◌, IfSome};
ghost use Rattle.std.proofs.Props.{props};

use crate::arcs::Arc;

// The rank of a node is its place in the order of settling; there is none while it is not settled. The arc is that by which it was reached; there is none
// where a search started.
#[derive(Clone, Copy)]
pub(crate) struct Mark {
    pub(crate) rank: Option<usize>,
    pub(crate) arc: Option<Arc>,
    ghost ranked: { IfSome rank (λ r. r < 129) } by { Prim.hlevel props },
}
