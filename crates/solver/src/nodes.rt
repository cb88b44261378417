// The nodes of the residual graph as numbers (specs/Residual.antt).
ghost use Rattle.std.specs.Prelude.{◌≡◌, ◌+◌, ◌*◌, ◌/◌, ◌%◌, ◌<◌, ◌≤◌};
ghost use Rattle.plans.specs.Places.{at};
ghost use Rattle.solver.specs.Residual.{above as the_above, node as the_node};

use plans::Roster;

// How many nodes there are: a class has one at each weekend, and there is the sink.
// Stays a number wherever a node is passed: nodes are places of the table and are gone through from 0 on, so a struct of one would be made and taken apart in each function.
pub(crate) const NODES: usize = 129;

// The node above all.
pub(crate) const SINK: usize = 128;

// The first place of the labels that a search is finding.
pub(crate) const NEW: usize = NODES;

// A class at a weekend.
#[derive(Clone, Copy)]
pub(crate) struct Spot {
    pub(crate) weekend: usize,
    pub(crate) class: usize,
    ghost near: { weekend < 16 },
    ghost few: { class < 8 },
}

impl Spot {
    // The spot of a node that is not the sink.
    pub(crate) fn of(node: usize) -> Self
        requires { node < 128 }
        ensures weekend { result.weekend ≡ node / 8 }
        ensures class { result.class ≡ node % 8 }
    {
        Spot {
            weekend: node / 8,
            class: node % 8,
        }
    }

    // Its node.
    pub(crate) fn node(self) -> usize
        ensures is { result ≡ the_node self.weekend self.class }
        ensures within { result < 128 }
    {
        self.weekend * 8 + self.class
    }

    // The node above its own.
    pub(crate) fn above(self, roster: &Roster) -> usize
        requires { self.class < roster.now.classes }
        ensures is { result ≡ the_above (at roster.now.parents) self.weekend self.class }
        ensures within { result ≤ 128 }
    {
        if self.class == 0 {
            SINK
        } else {
            self.weekend * 8 + roster.parent(self.class)
        }
    }
}
