// A label that is offered to a node.
ghost use Rattle.std.specs.Prelude.{◌≡◌, ◌+◌, ◌<◌};
ghost use Rattle.solver.specs.declared.marks.Mark.{Mark};
ghost use Rattle.solver.specs.Held.{marked, memory_of, takes as does_take, Offered, written};

use crate::arcs::Arc;
use crate::labels::Labels;
use crate::marks::Mark;
use crate::nodes::NEW;
use amounts::{Amount, Money, Ranked};

impl<'a, X: Amount> Labels<'a, X> {
    // Does the node take the label? Not if it is settled, or has a label that is at least as small.
    fn takes(&mut self, node: usize, label: Ranked<Money, X>) -> bool
        requires { node < 129 }
        ensures value { result ≡ does_take X.Amount.kind (memory_of self.old) node label }
        ensures same { memory_of self.new ≡ memory_of self.old }
    {
        let Some(mark) = self.marks[node] else {
            return true;
        };
        mark.rank.is_none() && label.compare(self.read(NEW + node)).is_lt()
    }

    // Gives the node a label, by the arc that it was reached by, if it was.
    pub(crate) fn give(&mut self, node: usize, label: Ranked<Money, X>, arc: Option<Arc>)
        requires { node < 129 }
        ensures { (mark : Mark) × (mark.rank ≡ None) × (mark.arc ≡ arc) × (memory_of self.new ≡ marked (written (memory_of self.old) (129 + node) label) node mark) }
    {
        self.write(NEW + node, label);
        self.marks[node] = Some(Mark { rank: None, arc });
    }

    // Offers the node a label, by an arc.
    pub(crate) fn offer(&mut self, node: usize, label: Ranked<Money, X>, arc: Arc)
        requires { node < 129 }
        ensures { Offered X.Amount.kind (memory_of self.old) (memory_of self.new) node label arc }
    {
        if self.takes(node, label) {
            self.give(node, label, Some(arc));
        }
    }
}
