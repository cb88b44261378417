// The walk that takes a book to its new place, back along the arcs by which a search reached the nodes.
ghost use Rattle.std.specs.Prelude.{◌≡◌, ◌<◌, slice_set};
ghost use Rattle.plans.specs.Places.{at};
ghost use Rattle.solver.specs.Residual.{tail};
ghost use Rattle.solver.specs.Held.{memory_of, old_of, posed_by, ShownIn, via_of, Walkable};
ghost use Rattle.solver.specs.Undone.{Put, Undoable, Undone};
ghost use Rattle.solver.specs.States.{sent_of, words_of};

use crate::arcs::Arc;
use crate::graph::Graph;
use crate::labels::Labels;
use crate::nodes::Spot;
use crate::state::State;
use amounts::Amount;
use sources::Source;

impl<'a, X: Amount> Labels<'a, X> {
    // The arc by which a node was reached; none where a search started.
    fn reached_by(&self, node: usize) -> Option<Arc>
        requires { node < 129 }
        ensures { result ≡ via_of (memory_of self.now) node }
    {
        self.marks[node]?.arc
    }
}

// Puts the book at the weekend, and gives it its new word.
fn put(state: &mut State, book: usize, weekend: usize, into: u16)
    requires { (book < 120) × (weekend < 16) }
    ensures { Put state.old state.new book weekend into }
{
    state.send(book, weekend);
    state.widen(book, into);
}

impl<'a, S: Source> Graph<'a, S> {
    // Undoes the arc that leads to the hole, and answers the node that it comes from: the hole is there now.
    fn undo(&self, state: &mut State, arc: Arc) -> usize
        requires { Undoable self.now.setting.roster.now.classes state.old arc }
        ensures next { result ≡ tail (posed_by S.Source S.Quote.Amount.kind self.now.setting) (at (sent_of state.old)) arc }
        ensures after { Undone state.old state.new arc }
    {
        match arc {
            Arc::Rise(weekend, class) => {
                let node = Spot { weekend, class }.node();
                state.counts[node] += 1;
                node
            }
            Arc::Fall(weekend, class) => {
                let spot = Spot { weekend, class };
                state.counts[spot.node()] -= 1;
                spot.above(self.setting.roster)
            }
            Arc::Move(book, weekend) => {
                let from = state.spot_of(self.setting.roster, book);
                state.send(book, weekend);
                from.node()
            }
        }
    }

    // A search from the weekends of the word `into` has ended: takes the book to one of them. Where the book was there is a hole; each arc that is undone
    // fills the hole and leaves another, at a node of smaller rank, until the hole is at a start of the search, and the book goes there. For this
    // assignment the labels that the search has found are valid.
    pub(crate) fn augment(
        &self,
        state: &mut State,
        labels: &mut Labels<'_, S::Quote>,
        book: usize,
        into: u16,
    )
        requires { Walkable S.Quote.Amount.kind (posed_by S.Source S.Quote.Amount.kind self.now.setting) state.old (memory_of labels.old) book into }
        ensures shown { ShownIn S.Quote.Amount.kind (posed_by S.Source S.Quote.Amount.kind self.now.setting) state.new (old_of S.Quote.Amount.kind (memory_of labels.new)) }
        ensures words { words_of state.new ≡ slice_set (words_of state.old) book into }
    {
        let mut hole = state.spot_of(self.setting.roster, book).node();
        while let Some(arc) = labels.reached_by(hole) {
            hole = self.undo(state, arc);
        }
        put(state, book, Spot::of(hole).weekend, into);
        labels.adopt();
    }
}
