// The search for least labels: nodes are settled one by one, in the order of their keys.
ghost use Rattle.std.specs.Prelude.{◌≡◌, ◌<◌, true, MatchOption};
ghost use Rattle.solver.specs.Held.{key_of as the_key, memory_of, NoneOpen, NearestOpen, open_of, posed_by, Searches, seen_of, Settled};

use crate::choices::{Choice, cheaper};
use crate::graph::Residual;
use crate::labels::Labels;
use crate::marks::Mark;
use crate::nodes::{NEW, NODES};
use amounts::{Amount, Money, Ranked};
use sources::Source;

impl<'a, X: Amount> Labels<'a, X> {
    // The key of a node: its new label less its old one.
    fn key_of(&mut self, node: usize) -> Ranked<Money, X>
        requires { node < 129 }
        ensures value { result ≡ the_key X.Amount.kind (memory_of self.old) node }
        ensures same { memory_of self.new ≡ memory_of self.old }
    {
        let new = self.read(NEW + node);
        let old = self.read(node);
        new.sum(old.opposite())
    }

    // Has the node a label, and is not settled?
    fn is_open(&self, node: usize) -> bool
        requires { node < 129 }
        ensures { result ≡ open_of (memory_of self.now) node }
    {
        self.marks[node].is_some_and(|mark| mark.rank.is_none())
    }

    // A node with the least key of those that have a label and are not settled, if there is one.
    fn pick(&mut self) -> Option<Choice<Ranked<Money, X>>>
        ensures found { MatchOption result (NoneOpen (memory_of self.old)) (λ k. NearestOpen X.Amount.kind (memory_of self.old) k.place) }
        ensures same { memory_of self.new ≡ memory_of self.old }
    {
        let mut found = None;
        // Stays: the table is lent for writing also where it is read (see labels), so a closure over it would change what it captures, and a chain is no plainer.
        for node in 0..NODES {
            if self.is_open(node) {
                let cost = self.key_of(node);
                found = Some(cheaper(found, Choice { place: node, cost }));
            }
        }
        found
    }

    // Gives a node that has a label its rank.
    fn settle(&mut self, node: usize, rank: usize)
        requires node { node < 129 }
        requires rank { rank < 129 }
        requires seen { seen_of (memory_of self.old) node ≡ true }
        ensures { Settled (memory_of self.old) (memory_of self.new) node rank }
    {
        if let Some(mark) = self.marks[node] {
            self.marks[node] = Some(Mark {
                rank: Some(rank),
                arc: mark.arc,
            });
        }
    }
}

impl<'a, S: Source> Residual<'a, S> {
    // Settles every node that the nodes with a label lead to.
    pub(crate) fn search(&self, labels: &mut Labels<'_, S::Quote>)
        ensures { Searches S.Quote.Amount.kind (posed_by S.Source S.Quote.Amount.kind self.now.setting) self.now.state.now (memory_of labels.old) (memory_of labels.new) }
    {
        for turn in 0..NODES {
            let Some(nearest) = labels.pick() else {
                return;
            };
            labels.settle(nearest.place, turn);
            self.relax(labels, nearest.place);
        }
    }
}
