// The labels of a start: where no book may move yet, bounds and counts alone give labels that are valid.
ghost use Rattle.std.specs.Prelude.{◌≡◌, ℕ, ◌+◌, ◌<◌};
ghost use Rattle.plans.specs.Places.{at};
ghost use Rattle.plans.specs.Posed.{meaning};
ghost use Rattle.solver.specs.Soft.{soft_kind, violation as the_violation};
ghost use Rattle.solver.specs.Residual.{node as the_node};
ghost use Rattle.solver.specs.Held.{memory_of, old_of, posed_by, ShownIn, Stands};
ghost use Rattle.solver.specs.Starting.{Begun};
ghost use Rattle.solver.specs.Levels.{level as the_level, Labelled, Flat};

use crate::graph::Residual;
use crate::labels::Labels;
use crate::network::violation;
use crate::nodes::Spot;
use amounts::{Amount, Money, Ranked};
use sources::Source;

// Stays beside rise and fall: each of the three compares otherwise.
// By how much the label of a node is below that of the node above, where at least `lower` and at most `upper` members are wanted.
fn level<X: Amount>(lower: usize, upper: usize, members: usize) -> Ranked<Money, X>
    ensures { result ≡ the_level (soft_kind X.Amount.kind) (the_violation X.Amount.kind) lower upper members }
{
    let one = violation::<X>();
    if members < lower {
        one.opposite()
    } else if members > upper {
        one
    } else {
        Ranked::<Money, X>::zero()
    }
}

impl<'a, S: Source> Residual<'a, S> {
    // Gives the node of a spot its label, from that of the node above.
    fn label_spot(&self, labels: &mut Labels<'_, S::Quote>, spot: Spot)
        requires { Stands (posed_by S.Source S.Quote.Amount.kind self.now.setting) spot }
        ensures { Labelled S.Quote.Amount.kind (posed_by S.Source S.Quote.Amount.kind self.now.setting) (at self.now.state.now.counts) (old_of S.Quote.Amount.kind (memory_of labels.old)) (old_of S.Quote.Amount.kind (memory_of labels.new)) spot.weekend spot.class }
    {
        let node = spot.node();
        let lower = self.setting.bounds.lower(spot.weekend, spot.class);
        let upper = self.setting.bounds.upper(spot.weekend, spot.class);
        let entry = level::<S::Quote>(lower, upper, self.state.counts[node]);
        let over = labels.read(spot.above(self.setting.roster));
        labels.write(node, over.sum(entry.opposite()));
    }

    // Gives the nodes of a weekend their labels. A parent has a smaller number than its classes, so that its label is there before theirs.
    fn label_weekend(&self, labels: &mut Labels<'_, S::Quote>, weekend: usize)
        requires weekend { weekend < S.Source.weeks self.now.setting.source.now }
        requires flat { Flat S.Quote.Amount.kind (posed_by S.Source S.Quote.Amount.kind self.now.setting) (at self.now.state.now.counts) (old_of S.Quote.Amount.kind (memory_of labels.old)) (the_node weekend 0) }
        ensures { Flat S.Quote.Amount.kind (posed_by S.Source S.Quote.Amount.kind self.now.setting) (at self.now.state.now.counts) (old_of S.Quote.Amount.kind (memory_of labels.new)) (the_node (weekend + 1) 0) }
    {
        for class in 0..self.setting.roster.classes() {
            self.label_spot(labels, Spot { weekend, class });
        }
    }

    // Gives every node its label, where all labels are zero at first and each word has only the weekend of its book.
    pub(crate) fn first_labels(&self, labels: &mut Labels<'_, S::Quote>)
        requires blank { (v : ℕ) → old_of S.Quote.Amount.kind (memory_of labels.old) v ≡ (soft_kind S.Quote.Amount.kind).none }
        requires begun { Begun (meaning S.Source self.now.setting.source.now) self.now.setting.roster.now self.now.state.now }
        ensures { ShownIn S.Quote.Amount.kind (posed_by S.Source S.Quote.Amount.kind self.now.setting) self.now.state.now (old_of S.Quote.Amount.kind (memory_of labels.new)) }
    {
        for weekend in 0..self.setting.source.weekends() {
            self.label_weekend(labels, weekend);
        }
    }
}
