// One book is to be taken to other weekends: where its search starts, and whether it may stay.
ghost use Rattle.std.specs.Prelude.{◌≡◌, ◌<◌, true};
ghost use Rattle.plans.specs.Places.{at};
ghost use Rattle.solver.specs.Held.{memory_of, old_of, posed_by};
ghost use Rattle.solver.specs.Reassigning.{Started, Stays, stays_by};

use crate::graph::{Graph, Residual};
use crate::labels::Labels;
use crate::movers::Mover;
use crate::nodes::Spot;
use crate::relaxing::soft_quote;
use amounts::Amount;
use sources::{Source, has_weekend};

impl<'a, S: Source> Graph<'a, S> {
    // Lets a search start from the book's class at the weekends of the word `into`: there the quotes are the first labels.
    // Stays a book and a word beside it: no fact ties the two but that one weekend of the word is the setting's, which `reassign` alone asks.
    pub(crate) fn start_at(&self, labels: &mut Labels<'_, S::Quote>, book: usize, into: u16)
        requires { book < S.Source.count self.now.setting.source.now }
        ensures { Started S.Quote.Amount.kind (posed_by S.Source S.Quote.Amount.kind self.now.setting) (memory_of labels.old) (memory_of labels.new) book into }
    {
        labels.reset(None);
        let class = self.setting.roster.class_of(book);
        for weekend in 0..self.setting.source.weekends() {
            if has_weekend(into, weekend) {
                let spot = Spot { weekend, class };
                labels.give(
                    spot.node(),
                    soft_quote(self.setting.source, book, weekend),
                    None,
                );
            }
        }
    }
}

impl<'a, S: Source> Mover<'a, S> {
    // Along the move of the book to another weekend, does the valid label grow by at most the cost?
    fn stays_by(&self, labels: &mut Labels<'_, S::Quote>, weekend: usize) -> bool
        requires { weekend < S.Source.weeks self.now.residual.now.setting.source.now }
        ensures value { result ≡ stays_by S.Quote.Amount.kind (posed_by S.Source S.Quote.Amount.kind self.now.residual.now.setting) self.now.residual.now.state.now (old_of S.Quote.Amount.kind (memory_of labels.old)) self.now.book weekend }
        ensures same { memory_of labels.new ≡ memory_of labels.old }
    {
        let residual = self.residual;
        let from = residual.state.spot_of(residual.setting.roster, self.book);
        let class = from.class;
        let to = Spot { weekend, class };
        let most = labels.read(from.node()).sum(self.cost(weekend));
        labels.read(to.node()).compare(most).is_le()
    }
}

impl<'a, S: Source> Residual<'a, S> {
    // May the book stay where it is, and the labels stay as they are, where it may go to the weekends of the word `into`?
    pub(crate) fn stays(&self, labels: &mut Labels<'_, S::Quote>, book: usize, into: u16) -> bool
        requires { book < S.Source.count self.now.setting.source.now }
        ensures stays { result ≡ true → Stays S.Quote.Amount.kind (posed_by S.Source S.Quote.Amount.kind self.now.setting) self.now.state.now (old_of S.Quote.Amount.kind (memory_of labels.old)) book into }
        ensures same { memory_of labels.new ≡ memory_of labels.old }
    {
        let from = self.state.weekend_of(book);
        if !has_weekend(into, from) {
            return false;
        }
        let mover = Mover {
            residual: self,
            book,
            leaving: soft_quote(self.setting.source, book, from).opposite(),
        };
        // Stays: the table is lent for writing also where it is read (see labels), so a closure over it would change what it captures, and a chain is no plainer.
        for weekend in 0..self.setting.source.weekends() {
            if has_weekend(into, weekend) && !mover.stays_by(labels, weekend) {
                return false;
            }
        }
        true
    }
}
