// The arcs out of a node that was settled, each of which offers a label to the node that it leads to.
ghost use Rattle.std.specs.Prelude.{◌≡◌, ◌+◌, ◌*◌, ◌<◌, true, ◌&&◌, ◌==◌, slice_index};
ghost use Rattle.amounts.specs.Least.{or_none};
ghost use Rattle.plans.specs.Places.{at};
ghost use Rattle.sources.specs.Tables.{bit_at};
ghost use Rattle.solver.specs.Soft.{soft_kind, behind};
ghost use Rattle.solver.specs.Residual.{node as the_node, above as the_above};
ghost use Rattle.solver.specs.Held.{memory_of, posed_by, Relaxes, Stands};
ghost use Rattle.solver.specs.States.{sent_of, words_of};

use crate::arcs::Arc;
use crate::graph::Residual;
use crate::labels::Labels;
use crate::movers::Mover;
use crate::network::fall;
use crate::nodes::{NEW, SINK, Spot};
use amounts::{Amount, Money, Ranked};
use sources::{Source, has_weekend};

// A quote behind no violation; a shut pair counts zero.
pub(crate) fn soft_quote<S: Source>(
    source: &S,
    book: usize,
    weekend: usize,
) -> Ranked<Money, S::Quote>
    ensures { result ≡ or_none (soft_kind S.Quote.Amount.kind) (behind (S.Source.table source.now book weekend)) }
{
    Ranked {
        first: Money::zero(),
        second: source.quote(book, weekend).unwrap_or(S::Quote::zero()),
    }
}

impl<'a, S: Source> Mover<'a, S> {
    // The move of the book to another weekend.
    fn take_move(&self, labels: &mut Labels<'_, S::Quote>, weekend: usize)
        requires weekend { weekend < S.Source.weeks self.now.residual.now.setting.source.now }
        requires allowed { bit_at (slice_index (words_of self.now.residual.now.state.now) self.now.book) weekend ≡ true }
        ensures { Relaxes S.Quote.Amount.kind (posed_by S.Source S.Quote.Amount.kind self.now.residual.now.setting) self.now.residual.now.state.now (memory_of labels.old) (memory_of labels.new) (the_node (at (sent_of self.now.residual.now.state.now) self.now.book) (at self.now.residual.now.setting.roster.now.homes self.now.book)) (129 + (self.now.book * 16 + weekend)) (130 + (self.now.book * 16 + weekend)) }
    {
        let residual = self.residual;
        let from = residual.state.spot_of(residual.setting.roster, self.book);
        let class = from.class;
        let label = labels.read(NEW + from.node()).sum(self.cost(weekend));
        let to = Spot { weekend, class };
        labels.offer(to.node(), label, Arc::Move(self.book, weekend));
    }
}

impl<'a, S: Source> Residual<'a, S> {
    // The arc up from the node of a spot.
    fn take_rise(&self, labels: &mut Labels<'_, S::Quote>, spot: Spot)
        requires { Stands (posed_by S.Source S.Quote.Amount.kind self.now.setting) spot }
        ensures { Relaxes S.Quote.Amount.kind (posed_by S.Source S.Quote.Amount.kind self.now.setting) self.now.state.now (memory_of labels.old) (memory_of labels.new) (the_node spot.weekend spot.class) 0 1 }
    {
        let label = labels.read(NEW + spot.node()).sum(self.rise_at(spot));
        let head = spot.above(self.setting.roster);
        labels.offer(head, label, Arc::Rise(spot.weekend, spot.class));
    }

    // The arc down to the node of a spot.
    fn take_fall(&self, labels: &mut Labels<'_, S::Quote>, spot: Spot)
        requires { Stands (posed_by S.Source S.Quote.Amount.kind self.now.setting) spot }
        ensures { Relaxes S.Quote.Amount.kind (posed_by S.Source S.Quote.Amount.kind self.now.setting) self.now.state.now (memory_of labels.old) (memory_of labels.new) (the_above (at self.now.setting.roster.now.parents) spot.weekend spot.class) (1 + the_node spot.weekend spot.class) (2 + the_node spot.weekend spot.class) }
    {
        let node = spot.node();
        let lower = self.setting.bounds.lower(spot.weekend, spot.class);
        let upper = self.setting.bounds.upper(spot.weekend, spot.class);
        let cost = fall::<S::Quote>(lower, upper, self.state.counts[node]);
        let tail = spot.above(self.setting.roster);
        let label = labels.read(NEW + tail).sum(cost);
        labels.offer(node, label, Arc::Fall(spot.weekend, spot.class));
    }

    // The arcs down from the node of a spot, to those of the classes right below it.
    fn take_falls(&self, labels: &mut Labels<'_, S::Quote>, spot: Spot)
        requires { Stands (posed_by S.Source S.Quote.Amount.kind self.now.setting) spot }
        ensures { Relaxes S.Quote.Amount.kind (posed_by S.Source S.Quote.Amount.kind self.now.setting) self.now.state.now (memory_of labels.old) (memory_of labels.new) (the_node spot.weekend spot.class) 1 129 }
    {
        for class in 1..self.setting.roster.classes() {
            if self.setting.roster.parent(class) == spot.class {
                let weekend = spot.weekend;
                self.take_fall(labels, Spot { weekend, class });
            }
        }
    }

    // The arcs down from the sink, to class 0 at each weekend.
    fn take_sink(&self, labels: &mut Labels<'_, S::Quote>)
        ensures { Relaxes S.Quote.Amount.kind (posed_by S.Source S.Quote.Amount.kind self.now.setting) self.now.state.now (memory_of labels.old) (memory_of labels.new) 128 0 2049 }
    {
        for weekend in 0..self.setting.source.weekends() {
            self.take_fall(labels, Spot { weekend, class: 0 });
        }
    }

    // The moves of a book to the weekends of its word.
    fn take_moves_of(&self, labels: &mut Labels<'_, S::Quote>, book: usize)
        requires { book < S.Source.count self.now.setting.source.now }
        ensures { Relaxes S.Quote.Amount.kind (posed_by S.Source S.Quote.Amount.kind self.now.setting) self.now.state.now (memory_of labels.old) (memory_of labels.new) (the_node (at (sent_of self.now.state.now) book) (at self.now.setting.roster.now.homes book)) (129 + book * 16) (129 + (book + 1) * 16) }
    {
        let word = self.state.word_of(book);
        let from = self.state.weekend_of(book);
        let mover = Mover {
            residual: self,
            book,
            leaving: soft_quote(self.setting.source, book, from).opposite(),
        };
        for weekend in 0..self.setting.source.weekends() {
            if has_weekend(word, weekend) {
                mover.take_move(labels, weekend);
            }
        }
    }

    // Is the book at the spot?
    fn stands_at(&self, book: usize, spot: Spot) -> bool
        requires { book < 120 }
        ensures { result ≡ (at (sent_of self.now.state.now) book == spot.weekend && at self.now.setting.roster.now.homes book == spot.class) }
    {
        self.state.weekend_of(book) == spot.weekend
            && self.setting.roster.class_of(book) == spot.class
    }

    // The moves of the books that are at a spot.
    fn take_moves(&self, labels: &mut Labels<'_, S::Quote>, spot: Spot)
        requires { Stands (posed_by S.Source S.Quote.Amount.kind self.now.setting) spot }
        ensures { Relaxes S.Quote.Amount.kind (posed_by S.Source S.Quote.Amount.kind self.now.setting) self.now.state.now (memory_of labels.old) (memory_of labels.new) (the_node spot.weekend spot.class) 129 2049 }
    {
        for book in 0..self.setting.source.books() {
            if self.stands_at(book, spot) {
                self.take_moves_of(labels, book);
            }
        }
    }

    // All arcs out of a node. A number below 128 that is no class's node has none.
    pub(crate) fn relax(&self, labels: &mut Labels<'_, S::Quote>, node: usize)
        requires { node < 129 }
        ensures { Relaxes S.Quote.Amount.kind (posed_by S.Source S.Quote.Amount.kind self.now.setting) self.now.state.now (memory_of labels.old) (memory_of labels.new) node 0 2049 }
    {
        if node == SINK {
            self.take_sink(labels);
            return;
        }
        let spot = Spot::of(node);
        if spot.weekend < self.setting.source.weekends()
            && spot.class < self.setting.roster.classes()
        {
            self.take_rise(labels, spot);
            self.take_falls(labels, spot);
            self.take_moves(labels, spot);
        }
    }
}
