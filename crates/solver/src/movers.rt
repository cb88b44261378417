// A book that may be moved.
ghost use Rattle.std.specs.Prelude.{◌≡◌, ◌<◌};
ghost use Rattle.std.proofs.Props.{props};
ghost use Rattle.amounts.specs.Least.{or_none};
ghost use Rattle.plans.specs.Places.{at};
ghost use Rattle.solver.specs.Soft.{soft_kind, behind, softened};
ghost use Rattle.solver.specs.Residual.{moving};
ghost use Rattle.solver.specs.Held.{posed_by};
ghost use Rattle.solver.specs.States.{sent_of};

use crate::graph::Residual;
use crate::relaxing::soft_quote;
use amounts::{Amount, Money, Ranked};
use sources::Source;

// A book of the residual graph, and the opposite of its quote where it is.
#[derive(Drop)]
pub(crate) struct Mover<'a, S: Source> {
    pub(crate) residual: &'a Residual<'a, S>,
    pub(crate) book: usize,
    pub(crate) leaving: Ranked<Money, S::Quote>,
    ghost known: { book < S.Source.count residual.now.setting.source.now } by { Prim.hlevel props },
    ghost left: { leaving ≡ (soft_kind S.Quote.Amount.kind).minus (or_none (soft_kind S.Quote.Amount.kind) (behind (S.Source.table residual.now.setting.source.now book (at (sent_of residual.now.state.now) book)))) } by { Prim.hlevel props },
}

impl<'a, S: Source> Mover<'a, S> {
    // The cost of the move to another weekend.
    pub(crate) fn cost(&self, weekend: usize) -> Ranked<Money, S::Quote>
        ensures { result ≡ moving (soft_kind S.Quote.Amount.kind) (softened (posed_by S.Source S.Quote.Amount.kind self.now.residual.now.setting)) self.now.book (at (sent_of self.now.residual.now.state.now) self.now.book) weekend }
    {
        let residual = self.residual;
        soft_quote(residual.setting.source, self.book, weekend).sum(self.leaving)
    }
}
