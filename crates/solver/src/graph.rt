// What a search is made over.
ghost use Rattle.std.specs.Prelude.{◌≡◌, ℕ, ◌<◌};
ghost use Rattle.std.proofs.Props.{props};
ghost use Rattle.plans.specs.Theorems.{Sound};
ghost use Rattle.plans.specs.Places.{at};
ghost use Rattle.solver.specs.Residual.{node as the_node};
ghost use Rattle.solver.specs.Flows.{soft_charges};
ghost use Rattle.solver.specs.Held.{posed_by};
ghost use Rattle.solver.specs.States.{sent_of};

use crate::network::rise;
use crate::nodes::Spot;
use crate::state::State;
use amounts::{Amount, Money, Ranked};
use plans::Setting;
use sources::Source;

// The setting of a problem, which a search does not change. The problem is sound: every pair was asked for.
#[derive(Drop)]
pub(crate) struct Graph<'a, S: Source> {
    pub(crate) setting: Setting<'a, S>,
    ghost sound: { Sound S.Quote.Amount.kind (posed_by S.Source S.Quote.Amount.kind setting) } by { Prim.hlevel props },
}

// The residual graph of an assignment, which sends each book to one of the setting's weekends.
// Stays apart from the labels, which are written while this is read. And that a book, a weekend or a spot is one of the setting's stays a clause: a number or a spot does not have the setting with it.
#[derive(Drop)]
pub(crate) struct Residual<'a, S: Source> {
    pub(crate) setting: Setting<'a, S>,
    pub(crate) state: &'a State,
    ghost sound: { Sound S.Quote.Amount.kind (posed_by S.Source S.Quote.Amount.kind setting) } by { Prim.hlevel props },
    ghost sent: { (b : ℕ) → b < S.Source.count setting.source.now → at (sent_of state.now) b < S.Source.weeks setting.source.now } by { Prim.hlevel props },
}

impl<'a, S: Source> Graph<'a, S> {
    // The residual graph of a state.
    pub(crate) fn residual_of<'b>(&self, state: &'b State) -> Residual<'b, S>
    where
        'a: 'b,
        requires { (b : ℕ) → b < S.Source.count self.now.setting.source.now → at (sent_of state.now) b < S.Source.weeks self.now.setting.source.now }
        ensures setting { result.setting ≡ self.now.setting }
        ensures state { result.state.now ≡ state.now }
    {
        Residual {
            setting: self.setting,
            state,
        }
    }
}

impl<'a, S: Source> Residual<'a, S> {
    // The rise at a spot.
    pub(crate) fn rise_at(&self, spot: Spot) -> Ranked<Money, S::Quote>
        ensures { result ≡ (soft_charges S.Quote.Amount.kind (posed_by S.Source S.Quote.Amount.kind self.now.setting)).rise spot.weekend spot.class (at self.now.state.now.counts (the_node spot.weekend spot.class)) }
    {
        let Spot { weekend, class } = spot;
        let lower = self.setting.bounds.lower(weekend, class);
        let upper = self.setting.bounds.upper(weekend, class);
        rise::<S::Quote>(lower, upper, self.state.counts[spot.node()])
    }
}
