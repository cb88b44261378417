// The board on which a planner works: a source with strikes over it, a roster, bounds and a limit.
use amounts::Amount;
use plans::{Bounds, Roster};
use sources::{Source, StrikeLayer};
use std::marker::Model;

// What a limit, or an entry of a toll sheet, may weigh at most.
pub(crate) const HEAVIEST: u64 = 1_000_000_000_000;

#[derive(Drop)]
pub struct Board<S: Source> {
    pub(crate) layer: StrikeLayer<S>,
    pub(crate) roster: Roster,
    pub(crate) bounds: Bounds,
    pub(crate) limit: S::Quote,
}

// A planner sees the source below, and the standing board over it. No limit is too heavy.
impl<S: Source> Model for Board<S> {
    ghost use Rattle.std.specs.Prelude.{◌≤◌};
    ghost use Rattle.board.specs.Boards.{Desk, desk};

    ghost Value = { Desk S S.Quote };

    ghost view = { λ b. desk b.layer b.roster b.bounds b.limit };

    ghost invariant = { λ b. S.Quote.Amount.kind.weight b.limit ≤ 1000000000000 };
}
