// What stands of every board, whatever was done to it.
ghost use Rattle.std.specs.Prelude.{◌^◌, ◌≤◌};
ghost use Rattle.board.specs.Boards.{posed};
ghost use Rattle.board.specs.Theorems.{Rostered, Straight};

use crate::desk::Board;
use amounts::Amount;
use sources::Source;

impl<S: Source> Board<S> {
    // Whatever was done to a board, its classes make a roster, its bounds do not cross or pass 120, and its limit is not too heavy. It does nothing.
    pub fn stands(&self)
        ensures rostered { Rostered self.now.standing.roster }
        ensures straight { Straight (posed S.Source self.now) }
        ensures modest { S.Quote.Amount.kind.weight self.now.standing.limit ≤ 10 ^ 12 }
    {
        // What the type keeps is known where a field is looked at.
        let _ = &self.limit;
    }
}
