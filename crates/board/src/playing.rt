// A list of calls, one after another.
ghost use Rattle.std.specs.Prelude.{◌≡◌};
ghost use Rattle.board.specs.Boards.{after, after_all};
ghost use Rattle.board.specs.Calls.{step, steps};

use crate::call::Call;
use crate::desk::Board;
use sources::Source;

impl<S: Source> Board<S> {
    // Sends one call, and drops the answer.
    #[tactic(auto, unfolding(crate::specs::Standing::stepped, crate::specs::Standing::fault, crate::specs::Standing::changed))]
    fn send(&mut self, call: &Call<S::Quote>)
        ensures { self.new ≡ after S.Source S.Quote.Amount.kind self.old (step call.now) }
    {
        let _ = match *call {
            Call::Strike { book, weekend } => self.strike(book, weekend),
            Call::Reopen { book, weekend } => self.reopen(book, weekend),
            Call::Pin { book, weekend } => self.pin(book, weekend),
            Call::Roster { parents, classes } => self.roster(parents, classes),
            Call::Bounds {
                weekend,
                class,
                lower,
                upper,
            } => self.bounds(weekend, class, lower, upper),
            Call::Limit { amount } => self.limit(amount),
            Call::HeadCheck { sheet } => self.head_check(sheet).map(|_| ()),
            Call::TollCheck { sheet } => self.toll_check(sheet).map(|_| ()),
        };
    }

    // Sends every call in turn. A refused one changes nothing, and neither does a question.
    #[tactic(auto, using(crate::proofs::Plays::play_more, crate::proofs::Plays::play_end))]
    pub fn play(&mut self, calls: &[Call<S::Quote>])
        ensures { self.new ≡ after_all S.Source S.Quote.Amount.kind self.old (steps calls.now) }
    {
        for call in calls {
            self.send(call);
        }
    }
}
