// One book is given other weekends to go to, and taken to where that is best; and labels are found anew.
ghost use Rattle.std.specs.Prelude.{◌≡◌, ℕ, ◌<◌, true, slice_set};
ghost use Rattle.amounts.specs.Kind.{AtMost};
ghost use Rattle.sources.specs.Tables.{bit_at};
ghost use Rattle.solver.specs.Soft.{soft_kind};
ghost use Rattle.solver.specs.Held.{memory_of, old_of, posed_by, ShownIn};
ghost use Rattle.solver.specs.States.{words_of};

use crate::graph::{Graph, Residual};
use crate::labels::Labels;
use crate::marks::Mark;
use crate::state::State;
use amounts::Amount;
use sources::Source;

impl<'a, S: Source> Graph<'a, S> {
    // Stays a clause, and no field of a struct: that labels show a state least holds between the steps, and not within one.
    // Lets a book go to the weekends of a word. The labels show that the assignment is least among those inside the words, before and after.
    pub(crate) fn reassign(
        &self,
        state: &mut State,
        labels: &mut Labels<'_, S::Quote>,
        book: usize,
        into: u16,
    )
        requires book { book < S.Source.count self.now.setting.source.now }
        requires some { (x : ℕ) × (x < S.Source.weeks self.now.setting.source.now) × (bit_at into x ≡ true) }
        requires shown { ShownIn S.Quote.Amount.kind (posed_by S.Source S.Quote.Amount.kind self.now.setting) state.old (old_of S.Quote.Amount.kind (memory_of labels.old)) }
        ensures shown { ShownIn S.Quote.Amount.kind (posed_by S.Source S.Quote.Amount.kind self.now.setting) state.new (old_of S.Quote.Amount.kind (memory_of labels.new)) }
        ensures words { words_of state.new ≡ slice_set (words_of state.old) book into }
    {
        let residual = self.residual_of(&*state);
        if residual.stays(labels, book, into) {
            state.widen(book, into);
            return;
        }
        self.start_at(labels, book, into);
        residual.search(labels);
        self.augment(state, labels, book, into);
    }
}

impl<'a, S: Source> Residual<'a, S> {
    // Finds labels anew, by a search from all nodes: they are as valid as before, light, and at most zero.
    pub(crate) fn refresh(&self, labels: &mut Labels<'_, S::Quote>)
        requires shown { ShownIn S.Quote.Amount.kind (posed_by S.Source S.Quote.Amount.kind self.now.setting) self.now.state.now (old_of S.Quote.Amount.kind (memory_of labels.old)) }
        ensures shown { ShownIn S.Quote.Amount.kind (posed_by S.Source S.Quote.Amount.kind self.now.setting) self.now.state.now (old_of S.Quote.Amount.kind (memory_of labels.new)) }
        ensures low { (v : ℕ) → v < 129 → AtMost (soft_kind S.Quote.Amount.kind) (old_of S.Quote.Amount.kind (memory_of labels.new) v) (soft_kind S.Quote.Amount.kind).none }
    {
        labels.reset(Some(Mark {
            rank: None,
            arc: None,
        }));
        self.search(labels);
        labels.adopt();
    }
}
