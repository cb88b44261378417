// The assignment that a search starts from: book by book, each goes where it is cheapest at that moment.
ghost use Rattle.std.specs.Prelude.{◌≡◌, ℕ, ◌+◌, ◌^◌, ◌<◌, ◌≤◌, true, ◌&&◌, is_some, MatchOption, ◌==◌, slice_set};
ghost use Rattle.sources.specs.Tables.{bit_at};
ghost use Rattle.amounts.specs.Sums.{bit};
ghost use Rattle.plans.specs.Places.{at};
ghost use Rattle.plans.specs.Posed.{meaning, is_member};
ghost use Rattle.plans.specs.Sheets.{stranded};
ghost use Rattle.solver.specs.Residual.{node};
ghost use Rattle.solver.specs.Held.{word_at};
ghost use Rattle.solver.specs.Starting.{Found, Begun};
ghost use Rattle.solver.specs.States.{sent_of, words_of};

use crate::choices::{Choice, cheaper};
use crate::counts::enter;
use crate::graph::{Graph, Residual};
use crate::nodes::Spot;
use crate::relaxing::soft_quote;
use crate::state::State;
use amounts::{Amount, Money, Ranked};
use plans::Roster;
use sources::{Source, has_weekend};

impl<'a, S: Source> Residual<'a, S> {
    // What it costs to send one more book to a weekend: the rises first, and then the quote.
    fn price_weekend(&self, book: usize, weekend: usize) -> Choice<Ranked<Money, S::Quote>>
        requires { weekend < 16 }
        ensures { result.place ≡ weekend }
    {
        let roster = self.setting.roster;
        let rise_of = |class: usize|
            requires near { weekend < 16 }
            requires few { class < 8 }
        { self.rise_at(Spot { weekend, class }) };
        let rises = roster.sum_up(roster.class_of(book), &rise_of);
        Choice {
            place: weekend,
            cost: rises.sum(soft_quote(self.setting.source, book, weekend)),
        }
    }

    // The cheapest choice among the open weekends of a book, if it has one; its word says where it is open.
    fn cheapest(&self, word: u16, book: usize) -> Option<Choice<Ranked<Money, S::Quote>>>
        requires { (w : ℕ) → bit_at word w ≡ is_some (S.Source.table self.now.setting.source.now book w) }
        ensures { Found (S.Source.table self.now.setting.source.now book) (S.Source.weeks self.now.setting.source.now) result }
    {
        let mut found = None;
        // Stays: tried as a chain with `min_by`: it is proved that an open weekend is answered, and not that none is open where none is ("`search`: no proof").
        for weekend in 0..self.setting.source.weekends() {
            if has_weekend(word, weekend) {
                found = Some(cheaper(found, self.price_weekend(book, weekend)));
            }
        }
        found
    }
}

// Sends a book to a weekend, which is then the only one of its word.
fn place(state: &mut State, roster: &Roster, book: usize, weekend: usize)
    requires near { weekend < 16 }
    requires within { book < 120 }
    requires room { (c : ℕ) → c < 8 → at state.old.counts (node weekend c) ≤ 120 }
    ensures sent { sent_of state.new ≡ slice_set (sent_of state.old) book weekend }
    ensures words { words_of state.new ≡ slice_set (words_of state.old) book (2 ^ weekend) }
    ensures counts { (w c : ℕ) → c < 8 → at state.new.counts (node w c) ≡ at state.old.counts (node w c) + bit (weekend == w && is_member roster.now book c) }
{
    state.send(book, weekend);
    state.widen(book, 1 << weekend);
    enter(&mut state.counts, roster, book, weekend);
}

impl<'a, S: Source> Graph<'a, S> {
    // `words` says where the books are open. None where a book is open nowhere.
    pub(crate) fn first_state(&self, words: &[u16; 120]) -> Option<State>
        requires { (b w : ℕ) → word_at words.now b w ≡ is_some (S.Source.table self.now.setting.source.now b w) }
        ensures { MatchOption result (stranded (S.Source.count self.now.setting.source.now) (S.Source.weeks self.now.setting.source.now) (S.Source.table self.now.setting.source.now) ≡ true) (Begun (meaning S.Source self.now.setting.source.now) self.now.setting.roster.now) }
    {
        let mut state = State::empty();
        for (book, word) in words[..self.setting.source.books()].iter().enumerate() {
            let best = self.residual_of(&state).cheapest(*word, book)?;
            place(&mut state, self.setting.roster, book, best.place);
        }
        Some(state)
    }
}
