// A least assignment, from nothing.
ghost use Rattle.std.specs.Prelude.{◌≡◌, is_some, ℕ, ◌<◌, ◌≤◌, true, length, MatchOption};
ghost use Rattle.amounts.specs.Sums.{item};
ghost use Rattle.plans.specs.Posed.{put};
ghost use Rattle.plans.specs.Sheets.{stranded};
ghost use Rattle.solver.specs.Soft.{soft_kind};
ghost use Rattle.solver.specs.Held.{memory_of, old_of, word_at, posed_by, ShownIn};
ghost use Rattle.solver.specs.Solutions.{SolutionRight, SolvedIn};
ghost use Rattle.solver.specs.States.{words_of};

use crate::graph::Graph;
use crate::labels::{Labels, clear_all};
use crate::open_words::open_words;
use crate::state::State;
use crate::unsolved::Unsolved;
use amounts::Amount;
use plans::Setting;
use sources::Source;

// How many places a work sheet has at least.
const PLACES: usize = 1024;

impl<'a, S: Source> Graph<'a, S> {
    // Lets each book go to the weekends of its word, one book after another.
    fn widen_all(&self, state: &mut State, labels: &mut Labels<'_, S::Quote>, words: &[u16; 120])
        requires some { (b : ℕ) → b < S.Source.count self.now.setting.source.now → (x : ℕ) × (x < S.Source.weeks self.now.setting.source.now) × (word_at words.now b x ≡ true) }
        requires shown { ShownIn S.Quote.Amount.kind (posed_by S.Source S.Quote.Amount.kind self.now.setting) state.old (old_of S.Quote.Amount.kind (memory_of labels.old)) }
        ensures shown { ShownIn S.Quote.Amount.kind (posed_by S.Source S.Quote.Amount.kind self.now.setting) state.new (old_of S.Quote.Amount.kind (memory_of labels.new)) }
        ensures words { (b x : ℕ) → b < S.Source.count self.now.setting.source.now → word_at (words_of state.new) b x ≡ word_at words.now b x }
    {
        for (book, word) in words[..self.setting.source.books()].iter().enumerate() {
            self.reassign(state, labels, book, *word);
        }
    }

    // A least assignment, and labels that show it; none where a book has no open weekend. `words` says where the books are open.
    fn least_state(&self, words: &[u16; 120], labels: &mut Labels<'_, S::Quote>) -> Option<State>
        requires bits { (b w : ℕ) → word_at words.now b w ≡ is_some (S.Source.table self.now.setting.source.now b w) }
        requires blank { (v : ℕ) → old_of S.Quote.Amount.kind (memory_of labels.old) v ≡ (soft_kind S.Quote.Amount.kind).none }
        ensures { MatchOption result (stranded (S.Source.count self.now.setting.source.now) (S.Source.weeks self.now.setting.source.now) (S.Source.table self.now.setting.source.now) ≡ true) (λ s. SolvedIn S.Quote.Amount.kind (posed_by S.Source S.Quote.Amount.kind self.now.setting) s (old_of S.Quote.Amount.kind (memory_of labels.new))) }
    {
        let mut state = self.first_state(words)?;
        self.residual_of(&state).first_labels(labels);
        self.widen_all(&mut state, labels, words);
        self.residual_of(&state).refresh(labels);
        Some(state)
    }
}

// Finds an assignment that is least in violations of the bounds, and then in total, book by book. It needs a work sheet of 1,024 places: a shorter one is
// left as it is, and of any other every place is zero at the end.
pub fn solve<'a, S: Source>(
    setting: &Setting<'a, S>,
    work: &mut [S::Quote],
) -> Result<[u8; 120], Unsolved>
    ensures right { SolutionRight S.Quote.Amount.kind (put S.Source setting.now S.Quote.Amount.kind.none) (length work.old) result }
    ensures unchanged { length work.old < 1024 → work.new ≡ work.old }
    ensures clean { 1024 ≤ length work.old → (i : ℕ) → item S.Quote.Amount.kind work.new i ≡ S.Quote.Amount.kind.none }
    ensures long { length work.new ≡ length work.old }
{
    if work.len() < PLACES {
        return Err(Unsolved::Short);
    }
    let words = open_words(setting.source);
    let graph = Graph { setting: *setting };
    let found = graph.least_state(&words, &mut Labels::over(&mut *work));
    clear_all(work);
    let state = found.ok_or(Unsolved::Stranded)?;
    Ok(state.weekends())
}
