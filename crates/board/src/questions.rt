// Questions that a planner puts to the board. None of them changes it.
ghost use Rattle.std.specs.Prelude.{◌≡◌, true, Ok, nat_le, unsigned_abs};
ghost use Rattle.std.specs.List.{list_all};
ghost use Rattle.plans.specs.Problem.{Possible};
ghost use Rattle.plans.specs.Theorems.{Sound};
ghost use Rattle.board.specs.Boards.{desk, posed};
ghost use Rattle.board.specs.Questions.{places as places_of, toll_check as the_toll_check, head_check as the_head_check};

use crate::desk::{Board, HEAVIEST};
use crate::refusal::Refusal;
use amounts::Amount;
use plans::Setting;
use sources::{Source, StrikeLayer};

// Whether the entries of a toll sheet are light.
fn are_light<X: Amount>(entries: &[X]) -> bool
    ensures { result ≡ list_all (λ x. nat_le (X.Amount.kind.weight x) 1000000000000) entries.now }
{
    entries.iter().all(|entry| entry.weight() <= HEAVIEST)
}

// Whether the entries of a head sheet are -1, 0 or 1.
fn are_heads(entries: &[i8]) -> bool
    ensures { result ≡ list_all (λ x. nat_le (unsigned_abs x) 1) entries.now }
{
    entries.iter().all(|entry| entry.unsigned_abs() <= 1)
}

impl<S: Source> Board<S> {
    // What plans are sought over on this board: all of it but the limit.
    fn setting(&self) -> Setting<'_, StrikeLayer<S>>
        ensures { desk result.source.now result.roster.now result.bounds.now self.now.standing.limit ≡ self.now }
    {
        Setting {
            source: &self.layer,
            roster: &self.roster,
            bounds: &self.bounds,
        }
    }

    // How many places a sheet needs: one for each weekend and class.
    fn places(&self) -> usize
        ensures { result ≡ places_of (posed S.Source self.now) }
    {
        self.layer.weekends() * self.roster.classes()
    }

    // Asks for every pair once: what the answers promise of their quotes is then known of the table.
    #[tactic(auto, using(crate::proofs::Checks::board_sound))]
    fn look_at_quotes(&self)
        ensures { Sound S.Quote.Amount.kind (posed S.Source self.now) }
    {
        // Stays two loops: that a quote is light stands in no law of a source, only in what asking for it promises.
        for book in 0..self.layer.books() {
            for weekend in 0..self.layer.weekends() {
                let _ = self.layer.quote(book, weekend);
            }
        }
    }

    // Whether a toll sheet shows that there is no plan within the limit: a book has no open weekend, or the floor exceeds the limit.
    #[tactic(auto, using(std::proofs::lemmas::Bool::Decides::nat_tests, crate::proofs::Checks::all_light), unfolding(crate::specs::Questions::toll_check))]
    pub fn toll_check(&self, sheet: &[S::Quote]) -> Result<bool, Refusal>
        ensures answer { result ≡ the_toll_check S.Quote.Amount.kind (posed S.Source self.now) sheet.now }
        ensures sound { result ≡ Ok true → Possible S.Quote.Amount.kind (posed S.Source self.now) → ⊥ }
    {
        let entries = sheet.get(..self.places()).ok_or(Refusal::Short)?;
        if !are_light(entries) {
            return Err(Refusal::Heavy);
        }
        self.look_at_quotes();
        Ok(self.setting().toll_accepts(self.limit, sheet))
    }

    // Stays beside the toll check: entries, their test, the refusal and the question all differ, so a trait of sheets would have two members for each line saved.
    // The same of a head sheet, with entries -1, 0 or 1, every quote counted 0, and limit 0: it shows that there is no plan at all.
    #[tactic(auto, using(std::proofs::lemmas::Bool::Decides::nat_tests, crate::proofs::Checks::all_heads), unfolding(crate::specs::Questions::head_check))]
    pub fn head_check(&self, sheet: &[i8]) -> Result<bool, Refusal>
        ensures answer { result ≡ the_head_check (posed S.Source self.now) sheet.now }
        ensures sound { result ≡ Ok true → Possible S.Quote.Amount.kind (posed S.Source self.now) → ⊥ }
    {
        let entries = sheet.get(..self.places()).ok_or(Refusal::Short)?;
        if !are_heads(entries) {
            return Err(Refusal::Range);
        }
        self.look_at_quotes();
        Ok(self.setting().head_accepts(sheet))
    }
}
