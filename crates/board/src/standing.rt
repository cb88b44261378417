// Opening a board, and the calls that change it.
ghost use Rattle.std.specs.Prelude.{◌≡◌};
ghost use Rattle.board.specs.Boards.{under, fresh, answer, after};
ghost use Rattle.board.specs.Refusals.{answered};
ghost use Rattle.board.specs.Standing.{known_pair, strike as to_strike, reopen as to_reopen, pin as to_pin, roster as to_roster, bounds as to_bounds, limit as to_limit};

use crate::desk::{Board, HEAVIEST};
use crate::refusal::Refusal;
use amounts::Amount;
use plans::{Bounds, Roster};
use sources::{Source, StrikeLayer};

// Stays: book and weekend, and a class with its two bounds, are parameters, as sources and bounds take them; a struct would be taken apart in every call.
#[tactic(auto, using(std::proofs::lemmas::Bool::Decides::nat_tests), unfolding(crate::specs::Standing::opened, crate::specs::Standing::stepped, crate::specs::Standing::fault, crate::specs::Standing::changed, crate::specs::Standing::pinned))]
impl<S: Source> Board<S> {
    // No strikes, one class with every book in it, all bounds from 0 to the number of books, limit zero.
    pub fn open(source: S) -> Self
        ensures { result ≡ fresh S.Source S.Quote.Amount.kind source }
    {
        let books = source.books();
        Board {
            layer: StrikeLayer::over(source),
            roster: Roster::plain(),
            bounds: Bounds::open(books),
            limit: S::Quote::zero(),
        }
    }

    // Refused unless the board has the book and the weekend.
    fn must_have(&self, book: usize, weekend: usize) -> Result<(), Refusal>
        ensures { result ≡ answered (known_pair (under S.Source self.now) book weekend None) }
    {
        if book >= self.layer.books() || weekend >= self.layer.weekends() {
            return Err(Refusal::Unknown);
        }
        Ok(())
    }

    // Refused unless the pair is open: then it can be struck or pinned.
    fn must_be_open(&self, book: usize, weekend: usize) -> Result<(), Refusal>
        ensures { result ≡ answer S.Source S.Quote.Amount.kind self.now (to_strike book weekend) }
    {
        self.must_have(book, weekend)?;
        self.layer.quote(book, weekend).ok_or(Refusal::Shut)?;
        Ok(())
    }

    // The open pair is struck.
    pub fn strike(&mut self, book: usize, weekend: usize) -> Result<(), Refusal>
        ensures answer { result ≡ answer S.Source S.Quote.Amount.kind self.old (to_strike book weekend) }
        ensures after { self.new ≡ after S.Source S.Quote.Amount.kind self.old (to_strike book weekend) }
    {
        self.must_be_open(book, weekend)?;
        self.layer.strike(book, weekend);
        Ok(())
    }

    // The strike is lifted.
    pub fn reopen(&mut self, book: usize, weekend: usize) -> Result<(), Refusal>
        ensures answer { result ≡ answer S.Source S.Quote.Amount.kind self.old (to_reopen book weekend) }
        ensures after { self.new ≡ after S.Source S.Quote.Amount.kind self.old (to_reopen book weekend) }
    {
        self.must_have(book, weekend)?;
        if !self.layer.is_struck(book, weekend) {
            return Err(Refusal::NotStruck);
        }
        self.layer.lift(book, weekend);
        Ok(())
    }

    // Every other open pair of the book, if any, is struck.
    pub fn pin(&mut self, book: usize, weekend: usize) -> Result<(), Refusal>
        ensures answer { result ≡ answer S.Source S.Quote.Amount.kind self.old (to_pin book weekend) }
        ensures after { self.new ≡ after S.Source S.Quote.Amount.kind self.old (to_pin book weekend) }
    {
        self.must_be_open(book, weekend)?;
        for other in 0..self.layer.weekends() {
            if other != weekend && self.layer.quote(book, other).is_some() {
                self.layer.strike(book, other);
            }
        }
        Ok(())
    }

    // Replaces the roster, and sets all bounds back to 0 and the number of books. Of the classes one for each book is read.
    pub fn roster(&mut self, parents: &[usize], classes: &[usize]) -> Result<(), Refusal>
        ensures answer { result ≡ answer S.Source S.Quote.Amount.kind self.old (to_roster parents.now classes.now) }
        ensures after { self.new ≡ after S.Source S.Quote.Amount.kind self.old (to_roster parents.now classes.now) }
    {
        let books = self.layer.books();
        self.roster = Roster::from_lists(parents, classes, books)?;
        self.bounds = Bounds::open(books);
        Ok(())
    }

    // Replaces the bounds of one weekend and class.
    pub fn bounds(
        &mut self,
        weekend: usize,
        class: usize,
        lower: usize,
        upper: usize,
    ) -> Result<(), Refusal>
        ensures answer { result ≡ answer S.Source S.Quote.Amount.kind self.old (to_bounds weekend class lower upper) }
        ensures after { self.new ≡ after S.Source S.Quote.Amount.kind self.old (to_bounds weekend class lower upper) }
    {
        if weekend >= self.layer.weekends() || class >= self.roster.classes() {
            return Err(Refusal::Unknown);
        }
        if lower > upper || upper > 120 {
            return Err(Refusal::Crossed);
        }
        self.bounds.set(weekend, class, lower, upper);
        Ok(())
    }

    // Replaces the limit.
    pub fn limit(&mut self, amount: S::Quote) -> Result<(), Refusal>
        ensures answer { result ≡ answer S.Source S.Quote.Amount.kind self.old (to_limit amount) }
        ensures after { self.new ≡ after S.Source S.Quote.Amount.kind self.old (to_limit amount) }
    {
        if amount.weight() > HEAVIEST {
            return Err(Refusal::Heavy);
        }
        self.limit = amount;
        Ok(())
    }
}
