// What a source of quotes means, and what asking it answers.
ghost use Rattle.std.specs.Prelude.{◌≡◌, ℕ, ◌≤◌, IfSome, Option};
ghost use Rattle.sources.specs.Meaning.{InRange};

use amounts::Amount;

// A number of books (1 to 120), a number of weekends (1 to 16), and a fixed table that gives each pair of a book and a
// weekend an amount or calls it shut. A pair that is not shut is open. Asking is never refused and changes nothing.
pub trait Source {
    // The kind of amount that this source quotes in; layers pass it through.
    type Quote: Amount;

    ghost count: { Self → ℕ };

    ghost weeks: { Self → ℕ };

    ghost table: { Self → ℕ → ℕ → Option Self.Quote };

    fn books(&self) -> usize
        ensures { result ≡ count self.now };

    fn weekends(&self) -> usize
        ensures { result ≡ weeks self.now };

    // The amount of a pair, or none where it is shut. An amount that is handed out weighs at most 10^9.
    // Stays two numbers, and no struct of the pair: any two may be asked, no fact ties them, and callers go through each by itself.
    fn quote(&self, book: usize, weekend: usize) -> Option<Self::Quote>
        ensures pinned { result ≡ table self.now book weekend }
        ensures light { IfSome result (λ x. Self.Quote.Amount.kind.weight x ≤ 1000000000) };

    // A law: the numbers are within their limits, and a pair outside them is shut.
    ghost ranges: { InRange count weeks table };
}
