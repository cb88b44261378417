// The pairs that a source has open, one word for each book.
ghost use Rattle.std.specs.Prelude.{◌≡◌, ℕ, ◌^◌, ◌<◌, ◌≤◌, is_some, IfSome};
ghost use Rattle.solver.specs.Held.{word_at, WordOf};

use amounts::Amount;
use sources::Source;

// Bit w of the word is set where the book is open at weekend w. What asking promises of the amounts is then known of all the book's pairs.
fn open_word<S: Source>(source: &S, book: usize) -> u16
    ensures { WordOf S.Quote.Amount.kind (S.Source.table source.now book) (S.Source.weeks source.now) result }
{
    let mut word: u16 = 0;
    for weekend in 0..source.weekends() {
        if source.quote(book, weekend).is_some() {
            word |= 1 << weekend;
        }
    }
    word
}

// Asks for every pair once: bit w of word b is set where book b is open at weekend w.
pub(crate) fn open_words<S: Source>(source: &S) -> [u16; 120]
    ensures bits { (b w : ℕ) → word_at result b w ≡ is_some (S.Source.table source.now b w) }
    ensures light { (b w : ℕ) → b < S.Source.count source.now → w < S.Source.weeks source.now → IfSome (S.Source.table source.now b w) (λ x. S.Quote.Amount.kind.weight x ≤ 10 ^ 9) }
{
    let mut words = [0; 120];
    for (book, word) in words[..source.books()].iter_mut().enumerate() {
        *word = open_word(source, book);
    }
    words
}
