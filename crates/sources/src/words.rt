// Words of weekends: bit w of a word stands for weekend w.
ghost use Rattle.std.specs.Prelude.{◌≡◌};
ghost use Rattle.sources.specs.Tables.{bit_at};

// Is the weekend in the word?
pub fn has_weekend(word: u16, weekend: usize) -> bool
    ensures { result ≡ bit_at word weekend }
{
    weekend < 16 && (word >> weekend) % 2 == 1
}
