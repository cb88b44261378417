// Head sheets, and the head check.
ghost use Rattle.std.specs.Prelude.{◌≡◌, ℕ, ◌<◌, ◌≤◌, get_or, pos, slice_index_or, unsigned_abs};
ghost use Rattle.amounts.specs.Models.{money};
ghost use Rattle.plans.specs.Posed.{put};
ghost use Rattle.plans.specs.Sheets.{head_accepts as the_head_accepts};

use crate::free_source::FreeSource;
use crate::setting::Setting;
use amounts::Money;
use sources::Source;
use std::array;

// The entry at a place of a head sheet, in coins; none past its end.
fn coin(sheet: &[i8], place: usize) -> Money
    ensures value { result ≡ money (slice_index_or sheet.now place (pos 0)) }
    ensures light { unsigned_abs result.value ≤ 128 }
{
    Money::from(i64::from(sheet.get(place).copied().unwrap_or(0)))
}

// The first 128 entries of a head sheet, in coins: as many as are ever read.
fn coins(sheet: &[i8]) -> [Money; 128]
    ensures value { (i : ℕ) → i < 128 → slice_index_or result i (money (pos 0)) ≡ money (slice_index_or sheet.now i (pos 0)) }
    ensures light { (i : ℕ) → unsigned_abs (get_or result i (money (pos 0))).value ≤ 128 }
{
    array::from_fn(|place| coin(sheet, place))
}

impl<'a, S: Source> Setting<'a, S> {
    // The head check: a book has no open weekend, or the floor of the sheet, with every quote counted 0, exceeds 0. Places are as in a toll sheet.
    pub fn head_accepts(&self, sheet: &[i8]) -> bool
        ensures { result ≡ the_head_accepts (put S.Source self.now S.Quote.Amount.kind.none) sheet.now }
    {
        let free = FreeSource::over(self.source);
        let setting = Setting {
            source: &free,
            roster: self.roster,
            bounds: self.bounds,
        };
        setting.toll_accepts(Money { value: 0 }, &coins(sheet))
    }
}
