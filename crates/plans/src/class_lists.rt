// A roster from two lists: the parents of the classes, and the classes of the books.
ghost use Rattle.std.specs.Prelude.{◌≡◌, ℕ, ◌<◌, ◌≤◌, length, slice_index};
ghost use Rattle.plans.specs.Rosters.{passes, class_fits, padded, parents_fit as the_parents_fit, roster_of, shaped};

use crate::class_tree::Roster;

// Why two lists make no roster.
#[derive(Clone, Copy, Debug, PartialEq, Eq)]
pub enum RosterFault {
    // There are fewer classes than books.
    Short,
    // The parents are none or more than 8, a parent is not smaller than its class, or a book is in no class.
    NoRoster,
}

// Are these the parents of one to eight classes, each but that of class 0 smaller than its class?
fn parents_fit(parents: &[usize]) -> bool
    ensures { result ≡ the_parents_fit parents.now }
{
    (1..=8).contains(&parents.len())
        && parents
            .iter()
            .enumerate()
            .all(|(class, parent)| *parent < class.max(1))
}

// Is each book in one of so many classes?
fn homes_fit(classes: usize, homes: &[usize]) -> bool
    ensures { result ≡ passes (class_fits classes) 0 homes.now }
{
    homes.iter().all(|home| *home < classes)
}

// A list of small numbers in a fixed array, with zeros behind them.
// Stays a loop over the numbers: tried as `array::from_fn`, which asks for each of the N places, and took up to five times as long.
fn row_of<const N: usize>(numbers: &[usize]) -> [u8; N]
    requires room { length numbers.now ≤ N }
    requires small { (i : ℕ) → slice_index numbers.now i < 256 }
    ensures { result ≡ padded N numbers.now }
{
    let mut row = [0; N];
    for (place, number) in numbers.iter().enumerate() {
        row[place] = *number as u8;
    }
    row
}

impl Roster {
    // Stays two lists and a number: so they come in a call to a board, and the roster is the struct that is made of them.
    // Entry c of `parents` is the parent of class c, and entry b of `classes` the class of book b; of the classes only the first `books` are read.
    // A number of books over 120 is taken as 120.
    pub fn from_lists(
        parents: &[usize],
        classes: &[usize],
        books: usize,
    ) -> Result<Self, RosterFault>
        ensures { shaped result ≡ roster_of books parents.now classes.now }
    {
        let homes = classes.get(..books.min(120)).ok_or(RosterFault::Short)?;
        if !parents_fit(parents) || !homes_fit(parents.len(), homes) {
            return Err(RosterFault::NoRoster);
        }
        Ok(Roster::new(parents.len(), row_of(parents), row_of(homes)))
    }
}
