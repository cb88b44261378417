// How many books and weekends there are.
ghost use Rattle.std.specs.Prelude.{◌≡◌, ◌&&◌, nat_lt};
ghost use Rattle.sources.specs.Tables.{clamped};

const MOST_BOOKS: usize = 120;

const MOST_WEEKENDS: usize = 16;

// A number of books outside 1 to 120, or of weekends outside 1 to 16, is taken as the nearer end.
#[derive(Clone, Copy)]
pub(crate) struct Extent {
    pub(crate) books: usize,
    pub(crate) weekends: usize,
}

impl Extent {
    pub(crate) fn books(self) -> usize
        ensures { result ≡ clamped 120 self.books }
    {
        self.books.clamp(1, MOST_BOOKS)
    }

    pub(crate) fn weekends(self) -> usize
        ensures { result ≡ clamped 16 self.weekends }
    {
        self.weekends.clamp(1, MOST_WEEKENDS)
    }

    // Is the pair of a book and a weekend within the numbers?
    pub(crate) fn has(self, book: usize, weekend: usize) -> bool
        ensures { result ≡ (nat_lt book (clamped 120 self.books) && nat_lt weekend (clamped 16 self.weekends)) }
    {
        book < self.books() && weekend < self.weekends()
    }
}
