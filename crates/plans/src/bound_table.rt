// Bounds: for each weekend and class, how many of the class's members at least and at most go there.
ghost use Rattle.std.specs.Prelude.{◌≡◌, min, replicate};
ghost use Rattle.std.specs.List.{All};
ghost use Rattle.plans.specs.Bounding.{bound, StraightBound, bound_at, bounds_go, bound_set};

// How many members at least, and how many at most.
#[derive(Clone, Copy)]
pub(crate) struct Bound {
    lower: u8,
    upper: u8,
}

// For 16 weekends and 8 classes, at place weekend * 8 + class. A lower bound is at most the upper one, and that at most 120.
#[derive(Clone, Copy)]
pub struct Bounds {
    table: [Bound; 128],
    ghost straight: { All StraightBound table },
}

impl Bounds {
    // From 0 to all books, everywhere; a number of books over 120 is taken as 120.
    pub fn open(books: usize) -> Self
        ensures { result.table ≡ replicate 128 (bound 0 (min books 120)) }
    {
        Bounds {
            table: [Bound {
                lower: 0,
                upper: books.min(120) as u8,
            }; 128],
        }
    }

    // The bound of a weekend and a class; from 0 to 0 where there is no such weekend or class.
    fn at(&self, weekend: usize, class: usize) -> Bound
        ensures { result ≡ bound_at self.now.table weekend class }
    {
        if weekend < 16 && class < 8 {
            self.table[weekend * 8 + class]
        } else {
            Bound { lower: 0, upper: 0 }
        }
    }

    // Stays a weekend and a class apart: any two numbers may be asked for, here and in a call to a board.
    // The least number; 0 where there is no such weekend or class.
    pub fn lower(&self, weekend: usize, class: usize) -> usize
        ensures { result ≡ (bound_at self.now.table weekend class).lower }
    {
        usize::from(self.at(weekend, class).lower)
    }

    // The greatest number; 0 where there is no such weekend or class.
    pub fn upper(&self, weekend: usize, class: usize) -> usize
        ensures { result ≡ (bound_at self.now.table weekend class).upper }
    {
        usize::from(self.at(weekend, class).upper)
    }

    // Sets the bounds for one weekend and class. Bounds that cross or pass 120, and such for no weekend or class, change nothing.
    pub fn set(&mut self, weekend: usize, class: usize, lower: usize, upper: usize)
        ensures { self.new.table ≡ bound_set (bounds_go weekend class lower upper) self.old.table weekend class (bound lower upper) }
    {
        if weekend < 16 && class < 8 && lower <= upper && upper <= 120 {
            self.table[weekend * 8 + class] = Bound {
                lower: lower as u8,
                upper: upper as u8,
            };
        }
    }
}
