// Classes, each below its parent, and the class of each book.
ghost use Rattle.std.specs.Prelude.{◌≡◌, ℕ, ◌<◌, ◌≤◌, max, replicate, slice_index};
ghost use Rattle.plans.specs.Places.{at};
ghost use Rattle.plans.specs.Problem.{climbs};
ghost use Rattle.plans.specs.Sheets.{upward};

use amounts::Amount;

// Class 0 is its own parent, and each other class has a parent with a smaller number: every walk up the classes ends at class 0.
// Books that are not there are of class 0, and so are the parents of classes that are not there.
#[derive(Clone, Copy)]
pub struct Roster {
    // Stays: a roster is fixed memory, so this says how many of the parents are in use.
    classes: usize,
    parents: [u8; 8],
    homes: [u8; 120],
    ghost sound: { (1 ≤ classes) × (classes ≤ 8) × (slice_index parents 0 ≡ 0) × ((c : ℕ) → 0 < c → c < classes → slice_index parents c < c) × ((b : ℕ) → b < 120 → slice_index homes b < classes) × ((c : ℕ) → classes ≤ c → slice_index parents c ≡ 0) },
}

impl Roster {
    // One class, with every book in it.
    pub fn plain() -> Self
        ensures classes { result.classes ≡ 1 }
        ensures parents { result.parents ≡ replicate 8 0 }
        ensures homes { result.homes ≡ replicate 120 0 }
    {
        Roster {
            classes: 1,
            parents: [0; 8],
            homes: [0; 120],
        }
    }

    // A roster of parts that keep what a roster has to keep.
    pub(crate) fn new(classes: usize, parents: [u8; 8], homes: [u8; 120]) -> Self
        requires sizes { (1 ≤ classes) × (classes ≤ 8) }
        requires above { (c : ℕ) → c < classes → slice_index parents c < max 1 c }
        requires past { (c : ℕ) → classes ≤ c → slice_index parents c ≡ 0 }
        requires classed { (b : ℕ) → b < 120 → slice_index homes b < classes }
        ensures classes { result.classes ≡ classes }
        ensures parents { result.parents ≡ parents }
        ensures homes { result.homes ≡ homes }
    {
        Roster {
            classes,
            parents,
            homes,
        }
    }

    // How many classes there are.
    pub fn classes(&self) -> usize
        ensures { result ≡ self.now.classes }
    {
        self.classes
    }

    // The parent of a class; 0 where there is no such class.
    pub fn parent(&self, class: usize) -> usize
        ensures { result ≡ at self.now.parents class }
    {
        usize::from(self.parents.get(class).copied().unwrap_or(0))
    }

    // The class of a book; 0 where there is no such book.
    pub fn class_of(&self, book: usize) -> usize
        ensures value { result ≡ at self.now.homes book }
        ensures known { result < self.now.classes }
    {
        usize::from(self.homes.get(book).copied().unwrap_or(0))
    }

    // What `entry` gives for a class and for every class above it, added up.
    pub fn sum_up<X: Amount, F: Fn(usize) -> X>(&self, class: usize, entry: &F) -> X
        requires { (c : ℕ) → c ≤ class → F.pre entry.now c }
        ensures { (e : ℕ → X) → ((c : ℕ) (x : X) → c ≤ class → F.post entry.now c x → x ≡ e c) → result ≡ upward X.Amount.kind (at self.now.parents) e class class }
    {
        let own = entry(class);
        if class == 0 {
            return own;
        }
        let above = self.sum_up(self.parent(class), entry);
        own.sum(above)
    }

    // Is the book's class `class`, or is `class` above it?
    pub fn member(&self, book: usize, class: usize) -> bool
        ensures { result ≡ climbs (at self.now.parents) (at self.now.homes book) (at self.now.homes book) class }
    {
        // Stays: tried as any over successors: the check asks that these end, with a goal of ⊥.
        let mut at_class = self.class_of(book);
        while at_class != class && at_class != 0 {
            at_class = self.parent(at_class);
        }
        at_class == class
    }
}
