// How many members of each class go to each weekend, as books are sent one by one.
ghost use Rattle.std.specs.Prelude.{◌≡◌, ℕ, ◌+◌, ◌<◌, ◌≤◌, ◌&&◌, ◌==◌, length};
ghost use Rattle.amounts.specs.Sums.{bit};
ghost use Rattle.plans.specs.Places.{at};
ghost use Rattle.plans.specs.Posed.{is_member};
ghost use Rattle.plans.specs.Problem.{climbs};
ghost use Rattle.solver.specs.Residual.{node};

use crate::nodes::Spot;
use plans::Roster;

// One more of a class at a weekend, and of every class above.
// Stays: a loop up the classes is no shorter, and this contract would be its invariant.
fn enter_class(counts: &mut [usize; 128], roster: &Roster, spot: Spot)
    requires known { spot.class < roster.now.classes }
    requires room { (c : ℕ) → c ≤ spot.class → at counts.old (node spot.weekend c) ≤ 120 }
    ensures { (w c : ℕ) → c < 8 → at counts.new (node w c) ≡ at counts.old (node w c) + bit (spot.weekend == w && climbs (at roster.now.parents) spot.class spot.class c) }
{
    counts[spot.node()] += 1;
    if spot.class != 0 {
        let weekend = spot.weekend;
        let class = roster.parent(spot.class);
        enter_class(counts, roster, Spot { weekend, class });
    }
}

// One book more at a weekend: it counts in its class and in every class above. The place of a spot's node has its count.
pub(crate) fn enter(counts: &mut [usize; 128], roster: &Roster, book: usize, weekend: usize)
    requires near { weekend < 16 }
    requires room { (c : ℕ) → c < 8 → at counts.old (node weekend c) ≤ 120 }
    ensures long { length counts.new ≡ 128 }
    ensures more { (w c : ℕ) → c < 8 → at counts.new (node w c) ≡ at counts.old (node w c) + bit (weekend == w && is_member roster.now book c) }
{
    let class = roster.class_of(book);
    enter_class(counts, roster, Spot { weekend, class });
}
