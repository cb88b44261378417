// Theorems on problems over any kind of amounts. Each function has a theorem for its contract and does nothing else.
ghost use Rattle.std.specs.Prelude.{ℕ, List};
ghost use Rattle.plans.specs.Problem.{Problem};
ghost use Rattle.plans.specs.Rosters.{RosterRead};
ghost use Rattle.plans.specs.Theorems.{Sound, PosedSound, PosedStraight, AssignedIs, HeldSound, HeldStraight, HeldAssigned, MemberIs, TollByMembers, DoubleCounting, WeakDuality, StrongDuality, TollCheckSound, HeadCheckSound, PlanIs, WithinIs, KeptIs, BestIs, OneOfThree};

use amounts::Amount;

// A roster is read from exactly the lists that make one, and holds what they say.
pub fn rosters_stand()
    ensures { (books : ℕ) (parents classes : List ℕ) → RosterRead books parents classes }
{}

// What a source, a roster, bounds and a limit put is a sound problem, if the quotes and the limit are light; its bounds never cross; what `total_of` and `count_of`
// answer is the total and the count of an assignment there. All three hold as well of classes that only lists keep, in no roster.
pub fn problems_stand<X: Amount>()
    ensures sound { PosedSound X.Amount.kind }
    ensures straight { PosedStraight X.Amount.kind }
    ensures assigned { AssignedIs X.Amount.kind }
    ensures held_sound { HeldSound X.Amount.kind }
    ensures held_straight { HeldStraight X.Amount.kind }
    ensures held_assigned { HeldAssigned X.Amount.kind }
{}

// Members are met on the way up the classes; a toll is the sum of the entries for the classes that a book is a member of; and
// the tolls that are paid come to one sum, book by book and entry by entry.
pub fn counts_stand<X: Amount>()
    ensures members { MemberIs X.Amount.kind }
    ensures tolls { TollByMembers X.Amount.kind }
    ensures counted { DoubleCounting X.Amount.kind }
{}

// The floor of a light sheet is at most the total of each plan, and of a tight plan it is the total.
pub fn duality_stands<X: Amount>()
    ensures weak { WeakDuality X.Amount.kind }
    ensures strong { StrongDuality X.Amount.kind }
{}

// Neither check accepts a sheet where there is a plan within the limit.
pub fn checks_stand<X: Amount>()
    ensures toll { TollCheckSound X.Amount.kind }
    ensures head { HeadCheckSound X.Amount.kind }
{}

// What is computed by trying every assignment is what the relations say.
pub fn trials_stand<X: Amount>()
    ensures plans { PlanIs X.Amount.kind }
    ensures within { WithinIs X.Amount.kind }
    ensures sieved { KeptIs X.Amount.kind }
    ensures best { (B : Problem X) → Sound X.Amount.kind B → BestIs X.Amount.kind B }
    ensures three { (B : Problem X) → Sound X.Amount.kind B → OneOfThree X.Amount.kind B }
{}
