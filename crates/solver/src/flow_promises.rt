// Theorems that a search for a least plan stands on, over any kind of amounts. Each function has theorems for its contract and does nothing else.
ghost use Rattle.solver.specs.Flows.{SoftConvex, Subgradient, LeastByLabels, LeastInScore, LabelsSettle, Hole, SoftFits, ColdValid, Search, SearchEnds, WalkBegins, Walk, Reassigns};
ghost use Rattle.solver.specs.OneClass.{ColdByRises, ClassSearchable, ClassSearch, ClassSearchEnds, ClassReassigns};

use amounts::Amount;

// The prices of soft bounds are convex, with violations before amounts; and an entry between the last step and the next is a subgradient of
// convex prices.
pub fn soft_bounds_stand<X: Amount>()
    ensures convex { SoftConvex X.Amount.kind }
    ensures subgradient { Subgradient X.Amount.kind }
{}

// Where charges are convex, valid labels make an assignment least among all that are inside the words. Under soft bounds it is then least in violations,
// and next in total; and where each book may go wherever it is open, it is a least plan, or there is no plan.
pub fn labels_stand<X: Amount>()
    ensures charged { LeastByLabels X.Amount.kind }
    ensures scored { LeastInScore X.Amount.kind }
    ensures settled { LabelsSettle X.Amount.kind }
{}

// While one book is taken out and others are moved, the counts are those of the assignment with that book put at the hole.
pub fn hole_stands<X: Amount>()
    ensures { Hole X.Amount.kind }
{}

// A search may begin from any assignment, its steps keep its invariant, and so do those of the walk; where the search ends, the walk back takes the book to its new place: the labels that were
// found are valid for the assignment that comes of it, so that is least, and they say what it costs.
pub fn searches_stand<X: Amount>()
    ensures soft { SoftFits X.Amount.kind }
    ensures cold { ColdValid X.Amount.kind }
    ensures kept { Search X.Amount.kind }
    ensures ended { SearchEnds X.Amount.kind }
    ensures begun { WalkBegins X.Amount.kind }
    ensures walked { Walk X.Amount.kind }
    ensures reassigned { Reassigns X.Amount.kind }
{}

// The same of a search whose starts are given by one class, as for one book: a search may begin from labels that step by the rises, and wherever its first labels are light;
// its steps keep its invariant; where it ends, the walk back takes the book to its new place.
// Stays beside the clauses above, since a theorem on every kind of starts is of Type 1 and the check takes a clause of Type 0 only ("expected type `Type 0`, but this has type `Type 1`").
pub fn class_searches_stand<X: Amount>()
    ensures cold { ColdByRises X.Amount.kind }
    ensures asked { ClassSearchable X.Amount.kind }
    ensures kept { ClassSearch X.Amount.kind }
    ensures ended { ClassSearchEnds X.Amount.kind }
    ensures reassigned { ClassReassigns X.Amount.kind }
{}
