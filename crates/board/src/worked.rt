// The worked cases, and theorems on every run of calls. Each function has a theorem for its contract and does nothing else.
ghost use Rattle.board.specs.Cases.{CasesStand};
ghost use Rattle.board.specs.Theorems.{RunsSound, RunsUncrossed, RunsNeverWrong};

use amounts::Amount;

// Every worked case is right.
pub fn cases_stand()
    ensures { CasesStand }
{}

// Whatever calls are sent to an opened board, the problem that they make of it is sound and its bounds do not cross; so neither
// check says yes where there is a plan within the limit.
pub fn runs_stand<X: Amount>()
    ensures sound { RunsSound X.Amount.kind }
    ensures straight { RunsUncrossed X.Amount.kind }
    ensures checks { RunsNeverWrong X.Amount.kind }
{}
