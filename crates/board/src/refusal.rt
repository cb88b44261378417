// Why a call to the board is refused.
ghost use Rattle.std.specs.Prelude.{◌≡◌};
ghost use Rattle.board.specs.Refusals.{number as number_of};
ghost use Rattle.board.specs.Standing.{roster_refusal};

use plans::RosterFault;

// The refusals of this layer. What each number means, and which decides in a call, is set out in specs/Refusals and specs/Standing.
#[derive(Clone, Copy, PartialEq, Eq, Debug)]
pub enum Refusal {
    // a number in a roster or an entry of a head sheet is out of range or order
    Range = 3,
    // the board lacks the book, the weekend or the class
    Unknown = 5,
    // a lower bound exceeds its upper bound, or that exceeds 120
    Crossed = 6,
    // a limit or an entry of a toll sheet weighs too much
    Heavy = 7,
    // a sheet or the list of classes is too short
    Short = 8,
    // the pair to strike or to pin is shut
    Shut = 9,
    // the pair to reopen is not struck
    NotStruck = 10,
}

impl Refusal {
    // Stays beside the plan file's: neither crate stands on the other, and their refusals differ.
    // The number under which the refusal is told.
    pub fn number(self) -> u8
        ensures { result ≡ number_of self }
    {
        self as u8
    }
}

impl From<RosterFault> for Refusal {
    ghost from_gives = { λ fault refusal. refusal ≡ roster_refusal fault };

    fn from(fault: RosterFault) -> Self {
        match fault {
            RosterFault::Short => Refusal::Short,
            RosterFault::NoRoster => Refusal::Range,
        }
    }
}
