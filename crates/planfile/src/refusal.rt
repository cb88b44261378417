// Why a plan file, or a sheet lent for its report, is refused.
ghost use Rattle.std.specs.Prelude.{◌≡◌, Ok};
ghost use Rattle.planfile.specs.Refusals.{number_of, spot, fault_at};
ghost use Rattle.planfile.specs.Records.{refuse};

// The faults of this layer. What each number means is set out once, by `number_of` in specs.
#[derive(Clone, Copy, PartialEq, Eq, Debug)]
pub enum Refusal {
    // the file is empty, its length no multiple of 16, or it has too many records
    Size = 1,
    // a letter is unknown or may not stand there, or the file ends early
    Letter = 2,
    // a number is out of range or out of order
    Number = 3,
    // a byte that must be zero is not
    Padding = 4,
    // a lower bound exceeds its upper bound, or that exceeds the most books
    Bounds = 6,
    // a quote or a limit weighs too much
    Weight = 7,
    // the sheet lent for the answer is too short
    Sheet = 8,
}

impl Refusal {
    // The number under which the refusal is told.
    // Stays beside the board's: neither crate stands on the other, and their refusals differ.
    pub fn number(self) -> u8
        ensures { result ≡ number_of self }
    {
        self as u8
    }

    // The refusal told at this byte of a record.
    pub(crate) fn at(self, byte: u8) -> Spot
        ensures { result ≡ spot self byte }
    {
        Spot {
            refusal: self,
            byte,
        }
    }
}

// A refusal inside one record, and the byte where it is told, from 0.
#[derive(Clone, Copy)]
pub(crate) struct Spot {
    pub(crate) refusal: Refusal,
    pub(crate) byte: u8,
}

impl Spot {
    // The refusal, where this is so.
    pub(crate) fn when(self, is_so: bool) -> Result<(), Spot>
        ensures { result ≡ refuse self.refusal self.byte is_so (Ok tt) }
    {
        if is_so { Err(self) } else { Ok(()) }
    }

    // The same, told of the file whose record number `index` this is.
    // Stays a method, and no `From`: it needs the record's number too.
    pub(crate) fn in_record(self, index: usize) -> Fault
        ensures { result ≡ fault_at index self }
    {
        Fault {
            refusal: self.refusal,
            record: index,
            byte: self.byte,
        }
    }
}

// A refusal of a file: the record and the byte where it is told, each from 0.
#[derive(Clone, Copy, PartialEq, Eq, Debug)]
pub struct Fault {
    pub refusal: Refusal,
    pub record: usize,
    pub byte: u8,
}
