// Text into a lent sheet of bytes.
ghost use Rattle.std.specs.Prelude.{◌+◌, ◌≤◌, ◌++◌, length, decimal};
ghost use Rattle.planfile.specs.Lines.{Writes};

use itoa::Buffer;

// A place on a lent sheet, which moves on with what is written.
// Stays a slice and a place in it: tried as std's `Cursor`, whose `write` does not say that it keeps the lent slice ("`cc` met a bound of its own before the equations had joined" the two `ghost_name`s).
#[derive(Drop)]
pub(crate) struct Pen<'a> {
    pub(crate) sheet: &'a mut [u8],
    pub(crate) at: usize,
}

impl Pen<'_> {
    #[tactic(auto, using(crate::proofs::Writes::wrote_text))]
    pub(crate) fn text(&mut self, text: &[u8])
        requires { self.old.at + length text.now ≤ length self.old.sheet.now }
        ensures { Writes self.old text.now self.new }
    {
        let end = self.at + text.len();
        self.sheet[self.at..end].copy_from_slice(text);
        self.at = end;
    }

    // A word or two and then a number, which has at most 20 digits.
    pub(crate) fn item(&mut self, label: &[u8], n: usize)
        requires { self.old.at + length label.now + 20 ≤ length self.old.sheet.now }
        ensures short { self.new.at ≤ self.old.at + length label.now + 20 }
        ensures wrote { Writes self.old (label.now ++ decimal n) self.new }
    {
        let mut digits = Buffer::new();
        self.text(label);
        self.text(digits.format(n).as_bytes());
    }
}
