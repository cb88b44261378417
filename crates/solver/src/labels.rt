// The table of a search, over a lent sheet of amounts: labels, and marks.
ghost use Rattle.std.specs.Prelude.{◌≡◌, ℕ, ◌<◌, ◌≤◌, length, slice_set};
ghost use Rattle.amounts.specs.Sums.{item};

use crate::marks::Mark;
use crate::nodes::{NEW, NODES};
use amounts::{Amount, Money, Ranked};

// What stands at a place of a lent sheet.
// Stays: a rule of the project (docs/DECISIONS.md): the lent sheet is taken for writing also where it is only read; marks, which are not lent, are read by `&self`.
fn read_at<X: Amount>(sheet: &mut [X], place: usize) -> X
    requires { place < length sheet.old }
    ensures read { result ≡ item X.Amount.kind sheet.old place }
    ensures same { sheet.new ≡ sheet.old }
{
    sheet[place]
}

fn write_at<X: Amount>(sheet: &mut [X], place: usize, amount: X)
    requires { place < length sheet.old }
    ensures { sheet.new ≡ slice_set sheet.old place amount }
{
    sheet[place] = amount;
}

// Zero at every place of a lent sheet.
pub(crate) fn clear_all<X: Amount>(sheet: &mut [X])
    ensures { (i : ℕ) → item X.Amount.kind sheet.new i ≡ X.Amount.kind.none }
{
    sheet.fill_with(|| X::zero());
}

// Zero at the places of the labels that a search is to find. A lent sheet may be far longer, and each search begins with this, so what is behind them is left.
fn clear_new<X: Amount>(sheet: &mut [X])
    requires { 258 ≤ length sheet.old }
    ensures old { (i : ℕ) → i < 129 → item X.Amount.kind sheet.new i ≡ item X.Amount.kind sheet.old i }
    ensures new { (i : ℕ) → 129 ≤ i → i < 258 → item X.Amount.kind sheet.new i ≡ X.Amount.kind.none }
{
    let (_, new) = sheet.split_at_mut(NEW);
    let (found, _) = new.split_at_mut(NODES);
    clear_all(found);
}

// A label is an amount behind a number of violations. The first 129 places have the labels that are valid, one for each node, and the next 129 those that a
// search is finding. Each node that has a label in the search has a mark.
// Stays: violations, amounts and marks are in three lists, since the lent sheet has room for amounts alone.
#[derive(Drop)]
pub(crate) struct Labels<'a, X> {
    pub(crate) heads: [Money; 258],
    pub(crate) sheet: &'a mut [X],
    pub(crate) marks: [Option<Mark>; 129],
    ghost sized: { (length heads ≡ 258) × (258 ≤ length sheet.now) × (length marks ≡ 129) },
}

impl<'a, X: Amount> Labels<'a, X> {
    ghost use Rattle.std.specs.Prelude.{replicate};
    ghost use Rattle.solver.specs.Soft.{soft_kind};
    ghost use Rattle.solver.specs.Held.{label as the_label, memory_of, new_of, old_of, written};

    // All labels zero, and no marks.
    pub(crate) fn over(sheet: &'a mut [X]) -> Self
        requires { 258 ≤ length sheet.old }
        ensures { (v : ℕ) → old_of X.Amount.kind (memory_of result) v ≡ (soft_kind X.Amount.kind).none }
    {
        clear_all(&mut *sheet);
        Labels {
            heads: [Money { value: 0 }; 258],
            sheet,
            marks: [None; 129],
        }
    }

    pub(crate) fn read(&mut self, place: usize) -> Ranked<Money, X>
        requires { place < 258 }
        ensures read { result ≡ the_label X.Amount.kind self.old.heads self.old.sheet.now place }
        ensures same { memory_of self.new ≡ memory_of self.old }
    {
        Ranked {
            first: self.heads[place],
            second: read_at(&mut *self.sheet, place),
        }
    }

    pub(crate) fn write(&mut self, place: usize, label: Ranked<Money, X>)
        requires { place < 258 }
        ensures { memory_of self.new ≡ written (memory_of self.old) place label }
    {
        self.heads[place] = label.first;
        write_at(&mut *self.sheet, place, label.second);
    }

    // The labels that a search has found become those that are valid.
    pub(crate) fn adopt(&mut self)
        ensures { old_of X.Amount.kind (memory_of self.new) ≡ new_of X.Amount.kind (memory_of self.old) }
    {
        self.heads.copy_within(NEW.., 0);
        self.sheet.copy_within(NEW..NEW + NODES, 0);
    }

    // Zero for every label that a search is to find, and the same mark for all nodes, or none.
    pub(crate) fn reset(&mut self, mark: Option<Mark>)
        ensures new { (v : ℕ) → new_of X.Amount.kind (memory_of self.new) v ≡ (soft_kind X.Amount.kind).none }
        ensures old { old_of X.Amount.kind (memory_of self.new) ≡ old_of X.Amount.kind (memory_of self.old) }
        ensures marks { self.new.marks ≡ replicate 129 mark }
    {
        clear_new(&mut self.heads);
        clear_new(&mut *self.sheet);
        self.marks = [mark; 129];
    }
}
