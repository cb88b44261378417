// Reading a whole file: its first fault, or what it describes.
ghost use Rattle.std.specs.Prelude.{◌≡◌, ◌+◌, ◌<◌, ◌≤◌, length, Ok};
ghost use Rattle.planfile.specs.Progress.{start};
ghost use Rattle.std.specs.List.{slice_get};
ghost use Rattle.planfile.specs.Laws.{Tells};
ghost use Rattle.planfile.specs.Reading.{second_number as the_second_number, bound_of as the_bound_of, quote_of as the_quote_of, counts_of, finished, walked, body, sectioned, described, answered, read_file};

use crate::fields::{Price, read_price};
use crate::progress::{FileKind, Progress, Stage};
use crate::records::step;
use crate::refusal::{Fault, Refusal};

// How many books of a class and of those below it a weekend takes.
#[derive(Clone, Copy, PartialEq, Eq, Debug)]
pub struct Bound {
    pub weekend: u8,
    pub class: u8,
    pub lower: u8,
    pub upper: u8,
}

// What it costs to move a book on a weekend that it may use.
#[derive(Clone, Copy, PartialEq, Eq, Debug)]
pub struct Quote {
    pub book: u8,
    pub weekend: u8,
    pub price: Price,
}

// An accepted file: its records, kind by kind, as they stand in it.
#[derive(Clone, Copy)]
pub struct PlanFile<'a> {
    classes: &'a [[u8; 16]],
    weekends: usize,
    books: &'a [[u8; 16]],
    bounds: &'a [[u8; 16]],
    quotes: &'a [[u8; 16]],
    limit: Price,
}

// How many classes, weekends, books, bounds and quotes a file names.
#[derive(Clone, Copy, PartialEq, Eq, Debug)]
pub struct Counts {
    pub classes: usize,
    pub weekends: usize,
    pub books: usize,
    pub bounds: usize,
    pub quotes: usize,
}

impl PlanFile<'_> {
    pub fn counts(&self) -> Counts
        ensures { result ≡ counts_of (described self.now) }
    {
        Counts {
            classes: self.classes.len(),
            weekends: self.weekends,
            books: self.books.len(),
            bounds: self.bounds.len(),
            quotes: self.quotes.len(),
        }
    }

    // The parent of a class; class 0 is its own. None where the file names no such class.
    pub fn parent(&self, class: usize) -> Option<u8>
        ensures { result ≡ slice_get (described self.now).parents class }
    {
        self.classes.get(class).map(second_number)
    }

    // The class of a book. None where the file names no such book.
    pub fn class(&self, book: usize) -> Option<u8>
        ensures { result ≡ slice_get (described self.now).classes book }
    {
        self.books.get(book).map(second_number)
    }

    // The bound at this place of the file's bounds, if there is one.
    pub fn bound(&self, at: usize) -> Option<Bound>
        ensures { result ≡ slice_get (described self.now).bounds at }
    {
        self.bounds.get(at).map(bound_of)
    }

    // The quote at this place of the file's quotes, if there is one.
    pub fn quote(&self, at: usize) -> Option<Quote>
        ensures { result ≡ slice_get (described self.now).quotes at }
    {
        self.quotes.get(at).map(quote_of)
    }

    // What the sum of the quotes of a plan may come to.
    pub fn limit(&self) -> Price
        ensures { result ≡ (described self.now).limit }
    {
        self.limit
    }
}

fn second_number(raw: &[u8; 16]) -> u8
    ensures { result ≡ the_second_number raw.now }
{
    let [_, _, number, ..] = *raw;
    number
}

fn bound_of(raw: &[u8; 16]) -> Bound
    ensures { result ≡ the_bound_of raw.now }
{
    let [_, weekend, class, lower, upper, ..] = *raw;
    Bound {
        weekend,
        class,
        lower,
        upper,
    }
}

fn quote_of(raw: &[u8; 16]) -> Quote
    ensures { result ≡ the_quote_of raw.now }
{
    let [_, book, weekend, ..] = *raw;
    Quote {
        book,
        weekend,
        price: read_price(raw),
    }
}

// A file of `count` records ends soundly after its limit.
fn finish(count: usize, so_far: Progress) -> Result<Progress, Fault>
    ensures { result ≡ finished count so_far }
{
    match so_far.stage {
        Stage::Limit => Ok(so_far),
        _ => Err(Refusal::Letter.at(0).in_record(count)),
    }
}

// The first fault of the records, or how many there are of each kind.
#[tactic(auto, using(crate::proofs::Walks::walk_end, crate::proofs::Walks::walk_on, crate::proofs::Walks::step_placed, crate::proofs::Walks::turn_ok))]
fn walk(kind: FileKind, rows: &[[u8; 16]]) -> Result<Progress, Fault>
    requires { length rows.now ≤ 2193 }
    ensures { result ≡ walked kind 0 start rows.now }
{
    let mut so_far = Progress::default();
    for (i, raw) in rows.iter().enumerate() {
        so_far = step(kind, so_far, raw).map_err(|spot| spot.in_record(i))?;
    }
    finish(rows.len(), so_far)
}

// The records of a sound file, kind by kind.
fn sections(rows: &[[u8; 16]], end: Progress) -> PlanFile<'_>
    requires { body end + 1 ≡ length rows.now }
    ensures { described result ≡ sectioned end rows.now }
{
    let (classes, rest) = rows.split_at(usize::from(end.classes));
    let (weekends, rest) = rest.split_at(usize::from(end.weekends));
    let (books, rest) = rest.split_at(usize::from(end.books));
    let (bounds, rest) = rest.split_at(usize::from(end.bounds));
    let (quotes, rest) = rest.split_at(usize::from(end.quotes));
    PlanFile {
        classes,
        weekends: weekends.len(),
        books,
        bounds,
        quotes,
        limit: read_price(&rest[0]),
    }
}

// What the file describes, or its first fault: a file is accepted exactly when it is the layout of a proper
// description, and what is answered is that one, of which there is no other.
#[tactic(auto, using(crate::proofs::Walks::walked_placed, crate::proofs::Walks::read_err, crate::proofs::Layouts::tells_all), unfolding(crate::specs::Reading::bad_size))]
pub fn read(kind: FileKind, file: &[u8]) -> Result<PlanFile<'_>, Fault>
    ensures answer { answered result ≡ read_file kind file.now }
    ensures tells { Tells kind file.now (answered result) }
{
    let (rows, rest) = file.as_chunks::<16>();
    if rows.is_empty() || !rest.is_empty() || rows.len() > 2193 {
        return Err(Refusal::Size.at(0).in_record(0));
    }
    let end = walk(kind, rows)?;
    Ok(sections(rows, end))
}
