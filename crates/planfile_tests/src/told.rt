// What is told of a file, and how it is checked.
use crate::files::{board_z, book, bound, class, strained_limit, strained_quote, weekend};
use planfile::{FileKind, PlanFile, read};
use std::alloc::Global;
use std::process::Abort;
use std::test::Fail;

// The number, the record and the byte of a refusal; None where the file is accepted.
pub(crate) fn told(kind: FileKind, file: &[u8]) -> Option<(u8, usize, u8)> {
    let fault = read(kind, file).err()?;
    Some((fault.refusal.number(), fault.record, fault.byte))
}

// A record of board Z, what it is replaced by, and the refusal that is then told of it, by its number and its byte;
// None where it is accepted.
#[derive(Clone, Copy)]
pub(crate) struct Case(
    pub(crate) usize,
    pub(crate) [u8; 16],
    pub(crate) Option<(u8, u8)>,
);

// Reads files of one kind, and stops the test by `rt` where something else is told of one.
#[derive(Drop)]
pub(crate) struct Reader<'a, R> {
    pub(crate) rt: &'a R,
    kind: FileKind,
}

pub(crate) fn money<R>(rt: &R) -> Reader<'_, R> {
    Reader {
        rt,
        kind: FileKind::Money,
    }
}

pub(crate) fn ranked<R>(rt: &R) -> Reader<'_, R> {
    Reader {
        rt,
        kind: FileKind::Ranked,
    }
}

impl<R: Abort + AllocGlobal> Reader<'_, R> {
    pub(crate) fn refused(&self, rows: &[[u8; 16]], number: u8, record: usize, byte: u8) {
        self.told_at(rows, record, Some((number, byte)));
    }

    // What is told of the record number `at`: a refusal's number and its byte, or None where the file is accepted.
    pub(crate) fn told_at(&self, rows: &[[u8; 16]], at: usize, expected: Option<(u8, u8)>) {
        let expected = expected.map(|(number, byte)| (number, at, byte));
        assert_eq!(self.rt; told(self.kind, rows.as_flattened()), expected);
    }

    pub(crate) fn each_told(&self, cases: &[Case]) {
        for (i, Case(at, row, expected)) in cases.iter().enumerate() {
            let mut rows = board_z();
            assert!(self.rt; *at < 17);
            rows[*at] = *row;
            let expected = expected.map(|(number, byte)| (number, *at, byte));
            let told = told(self.kind, rows.as_flattened());
            assert_eq!(self.rt; told, expected, "case {i}");
        }
    }

    // The file is accepted, and what its plan hands out are the very records of the file.
    pub(crate) fn accepted(&self, rows: &[[u8; 16]]) -> Result<(), Fail> {
        let file = rows.as_flattened();
        assert_eq!(self.rt; told(self.kind, file), None);
        let plan = read(self.kind, file).map_err(|_| Fail::new("refused"))?;
        let again = records_of(self.rt.alloc(), &plan)?;
        assert!(self.rt; again.as_slice().as_flattened() == file);
        Ok(())
    }
}

// Stays loops: what a plan hands out by number may be missing, and `extend` has no `?`.
fn records_of(heap: Global, plan: &PlanFile<'_>) -> Result<Vec<[u8; 16]>, Fail> {
    let counts = plan.counts();
    let mut rows = Vec::new(heap);
    for c in 0..counts.classes {
        let parent = plan.parent(c).ok_or("a class is missing")?;
        rows.push(class(u8::try_from(c)?, parent))?;
    }
    for w in 0..counts.weekends {
        rows.push(weekend(u8::try_from(w)?))?;
    }
    for b in 0..counts.books {
        let class = plan.class(b).ok_or("a book is missing")?;
        rows.push(book(u8::try_from(b)?, class))?;
    }
    for i in 0..counts.bounds {
        let b = plan.bound(i).ok_or("a bound is missing")?;
        rows.push(bound(b.weekend, b.class, b.lower, b.upper))?;
    }
    for i in 0..counts.quotes {
        let q = plan.quote(i).ok_or("a quote is missing")?;
        rows.push(strained_quote(q.book, q.weekend, q.price.strain, q.price.money))?;
    }
    let limit = plan.limit();
    rows.push(strained_limit(limit.strain, limit.money))?;
    Ok(rows)
}
