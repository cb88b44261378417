// The report of a money file, as lines of text on a lent sheet.
ghost use Rattle.std.specs.Prelude.{◌≡◌, ◌≤◌, ◌++◌, length, IfOk};
ghost use Rattle.planfile.specs.Lines.{Wrote, fault_line, accepted_line, counts_line, report_answer, report_sheet};

use crate::pen::Pen;
use crate::progress::FileKind;
use crate::reader::{Counts, read};
use crate::refusal::{Fault, Refusal};

// Stays put together by items: tried; std's `write!` promises its text where it answers `Ok`, but never that it does, as `report` must.
fn write_fault(sheet: &mut [u8], fault: Fault) -> usize
    requires { 16384 ≤ length sheet.old }
    ensures { Wrote sheet.old 0 (fault_line fault) sheet.new result }
{
    let mut pen = Pen { sheet, at: 0 };
    pen.item(b"refused ", usize::from(fault.refusal.number()));
    pen.item(b" record ", fault.record);
    pen.item(b" byte ", usize::from(fault.byte));
    pen.text(b"\n");
    pen.at
}

fn write_counts(sheet: &mut [u8], records: usize, counts: Counts) -> usize
    requires { 16384 ≤ length sheet.old }
    ensures { Wrote sheet.old 0 (accepted_line records ++ counts_line counts) sheet.new result }
{
    let mut pen = Pen { sheet, at: 0 };
    pen.item(b"accepted ", records);
    pen.text(b" records\n");
    pen.item(b"classes ", counts.classes);
    pen.item(b" weekends ", counts.weekends);
    pen.item(b" books ", counts.books);
    pen.item(b" bounds ", counts.bounds);
    pen.item(b" quotes ", counts.quotes);
    pen.text(b"\n");
    pen.at
}

// Writes the report and answers its length; a sheet that is too short stays as it is.
pub fn report(file: &[u8], sheet: &mut [u8]) -> Result<usize, Fault>
    ensures answer { result ≡ report_answer file.now (length sheet.old) }
    ensures sheet { sheet.new ≡ report_sheet file.now sheet.old }
    ensures fits { IfOk result (λ n. n ≤ length sheet.old) }
{
    if sheet.len() < 16384 {
        return Err(Refusal::Sheet.at(0).in_record(0));
    }
    match read(FileKind::Money, file) {
        Ok(plan) => Ok(write_counts(sheet, file.len() / 16, plan.counts())),
        Err(fault) => Ok(write_fault(sheet, fault)),
    }
}
