// The report of a file, and the sheet that it is written on.
use crate::files::{board_z, book, largest, limit, strained_limit};
use planfile::report;
use std::alloc::{AllocError, Global};
use std::process::Abort;
use std::test::Fail;

// A sheet of this length, with a byte at each place that tells it from its neighbours.
fn marked_sheet(heap: Global, room: usize) -> Result<Vec<u8>, AllocError> {
    (0..room).map(|i| (i % 251) as u8).collect(heap)
}

// The report is this text, in front on the sheet, and the rest of the sheet is as it was.
fn reports(
    rt: &(impl Abort + AllocGlobal),
    file: &[u8],
    room: usize,
    text: &[u8],
) -> Result<(), Fail> {
    let before = marked_sheet(rt.alloc(), room)?;
    let mut sheet = marked_sheet(rt.alloc(), room)?;
    let length = report(file, &mut sheet).map_err(|_| Fail::new("no report"))?;
    assert_eq!(rt; length, text.len());
    assert!(rt; length <= sheet.len() && length <= before.len());
    assert!(rt; &sheet[0..length] == text);
    assert!(rt; &sheet[length..] == &before[length..]);
    Ok(())
}

// The sheet is too short, whatever the file, and stays as it was.
fn reports_nothing(rt: &(impl Abort + AllocGlobal), file: &[u8], room: usize) -> Result<(), Fail> {
    let before = marked_sheet(rt.alloc(), room)?;
    let mut sheet = marked_sheet(rt.alloc(), room)?;
    let fault = report(file, &mut sheet).err().ok_or("a report")?;
    assert_eq!(rt;
        (fault.refusal.number(), fault.record, fault.byte),
        (8, 0, 0)
    );
    assert!(rt; sheet == before);
    Ok(())
}

#[test]
fn reports_an_accepted_file(rt: HostRuntime) -> Result<(), Fail> {
    let rows = board_z();
    let file = rows.as_flattened();
    let text = b"accepted 17 records\nclasses 2 weekends 2 books 3 bounds 3 quotes 6\n";
    reports(&rt, file, 16384, text)?;
    reports(&rt, file, 20000, text)?;
    let mut rows = largest(rt.alloc())?;
    rows.push(limit(0))?;
    let text = b"accepted 2193 records\nclasses 8 weekends 16 books 120 bounds 128 quotes 1920\n";
    reports(&rt, rows.as_slice().as_flattened(), 16384, text)
}

#[test]
fn reports_a_refusal(rt: HostRuntime) -> Result<(), Fail> {
    reports(&rt, b"", 16384, b"refused 1 record 0 byte 0\n")?;
    let mut rows = board_z();
    // a report is of a money file
    rows[16] = strained_limit(i32::MIN, 11);
    reports(
        &rt,
        rows.as_flattened(),
        16384,
        b"refused 4 record 16 byte 7\n",
    )?;
    rows[5] = book(1, 2);
    reports(
        &rt,
        rows.as_flattened(),
        20000,
        b"refused 3 record 5 byte 2\n",
    )?;
    let mut rows = largest(rt.alloc())?;
    rows.push(limit(i64::MAX))?;
    reports(
        &rt,
        rows.as_slice().as_flattened(),
        16384,
        b"refused 7 record 2192 byte 8\n",
    )
}

#[test]
fn refuses_a_short_sheet(rt: HostRuntime) -> Result<(), Fail> {
    let rows = board_z();
    let file = rows.as_flattened();
    reports_nothing(&rt, file, 16383)?;
    reports_nothing(&rt, file, 0)?;
    reports_nothing(&rt, b"", 16383)
}
