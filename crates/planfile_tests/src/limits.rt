// The most that a file may name, and its size.
use crate::files::{add_bounds, add_quotes, board, board_z, bound, largest, limit, quote};
use crate::told::{money, ranked, told};
use planfile::FileKind;
use std::test::Fail;

#[test]
fn accepts_the_largest_file_and_no_larger(rt: HostRuntime) -> Result<(), Fail> {
    let mut rows = largest(rt.alloc())?;
    money(&rt).refused(&rows, 2, 2192, 0);
    rows.push(limit(0))?;
    assert_eq!(rt; rows.len(), 2193);
    money(&rt).accepted(&rows)?;
    ranked(&rt).accepted(&rows)?;
    rows.push(limit(0))?;
    money(&rt).refused(&rows, 1, 0, 0);
    ranked(&rt).refused(&rows, 1, 0, 0);
    Ok(())
}

#[test]
fn tells_a_class_a_weekend_or_a_book_too_many(rt: HostRuntime) -> Result<(), Fail> {
    let classes = board(rt.alloc(), 9, 1, 1)?;
    money(&rt).refused(&classes, 3, 8, 1);
    let weekends = board(rt.alloc(), 8, 17, 1)?;
    money(&rt).refused(&weekends, 3, 24, 1);
    let books = board(rt.alloc(), 8, 16, 121)?;
    money(&rt).refused(&books, 3, 144, 1);
    Ok(())
}

#[test]
fn tells_a_bound_too_many(rt: HostRuntime) -> Result<(), Fail> {
    for (weekend, class, byte) in [(15, 7, 1), (15, 8, 2), (16, 0, 1)] {
        let mut rows = board(rt.alloc(), 8, 16, 120)?;
        add_bounds(&mut rows, 16, 8)?;
        rows.push(bound(weekend, class, 0, 120))?;
        rows.push(limit(0))?;
        money(&rt).refused(&rows, 3, 272, byte);
    }
    Ok(())
}

#[test]
fn tells_a_quote_too_many(rt: HostRuntime) -> Result<(), Fail> {
    for (book, weekend, byte) in [(119, 15, 1), (119, 16, 2), (120, 0, 1)] {
        let mut rows = board(rt.alloc(), 8, 16, 120)?;
        add_quotes(&mut rows, 120, 16)?;
        rows.push(quote(book, weekend, 1))?;
        rows.push(limit(0))?;
        money(&rt).refused(&rows, 3, 2064, byte);
    }
    Ok(())
}

#[test]
fn tells_a_size_that_no_file_has(rt: HostRuntime) -> Result<(), Fail> {
    let mut file = Vec::from_slice(rt.alloc(), board_z().as_flattened())?;
    assert!(rt; file.len() == 272);
    assert_eq!(rt; told(FileKind::Money, &file[0..0]), Some((1, 0, 0)));
    assert_eq!(rt; told(FileKind::Money, &file[0..1]), Some((1, 0, 0)));
    assert_eq!(rt; told(FileKind::Money, &file[0..15]), Some((1, 0, 0)));
    assert_eq!(rt; told(FileKind::Money, &file[0..17]), Some((1, 0, 0)));
    assert_eq!(rt; told(FileKind::Money, &file[0..271]), Some((1, 0, 0)));
    assert_eq!(rt; told(FileKind::Ranked, &file[0..271]), Some((1, 0, 0)));
    assert_eq!(rt; told(FileKind::Money, &file), None);
    file.push(b'C')?;
    assert_eq!(rt; told(FileKind::Money, &file), Some((1, 0, 0)));
    // the size is looked at before the records
    let most = vec![in rt.alloc(); 0u8; 35088]?;
    assert_eq!(rt; told(FileKind::Money, &most), Some((2, 0, 0)));
    let more = vec![in rt.alloc(); 0u8; 35104]?;
    assert_eq!(rt; told(FileKind::Money, &more), Some((1, 0, 0)));
    Ok(())
}
