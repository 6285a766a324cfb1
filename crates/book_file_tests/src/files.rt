// Files that are read, and what their names and books answer.
use crate::samples::{SEAL, SHORTEST, seal_with};
use book::selecting_book::SelectingBook;
use book::shape_book::ShapeBook;
use book_file::file::{BookFile, SelectingFile, ShapeFile};
use book_file::reading::read_book;
use std::test::Fail;

// The shape file in these bytes.
fn shape_file<'a>(bytes: &'a [u8]) -> Result<ShapeFile<'a>, Fail> {
    match read_book(bytes) {
        Ok(BookFile::Shape(file)) => Ok(file),
        _ => Err(Fail::new("no shape file")),
    }
}

// The selecting file in these bytes.
fn selecting_file<'a>(bytes: &'a [u8]) -> Result<SelectingFile<'a>, Fail> {
    match read_book(bytes) {
        Ok(BookFile::Selecting(file)) => Ok(file),
        _ => Err(Fail::new("no selecting file")),
    }
}

#[test]
fn shortest_file(rt: HostRuntime) -> Result<(), Fail> {
    let file = shape_file(&SHORTEST)?;
    let book = file.book();
    assert!(rt; book.width() == 1 && book.start() == 0);
    assert!(rt; book.accepts(0) && !book.accepts(1));
    assert!(rt; book.enter(0, 31) == 0 && book.back(0, 0, 0) == 0);
    assert!(rt; file.names.tag_of(b"a") == 0);
    assert!(rt; file.names.name_of(1).is_none());
    Ok(())
}

#[test]
fn seal_book_answers_from_its_tables(rt: HostRuntime) -> Result<(), Fail> {
    let file = selecting_file(&SEAL)?;
    let book = file.book();
    assert!(rt; book.width() == 5 && book.start() == 0);
    assert!(rt; !book.accepts(1) && book.accepts(2) && !book.accepts(3));
    assert!(rt; book.enter(1, 1) == 0 && book.enter(2, 0) == 2 && book.enter(3, 2) == 3);
    assert!(rt; book.mark(0, 0) == 3 && book.mark(0, 1) == 4 && book.mark(0, 2) == 3);
    assert!(rt; book.back(0, 4, 1) == 1 && book.back(0, 0, 2) == 0);
    assert!(rt; book.back(1, 0, 2) == 2 && book.back(1, 1, 0) == 3);
    assert!(rt; book.back(4, 0, 0) == 4 && book.back(4, 2, 1) == 2);
    Ok(())
}

#[test]
fn start_that_is_not_zero(rt: HostRuntime) -> Result<(), Fail> {
    let bytes = seal_with(9, 4);
    let file = selecting_file(&bytes)?;
    assert!(rt; file.book().start() == 4);
    Ok(())
}

#[test]
fn tags_without_a_column_use_that_of_tag_0(rt: HostRuntime) -> Result<(), Fail> {
    let bytes = seal_with(30, 1);
    let file = selecting_file(&bytes)?;
    let book = file.book();
    assert!(rt; book.mark(0, 0) == 1 && book.mark(0, 2) == 3);
    assert!(rt; book.mark(0, 3) == 1 && book.mark(0, 31) == 1);
    assert!(rt; book.enter(2, 31) == 2 && book.back(1, 0, 31) == 1);
    Ok(())
}

#[test]
fn questions_out_of_range_get_0_or_no(rt: HostRuntime) -> Result<(), Fail> {
    let file = selecting_file(&SEAL)?;
    let book = file.book();
    assert!(rt; book.enter(5, 0) == 0 && book.enter(2, 32) == 0 && book.enter(65535, 255) == 0);
    assert!(rt; book.mark(5, 0) == 0 && book.mark(1, 32) == 0);
    assert!(rt; book.back(5, 0, 0) == 0 && book.back(2, 5, 0) == 0 && book.back(2, 0, 32) == 0);
    assert!(rt; !book.accepts(5) && !book.accepts(65535));
    Ok(())
}

#[test]
fn names_and_their_tags(rt: HostRuntime) -> Result<(), Fail> {
    let file = selecting_file(&SEAL)?;
    let names = file.names;
    assert!(rt; names.tag_of(b"reel") == 1 && names.tag_of(b"seal") == 2);
    assert!(rt; names.tag_of(b"Reel") == 0 && names.tag_of(b"ree") == 0 && names.tag_of(b"") == 0);
    assert!(rt; names.name_of(0).is_none() && names.name_of(3).is_none());
    let name = names.name_of(2).ok_or("no name")?;
    assert!(rt; name == b"seal".as_slice());
    Ok(())
}

#[test]
fn lowest_tag_of_a_name_that_stands_twice(rt: HostRuntime) -> Result<(), Fail> {
    let mut bytes = seal_with(91, b'r');
    bytes[93] = b'e';
    let file = selecting_file(&bytes)?;
    let names = file.names;
    assert!(rt; names.tag_of(b"reel") == 1 && names.tag_of(b"seal") == 0);
    assert!(rt; names.name_of(2).is_some());
    Ok(())
}

#[test]
fn longest_file(rt: HostRuntime) -> Result<(), Fail> {
    let mut bytes = [83, 69, 76, 1, 0, 64, 64, 32, 1, 63].to_vec(rt.alloc())?;
    bytes.extend_from_slice(&[1; 64])?;
    // enter, mark and up, and then side
    for _ in 0..3 * 32 + 64 {
        bytes.extend_from_slice(&[63; 64])?;
    }
    for _ in 0..31 {
        bytes.push(64)?;
        bytes.extend_from_slice(&[b'z'; 64])?;
    }
    assert!(rt; bytes.len() == 12329);
    let file = selecting_file(&bytes)?;
    let book = file.book();
    assert!(rt; book.width() == 64 && book.start() == 63 && book.accepts(63));
    assert!(rt; book.enter(63, 31) == 63 && book.mark(63, 31) == 63 && book.back(63, 63, 31) == 63);
    assert!(rt; book.enter(63, 32) == 0 && book.enter(64, 31) == 0);
    assert!(rt; file.names.name_of(31).is_some() && file.names.name_of(32).is_none());
    Ok(())
}
