// Books of tables that come from elsewhere than a file's bytes.
use crate::samples::SEAL;
use book::selecting_book::SelectingBook;
use book::shape_book::ShapeBook;
use book_file::books::{SelectingTables, ShapeTables};
use book_file::file::{BookFile, NamedBook};
use book_file::reading::read_book;
use std::test::Fail;

// The tables of the shortest file, but for that for `enter`.
fn shortest_tables<'a>(enter: &'a [u8]) -> ShapeTables<'a> {
    ShapeTables {
        states: 1,
        trees: 1,
        columns: 1,
        start: 0,
        accept: b"\x01",
        enter,
        up: b"\0",
        side: b"\0",
    }
}

// The seal file with another table for `mark`.
fn seal_file<'a>(
    bytes: &'a [u8],
    mark: &'a [u8],
) -> Result<NamedBook<'a, SelectingTables<'a>>, Fail> {
    match read_book(bytes) {
        Ok(BookFile::Selecting(file)) => {
            let shape = file.book().tables().shape;
            Ok(NamedBook {
                book: SelectingTables { shape, mark },
                names: file.names,
            })
        }
        _ => Err(Fail::new("no selecting file")),
    }
}

#[test]
fn whole_tables_answer(rt: HostRuntime) -> Result<(), Fail> {
    let shortest = shortest_tables(&[0]).book();
    assert!(rt; shortest.width() == 1 && shortest.accepts(0) && shortest.enter(0, 31) == 0);
    let file = seal_file(&SEAL, &[4; 15])?;
    let book = file.book().book();
    assert!(rt; book.width() == 5 && book.mark(0, 0) == 4 && book.mark(4, 31) == 4);
    assert!(rt; book.enter(2, 0) == 2 && book.back(1, 0, 2) == 2 && book.accepts(2));
    assert!(rt; file.names.tag_of(b"seal") == 2);
    Ok(())
}

#[test]
fn entry_out_of_range_leaves_no_states(rt: HostRuntime) -> Result<(), Fail> {
    let shortest = shortest_tables(&[1]).book();
    assert!(rt; shortest.width() == 0 && !shortest.accepts(0));
    let book = seal_file(&SEAL, &[5; 15])?.book().book();
    assert!(rt; book.width() == 0 && book.mark(0, 0) == 0 && !book.accepts(2));
    Ok(())
}
