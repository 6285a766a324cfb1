// Reading a book file from its bytes.
ghost use Rattle.std.specs.Prelude.{◌≡◌, ◌<◌, length, slice_index, Ok, IfOk};
ghost use Rattle.book.specs.declared.fault.BookFault.TheVariants.{HeaderNumber};
ghost use Rattle.name_bytes.specs.Names.{between};
ghost use Rattle.book_file.specs.Answering.{Answering};
ghost use Rattle.book_file.specs.Files.{file_with, given, header, reading};
ghost use Rattle.book_file.specs.Laws.{WrittenOnce};
ghost use Rattle.book_file.specs.Names.{listed};
ghost use Rattle.book_file.specs.Parts.{HeaderFits, TablesFilled, file_of, read_file, rows_of};

use crate::file::{BookFile, NamedBook};
use crate::header::{Header, Kind};
use crate::names::Names;
use crate::rest::{Rest, Tables};
use crate::table::{SelectingTableBook, TableBook};
use book::fault::BookFault;
use book::limits::TAGS;

const HEADER: usize = 10;

// The greatest number of states and of tree states in a file of version 1.
const STATES: u8 = 64;

// A number of the header, which is from 1 to a limit.
fn number_at(bytes: &[u8], at: usize, most: u8) -> Result<u8, BookFault>
    requires { at < length bytes.now }
    ensures { result ≡ given (between 1 most (slice_index bytes.now at)) (HeaderNumber at) (Ok (slice_index bytes.now at)) }
{
    let number = bytes[at];
    if (1..=most).contains(&number) {
        Ok(number)
    } else {
        Err(BookFault::HeaderNumber { at })
    }
}

// The header's length, its letters, its version, and then its numbers from the left.
fn read_header(bytes: &[u8]) -> Result<Header, BookFault>
    ensures value { result ≡ header bytes.now }
    ensures fits { IfOk result HeaderFits }
{
    if bytes.len() < HEADER {
        return Err(BookFault::ShortHeader {
            length: bytes.len(),
        });
    }
    if !bytes.starts_with(b"SEL") {
        return Err(BookFault::Letters);
    }
    if bytes[3] != 1 || bytes[4] != 0 {
        return Err(BookFault::Version);
    }
    let states = number_at(bytes, 5, STATES)?;
    let trees = number_at(bytes, 6, STATES)?;
    let columns = number_at(bytes, 7, TAGS)?;
    let kind = Kind::try_from(bytes[8])?;
    let start = bytes[9];
    if start >= states {
        return Err(BookFault::HeaderNumber { at: 9 });
    }
    Ok(Header {
        states: u16::from(states),
        trees: u16::from(trees),
        columns,
        kind,
        start: u16::from(start),
    })
}

// The file of a header, tables and names.
fn file_with<'a>(header: Header, tables: Tables<'a>, names: Names<'a>) -> BookFile<'a>
    requires fits { HeaderFits header }
    requires filled { TablesFilled header tables }
    ensures { file_of result ≡ file_with header (rows_of tables.entry) (listed names.entry) }
{
    let shape = TableBook {
        states: header.states,
        trees: header.trees,
        columns: header.columns,
        start: header.start,
        accept: tables.accept,
        enter: tables.enter,
        up: tables.up,
        side: tables.side,
    };
    match header.kind {
        Kind::Shape => BookFile::Shape(NamedBook { book: shape, names }),
        Kind::Selecting => {
            let book = SelectingTableBook {
                shape,
                mark: tables.mark,
            };
            BookFile::Selecting(NamedBook { book, names })
        }
    }
}

// The book file in these bytes, or its first fault: that of the header, then of the tables, which are looked at only
// where all are whole, then of the names. What it says of the bytes: from which file they were written, or that they
// were written from none; and of a file, that its book answers from the tables that were written.
pub fn read_book<'a>(bytes: &'a [u8]) -> Result<BookFile<'a>, BookFault>
    ensures value { read_file result ≡ reading bytes.now }
    ensures written { WrittenOnce bytes.now (read_file result) }
    ensures answers { IfOk result (Answering bytes.now) }
{
    let header = read_header(bytes)?;
    if bytes.len() < HEADER + header.tables() {
        return Err(BookFault::CutOff {
            length: bytes.len(),
        });
    }
    let (_, behind) = bytes.split_at(HEADER);
    let mut rest = Rest {
        bytes: behind,
        at: HEADER,
    };
    let tables = rest.tables(header)?;
    let names = Names {
        packed: rest.bytes,
        count: header.columns - 1,
    };
    rest.names(names.count)?;
    Ok(file_with(header, tables, names))
}
