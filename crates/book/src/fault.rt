// Why a book is refused, as a file or as it is made.
ghost use Rattle.std.specs.Prelude.{◌≡◌, Some};
ghost use Rattle.book.specs.Faults.{fault_number, fault_place, fault_text};

use std::error::Error;
use std::fmt;

#[derive(Clone, Copy, Debug, PartialEq, Eq)]
pub enum BookFault {
    // the file has fewer bytes than a header
    ShortHeader { length: usize },
    // the file does not begin with SEL
    Letters,
    // the file is of another version
    Version,
    // a number of the header is out of its range
    HeaderNumber { at: usize },
    // the tables, a name's length or a name is cut off
    CutOff { length: usize },
    // the first byte too many
    ExtraByte { at: usize },
    // a byte of a table is out of its range
    TableEntry { at: usize },
    // a name's length or a byte of a name
    NameByte { at: usize },
    // the steps of a path, their axes or their tags
    PathSteps,
    // the depth of a level shape
    LevelDepth,
}

impl BookFault {
    // The numbers stand here, since a variant with a field has none that `as` could read.
    pub fn number(self) -> u32
        ensures { result ≡ fault_number self }
    {
        match self {
            BookFault::ShortHeader { .. } => 11,
            BookFault::Letters => 12,
            BookFault::Version => 13,
            BookFault::HeaderNumber { .. } => 14,
            BookFault::CutOff { .. } => 15,
            BookFault::ExtraByte { .. } => 16,
            BookFault::TableEntry { .. } => 17,
            BookFault::NameByte { .. } => 18,
            BookFault::PathSteps => 19,
            BookFault::LevelDepth => 20,
        }
    }

    // The offset in the file; a book that is not made from a file has none.
    pub fn place(self) -> Option<usize>
        ensures { result ≡ fault_place self }
    {
        match self {
            BookFault::ShortHeader { length } | BookFault::CutOff { length } => Some(length),
            BookFault::Letters => Some(0),
            BookFault::Version => Some(3),
            BookFault::HeaderNumber { at }
            | BookFault::ExtraByte { at }
            | BookFault::TableEntry { at }
            | BookFault::NameByte { at } => Some(at),
            BookFault::PathSteps | BookFault::LevelDepth => None,
        }
    }
}

impl fmt::Display for BookFault {
    ghost output = { λ fault. Some (fault_text fault) };

    fn fmt<W: fmt::Write>(&self, f: &mut fmt::Formatter<W>) -> fmt::Result {
        let number = self.number();
        match self.place() {
            Some(at) => write!(f, "refused {number} at {at}"),
            None => write!(f, "refused {number}"),
        }
    }
}

impl Error for BookFault {}
