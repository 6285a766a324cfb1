// The header of a book file: ten bytes that say what follows.
ghost use Rattle.std.specs.Prelude.{◌≡◌, ◌*◌};
ghost use Rattle.book_file.specs.Files.{entries, kind_read, mark_size, tables_size};

use book::fault::BookFault;

#[derive(Clone, Copy)]
pub enum Kind {
    Shape,
    Selecting,
}

// The kind that a byte of the header stands for.
impl TryFrom<u8> for Kind {
    type Error = BookFault;

    ghost try_from_gives = { λ byte r. r ≡ kind_read byte };

    fn try_from(byte: u8) -> Result<Self, BookFault> {
        match byte {
            0 => Ok(Kind::Shape),
            1 => Ok(Kind::Selecting),
            _ => Err(BookFault::HeaderNumber { at: 8 }),
        }
    }
}

// The numbers of the header.
#[derive(Clone, Copy)]
pub struct Header {
    pub states: u16,
    pub trees: u16,
    // the tags that the file lists, tag 0 included
    pub columns: u8,
    pub kind: Kind,
    pub start: u16,
}

impl Header {
    // How many entries the tables for `enter` and `up` have each.
    pub(crate) fn entries(self) -> usize
        ensures { result ≡ entries self }
    {
        usize::from(self.states) * usize::from(self.columns)
    }

    // How many entries the table for `mark` has.
    pub(crate) fn marks(self) -> usize
        ensures { result ≡ mark_size self.kind (entries self) }
    {
        match self.kind {
            Kind::Shape => 0,
            Kind::Selecting => self.entries(),
        }
    }

    // How many entries the table for `side` has.
    pub(crate) fn sides(self) -> usize
        ensures { result ≡ self.states * self.trees }
    {
        usize::from(self.states) * usize::from(self.trees)
    }

    // How many bytes all tables have together.
    pub(crate) fn tables(self) -> usize
        ensures { result ≡ tables_size self }
    {
        usize::from(self.states) + self.entries() + self.marks() + self.entries() + self.sides()
    }
}
