// What a book file holds: its book, which answers from the file's own bytes, and the names of its tags.
ghost use Rattle.std.specs.Prelude.{◌≡◌};

use crate::names::Names;
use crate::table::{SelectingTableBook, TableBook};

// A book and the names of its tags.
#[derive(Clone, Copy)]
pub struct NamedBook<'a, B> {
    pub book: B,
    pub names: Names<'a>,
}

// What a file of kind 0 holds.
pub type ShapeFile<'a> = NamedBook<'a, TableBook<'a>>;

// What a file of kind 1 holds.
pub type SelectingFile<'a> = NamedBook<'a, SelectingTableBook<'a>>;

// A file of either kind.
#[derive(Clone, Copy)]
pub enum BookFile<'a> {
    Shape(ShapeFile<'a>),
    Selecting(SelectingFile<'a>),
}

impl<'a, B: Copy> NamedBook<'a, B> {
    // The book that answers from this file's tables.
    pub fn book(&self) -> B
        ensures { result ≡ self.now.book }
    {
        self.book
    }
}
