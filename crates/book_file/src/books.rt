// Books of tables that come from elsewhere than a file's bytes, as those of a file whose marks are exchanged. Nothing is known
// of such tables, so they are looked through as their book is made: where one is not whole, or an entry is out of range, the
// book has no states.
ghost use Rattle.std.specs.Prelude.{◌≡◌, ◌<◌, true};
ghost use Rattle.book_file.specs.Books.{book_tables, filled_mark, selecting_mark, selecting_tables, shape_tables, tables_in};
ghost use Rattle.book_file.specs.Table.{below, filled, no_table};

use crate::table::{SelectingTableBook, TableBook};
use book::limits::MOST_STATES;

// The tables of a shape book, and the numbers that stand before them in a file.
#[derive(Clone, Copy)]
pub struct ShapeTables<'a> {
    pub states: u16,
    pub trees: u16,
    pub columns: u8,
    pub start: u16,
    pub accept: &'a [u8],
    pub enter: &'a [u8],
    pub up: &'a [u8],
    pub side: &'a [u8],
}

// The same with a table for `mark`.
#[derive(Clone, Copy)]
pub struct SelectingTables<'a> {
    pub shape: ShapeTables<'a>,
    pub mark: &'a [u8],
}

fn is_below(entries: &[u8], bound: u16) -> bool
    ensures { result ≡ below bound entries.now }
{
    entries.iter().all(|entry| u16::from(*entry) < bound)
}

fn is_filled(tables: &ShapeTables) -> bool
    ensures { result ≡ filled (shape_tables tables.now) }
{
    let states = usize::from(tables.states);
    let entries = states * usize::from(tables.columns);
    tables.states <= MOST_STATES
        && tables.start < tables.states
        && tables.columns >= 1
        && tables.accept.len() == states
        && tables.enter.len() == entries
        && tables.up.len() == entries
        && tables.side.len() == states * usize::from(tables.trees)
        && is_below(tables.enter, tables.states)
        && is_below(tables.up, tables.trees)
        && is_below(tables.side, tables.states)
}

fn is_marked(tables: &SelectingTables) -> bool
    ensures { result ≡ filled_mark tables.now }
{
    is_filled(&tables.shape)
        && tables.mark.len() == usize::from(tables.shape.states) * usize::from(tables.shape.columns)
        && is_below(tables.mark, tables.shape.states)
}

fn no_book<'a>() -> TableBook<'a>
    ensures { tables_in result ≡ no_table }
{
    TableBook {
        states: 0,
        trees: 0,
        columns: 1,
        start: 0,
        accept: b"",
        enter: b"",
        up: b"",
        side: b"",
    }
}

fn whole_book<'a>(tables: &ShapeTables<'a>) -> TableBook<'a>
    requires { filled (shape_tables tables.now) ≡ true }
    ensures { tables_in result ≡ shape_tables tables.now }
{
    TableBook {
        states: tables.states,
        trees: tables.trees,
        columns: tables.columns,
        start: tables.start,
        accept: tables.accept,
        enter: tables.enter,
        up: tables.up,
        side: tables.side,
    }
}

fn marked_book<'a>(tables: &SelectingTables<'a>) -> SelectingTableBook<'a>
    requires { filled_mark tables.now ≡ true }
    ensures tables { tables_in result.shape ≡ shape_tables tables.now.shape }
    ensures mark { result.mark.now ≡ tables.now.mark.now }
{
    SelectingTableBook {
        shape: whole_book(&tables.shape),
        mark: tables.mark,
    }
}

impl<'a> ShapeTables<'a> {
    // The book that answers from these tables.
    pub fn book(&self) -> TableBook<'a>
        ensures { tables_in result ≡ book_tables self.now }
    {
        if !is_filled(self) {
            return no_book();
        }
        whole_book(self)
    }
}

impl<'a> SelectingTables<'a> {
    // The book that answers from these tables.
    pub fn book(&self) -> SelectingTableBook<'a>
        ensures tables { tables_in result.shape ≡ selecting_tables self.now }
        ensures mark { result.mark.now ≡ selecting_mark self.now }
    {
        if !is_marked(self) {
            return SelectingTableBook {
                shape: no_book(),
                mark: b"",
            };
        }
        marked_book(self)
    }
}

impl<'a> TableBook<'a> {
    // The tables that this book answers from. Where it has states, as that of each file that is read, they give it again.
    pub fn tables(&self) -> ShapeTables<'a>
        ensures own { shape_tables result ≡ tables_in self.now }
        ensures again { 0 < self.now.states → book_tables result ≡ tables_in self.now }
    {
        ShapeTables {
            states: self.states,
            trees: self.trees,
            columns: self.columns,
            start: self.start,
            accept: self.accept,
            enter: self.enter,
            up: self.up,
            side: self.side,
        }
    }
}

impl<'a> SelectingTableBook<'a> {
    // The same with the table for `mark`.
    pub fn tables(&self) -> SelectingTables<'a>
        ensures own { shape_tables result.shape ≡ tables_in self.now.shape }
        ensures own_mark { result.mark.now ≡ self.now.mark.now }
        ensures again { 0 < self.now.shape.states → selecting_tables result ≡ tables_in self.now.shape }
        ensures again_mark { 0 < self.now.shape.states → selecting_mark result ≡ self.now.mark.now }
    {
        SelectingTables {
            shape: self.shape.tables(),
            mark: self.mark,
        }
    }
}
