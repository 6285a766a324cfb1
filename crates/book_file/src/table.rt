// Books that answer from the tables of a file, in the file's own bytes.
ghost use Rattle.std.specs.Prelude.{◌≡◌, ◌+◌, ◌-◌, ◌*◌, ◌<◌, ◌≤◌, true, length};
ghost use Rattle.book.specs.Limits.{most_states};
ghost use Rattle.book_file.specs.Table.{below, column, entry};

use book::limits::TAGS;
use book::selecting_book::SelectingBook;
use book::shape_book::ShapeBook;

// A shape book.
#[derive(Clone, Copy)]
pub struct TableBook<'a> {
    pub states: u16,
    pub trees: u16,
    pub columns: u8,
    pub start: u16,
    pub accept: &'a [u8],
    pub enter: &'a [u8],
    pub up: &'a [u8],
    pub side: &'a [u8],
    ghost narrow: { states ≤ most_states },
    ghost starts: { start ≤ states - 1 },
    ghost some: { 1 ≤ columns },
    ghost accept_whole: { length accept.now ≡ states },
    ghost enter_whole: { length enter.now ≡ states * columns },
    ghost up_whole: { length up.now ≡ states * columns },
    ghost side_whole: { length side.now ≡ states * trees },
    ghost enters: { below states enter.now ≡ true },
    ghost ups: { below trees up.now ≡ true },
    ghost sides: { below states side.now ≡ true },
}

// A selecting book: the same with a table for `mark`.
#[derive(Clone, Copy)]
pub struct SelectingTableBook<'a> {
    pub shape: TableBook<'a>,
    pub mark: &'a [u8],
    ghost mark_whole: { length mark.now ≡ shape.states * shape.columns },
    ghost marks: { below shape.states mark.now ≡ true },
}

impl<'a> TableBook<'a> {
    ghost use Rattle.book_file.specs.Books.{tables_in};
    ghost use Rattle.book_file.specs.Table.{table_marks};

    // The entry of a table in the row of a state and the column of a tag: a tag that the file does not list has column 0.
    // The place is computed, since the book answers from the file's own bytes, where row stands behind row.
    fn at_tag(&self, rows: &[u8], state: u16, tag: u8) -> u16
        requires state_lt_states { state < self.now.states }
        requires rows_len { length rows.now ≡ self.now.states * self.now.columns }
        ensures { result ≡ entry rows.now self.now.columns state (column self.now.columns tag) }
    {
        let column = if tag < self.columns { tag } else { 0 };
        u16::from(rows[usize::from(state) * usize::from(self.columns) + usize::from(column)])
    }

    // The same for any state and any tag: 0 where one is out of range.
    fn answer(&self, rows: &[u8], state: u16, tag: u8) -> u16
        requires { length rows.now ≡ self.now.states * self.now.columns }
        ensures { result ≡ table_marks (tables_in self.now) rows.now state tag }
    {
        if state < self.states && tag < TAGS {
            self.at_tag(rows, state, tag)
        } else {
            0
        }
    }

    // The tree state of an item that closes.
    fn tree(&self, inner: u16, tag: u8) -> u16
        requires { inner < self.now.states }
        ensures value { result ≡ entry self.now.up.now self.now.columns inner (column self.now.columns tag) }
        ensures bound { result < self.now.trees }
    {
        self.at_tag(self.up, inner, tag)
    }

    // Where a state goes beside a tree state. The place is computed, as in `at_tag`.
    fn beside(&self, outer: u16, tree: u16) -> u16
        requires outer_lt_states { outer < self.now.states }
        requires tree_lt_trees { tree < self.now.trees }
        ensures { result ≡ entry self.now.side.now self.now.trees outer tree }
    {
        u16::from(self.side[usize::from(outer) * usize::from(self.trees) + usize::from(tree)])
    }
}

impl<'a> ShapeBook for TableBook<'a> {
    ghost use Rattle.book_file.specs.Books.{tables_in};
    ghost use Rattle.book_file.specs.Table.{table_machine};
    ghost use Rattle.book_file.specs.Ranges.{table_lawful};

    ghost machine = { λ b. table_machine (tables_in b) };

    ghost lawful = { λ b. table_lawful (tables_in b) b.narrow b.starts b.enters b.sides };

    fn width(&self) -> u16 {
        self.states
    }

    fn start(&self) -> u16 {
        self.start
    }

    fn enter(&self, state: u16, tag: u8) -> u16 {
        self.answer(self.enter, state, tag)
    }

    fn back(&self, outer: u16, inner: u16, tag: u8) -> u16 {
        if outer < self.states && inner < self.states && tag < TAGS {
            self.beside(outer, self.tree(inner, tag))
        } else {
            0
        }
    }

    fn accepts(&self, state: u16) -> bool {
        state < self.states && self.accept[usize::from(state)] == 1
    }
}

// It answers these questions as its shape book does; the language has no shorter way to say that of each method.
impl<'a> ShapeBook for SelectingTableBook<'a> {
    ghost use Rattle.book_file.specs.Books.{tables_in};
    ghost use Rattle.book_file.specs.Table.{table_machine};
    ghost use Rattle.book_file.specs.Ranges.{table_lawful};

    ghost machine = { λ b. table_machine (tables_in b.shape) };

    ghost lawful = { λ b. table_lawful (tables_in b.shape) b.shape.narrow b.shape.starts b.shape.enters b.shape.sides };

    fn width(&self) -> u16 {
        self.shape.width()
    }

    fn start(&self) -> u16 {
        self.shape.start()
    }

    fn enter(&self, state: u16, tag: u8) -> u16 {
        self.shape.enter(state, tag)
    }

    fn back(&self, outer: u16, inner: u16, tag: u8) -> u16 {
        self.shape.back(outer, inner, tag)
    }

    fn accepts(&self, state: u16) -> bool {
        self.shape.accepts(state)
    }
}

impl<'a> SelectingBook for SelectingTableBook<'a> {
    ghost use Rattle.book_file.specs.Books.{tables_in};
    ghost use Rattle.book_file.specs.Table.{table_marks};

    ghost marks = { λ b. table_marks (tables_in b.shape) b.mark.now };

    #[tactic(auto, using(crate::specs::Ranges::table_marked))]
    fn marked(&self) {}

    fn mark(&self, state: u16, tag: u8) -> u16 {
        self.shape.answer(self.mark, state, tag)
    }
}
