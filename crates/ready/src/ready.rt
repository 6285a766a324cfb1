// A ready book: the book with its table of the states that rows of whole items lead to.
ghost use Rattle.std.specs.Prelude.{◌≡◌, ℕ, ◌<◌, true, ◌↔◌};
ghost use Rattle.book.specs.Tables.{Fits};
ghost use Rattle.ready.specs.Dead.{Dead};
ghost use Rattle.ready.specs.Laws.{AlwaysAnswerable, DecidesAcceptance, DecidesItems, Watchable};
ghost use Rattle.ready.specs.Pairs.{lies};
ghost use Rattle.ready.specs.Rounds.{RowsLead};
ghost use Rattle.ready.specs.Sets.{has};

use crate::rounds::find_pairs;
use crate::state_set::StateSet;
use crate::table::Table;
use book::shape_book::ShapeBook;

#[derive(Drop)]
pub struct Ready<B: ShapeBook> {
    book: B,
    // for each state of the book, the states that some row of whole items leads to
    reach: Table,
    ghost leads: { ∥ RowsLead (B.ShapeBook.machine book) (lies reach.rows) ∥₁ },
}

// Never refuses, and ends for every book.
pub fn make_ready<B: ShapeBook>(book: B) -> Ready<B>
    ensures book { result.book ≡ book }
    ensures reach { RowsLead (B.ShapeBook.machine book) (lies result.reach.rows) }
    ensures fits { Fits (B.ShapeBook.machine book) (lies result.reach.rows) }
    ensures acceptance { 0 < (B.ShapeBook.machine book).width → DecidesAcceptance (B.ShapeBook.machine book) (lies result.reach.rows) }
    ensures items { 0 < (B.ShapeBook.machine book).width → DecidesItems (B.ShapeBook.machine book) (lies result.reach.rows) }
    ensures scans { AlwaysAnswerable (B.ShapeBook.machine book) }
    ensures watches { Watchable (B.ShapeBook.machine book) }
{
    let reach = find_pairs(&book);
    Ready { book, reach }
}

impl<B: ShapeBook> Ready<B> {
    // Does some row of whole items lead from the book's state `from` to `to`?
    pub fn reaches(&self, from: u16, to: u16) -> bool
        ensures { result ≡ lies self.now.reach.rows from to }
    {
        self.reach.contains(from, to)
    }

    // All states that rows of whole items lead to from this one; none if it is no state of the book.
    pub fn row(&self, state: u16) -> StateSet
        ensures { (p : ℕ) → has result.words p ≡ lies self.now.reach.rows state p }
    {
        self.reach.row(state)
    }

    pub fn book(&self) -> &B
        ensures { result.now ≡ self.now.book }
    {
        &self.book
    }

    // The book, no more ready.
    pub fn hand_back(self) -> B
        ensures { result ≡ self.book }
    {
        let Ready { book, .. } = self;
        book
    }

    // Is it a state of the book from which no row of whole items leads to an accepting state?
    pub fn is_dead(&self, state: u16) -> bool
        ensures { (result ≡ true) ↔ Dead (B.ShapeBook.machine self.now.book) state }
    {
        state < self.book.width() && !may_accept(self.book(), &self.row(state))
    }
}

// Does the book accept one of these states?
fn may_accept<B: ShapeBook>(book: &B, states: &StateSet) -> bool
    ensures { (result ≡ true) ↔ ((p : ℕ) × (has states.now.words p ≡ true) × ((B.ShapeBook.machine book.now).accepts p ≡ true)) }
{
    (0..book.width()).any(|state| states.contains(state) && book.accepts(state))
}
