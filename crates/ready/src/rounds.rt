// The search for the pairs of states, in rounds: each asks the questions that the pairs found before it raise and that no
// earlier round asked, until a round finds nothing new. So each `back` is asked at most once.
ghost use Rattle.book.specs.Limits.{tags};
ghost use Rattle.book.specs.Rows.{Reach};
ghost use Rattle.ready.specs.Sets.{has};
ghost use Rattle.ready.specs.Pairs.{lies, Covering};
ghost use Rattle.ready.specs.Rounds.{RowsLead, Entries, Grown, Found, Answers, FreshAnswers, Answered, Finding, each_itself};
ghost use Rattle.std.specs.Prelude.{◌≡◌, ℕ, ◌<◌, true, ◌↔◌};

use crate::entered::Entered;
use crate::state_set::StateSet;
use crate::table::Table;
use book::limits::TAGS;
use book::shape_book::ShapeBook;

#[derive(Drop)]
struct Search<'b, B: ShapeBook> {
    book: &'b B,
    entered: Entered,
    // the pairs found so far
    table: Table,
    // those of them that an earlier round asked about
    asked: Table,
    ghost entries: { Entries (B.ShapeBook.machine book.now) entered.states },
    ghost found: { ∥ Found (B.ShapeBook.machine book.now) (lies table.rows) ∥₁ },
    ghost answered: { Answered (B.ShapeBook.machine book.now) (lies table.rows) (lies asked.rows) },
}

impl<'b, B: ShapeBook> Search<'b, B> {
    ghost use Rattle.ready.specs.Searches.{Onward};

    fn begin(book: &'b B) -> Search<'b, B>
        ensures { result.book.now ≡ book.now }
    {
        Search {
            book,
            entered: Entered::of(book),
            table: Table::identity(book.width()),
            asked: Table::empty(),
        }
    }

    // One question: an item from `outer` whose inner row ends in `inner`. The table is closed at once, so that it stays
    // transitive. Its three words are those that every book is asked `back` with; that they are in range is said at each
    // function that is handed them, since their types, plain numbers, can't say it.
    fn ask(&mut self, outer: u16, inner: u16, tag: u8)
        requires outer_in { outer < (B.ShapeBook.machine self.old.book.now).width }
        requires tag_in { tag < tags }
        requires leads { Reach (B.ShapeBook.machine self.old.book.now) ((B.ShapeBook.machine self.old.book.now).enter outer tag) inner }
        ensures onward { Onward self.old self.new }
        ensures answer { lies self.new.table.rows outer ((B.ShapeBook.machine self.old.book.now).back outer inner tag) ≡ true }
    {
        let to = self.book.back(outer, inner, tag);
        if !self.table.contains(outer, to) {
            self.table.join(outer, to, self.book.width());
        }
    }

    // The questions for one state and tag: an inner state for each of `unasked`. Loops and no chains here and below: each
    // turn changes the search.
    fn ask_row(&mut self, outer: u16, tag: u8, unasked: &StateSet)
        requires outer_in { outer < (B.ShapeBook.machine self.old.book.now).width }
        requires tag_in { tag < tags }
        requires leads { (p : ℕ) → has unasked.now.words p ≡ true → Reach (B.ShapeBook.machine self.old.book.now) ((B.ShapeBook.machine self.old.book.now).enter outer tag) p }
        ensures onward { Onward self.old self.new }
        ensures answers { Answers (B.ShapeBook.machine self.old.book.now) (lies self.new.table.rows) outer tag (λ p. has unasked.now.words p ≡ true) }
    {
        for inner in 0..self.book.width() {
            if unasked.contains(inner) {
                self.ask(outer, inner, tag);
            }
        }
    }

    // The questions for one state: the inner states are the pairs of `fresh` that no earlier round asked about.
    fn ask_tags(&mut self, outer: u16, fresh: &Table)
        requires outer_in { outer < (B.ShapeBook.machine self.old.book.now).width }
        requires known { Grown (lies fresh.now.rows) (lies self.old.table.rows) }
        ensures onward { Onward self.old self.new }
        ensures answers { (t : ℕ) → t < tags → FreshAnswers (B.ShapeBook.machine self.old.book.now) (lies fresh.now.rows) (lies self.old.asked.rows) (lies self.new.table.rows) outer t }
    {
        for tag in 0..TAGS {
            let inside = self.entered.at(outer, tag);
            let new = fresh.row(inside);
            let old = self.asked.row(inside);
            if !new.is_subset(&old) {
                self.ask_row(outer, tag, &new.without(&old));
            }
        }
    }

    // The questions for every state.
    fn ask_all(&mut self, fresh: &Table)
        requires known { Grown (lies fresh.now.rows) (lies self.old.table.rows) }
        ensures onward { Onward self.old self.new }
        ensures answers { (q t : ℕ) → q < (B.ShapeBook.machine self.old.book.now).width → t < tags → FreshAnswers (B.ShapeBook.machine self.old.book.now) (lies fresh.now.rows) (lies self.old.asked.rows) (lies self.new.table.rows) q t }
    {
        for outer in 0..self.book.width() {
            self.ask_tags(outer, fresh);
        }
    }

    // One round. Nothing new was found if the answer is true.
    fn round(&mut self) -> bool
        ensures same { self.new.book ≡ self.old.book }
        ensures asked { self.new.asked ≡ self.old.table }
        ensures growing { Grown (lies self.old.table.rows) (lies self.new.table.rows) }
        ensures last { (result ≡ true) ↔ Covering (B.ShapeBook.machine self.new.book.now).width (lies self.new.asked.rows) (lies self.new.table.rows) }
    {
        let fresh = self.table;
        self.ask_all(&fresh);
        self.asked = fresh;
        fresh.covers(&self.table, self.book.width())
    }
}

// All pairs of a state of the book and a state that some row of whole items leads to: what a search in any order finds.
pub(crate) fn find_pairs<B: ShapeBook>(book: &B) -> Table
    ensures leads { RowsLead (B.ShapeBook.machine book.now) (lies result.rows) }
    ensures finding { Finding (B.ShapeBook.machine book.now) (each_itself (B.ShapeBook.machine book.now)) (lies result.rows) (lies result.rows) }
{
    let mut search = Search::begin(book);
    while !search.round() {}
    let Search { table, .. } = search;
    table
}
