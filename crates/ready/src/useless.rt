// Which states are useless: a run that stands in one, inside whatever items, has no way on that is accepted. The others
// are found first, from the accepting states outwards.
ghost use Rattle.std.specs.Prelude.{◌≡◌, ℕ, ◌<◌, true, ◌⊎◌, ◌↔◌};
ghost use Rattle.book.specs.Limits.{tags};
ghost use Rattle.ready.specs.Dead.{Closes, Useful, Useless, Stops};
ghost use Rattle.ready.specs.Pairs.{lies};
ghost use Rattle.ready.specs.Sets.{has};

use crate::ready::Ready;
use crate::state_set::StateSet;
use book::limits::TAGS;
use book::shape_book::ShapeBook;

// Does the close of an item with some tag lead from these two states to one of `useful`?
fn closes_from<B: ShapeBook>(book: &B, outer: u16, inner: u16, useful: &StateSet) -> bool
    ensures { (result ≡ true) ↔ ((t : ℕ) × (t < tags) × (has useful.now.words ((B.ShapeBook.machine book.now).back outer inner t) ≡ true)) }
{
    (0..TAGS).any(|tag| useful.contains(book.back(outer, inner, tag)))
}

fn closes<B: ShapeBook>(book: &B, inner: u16, useful: &StateSet) -> bool
    ensures { (result ≡ true) ↔ Closes (B.ShapeBook.machine book.now) (has useful.now.words) inner }
{
    (0..book.width()).any(|outer| closes_from(book, outer, inner, useful))
}

// Does the book accept the state, or does its item's close lead to one of `useful`?
fn stops<B: ShapeBook>(book: &B, state: u16, useful: &StateSet) -> bool
    ensures { (result ≡ true) ↔ Stops (B.ShapeBook.machine book.now) (has useful.now.words) state }
{
    book.accepts(state) || closes(book, state, useful)
}

fn all_stops<B: ShapeBook>(book: &B, useful: &StateSet) -> StateSet
    ensures { (p : ℕ) → (has result.words p ≡ true) ↔ ((p < (B.ShapeBook.machine book.now).width) × Stops (B.ShapeBook.machine book.now) (has useful.now.words) p) }
{
    StateSet::of(book.width(), |state| stops(book, state, useful))
}

impl<B: ShapeBook> Ready<B> {
    // The states of the book from which no way on is accepted, inside whatever items the run stands.
    pub fn useless_states(&self) -> StateSet
        ensures { (q : ℕ) → (has result.words q ≡ true) ↔ Useless (B.ShapeBook.machine self.now.book) q }
    {
        let useful = self.useful_states();
        StateSet::of(self.book().width(), |state| !useful.contains(state))
    }

    fn useful_states(&self) -> StateSet
        ensures { (q : ℕ) → (has result.words q ≡ true) ↔ ((q < (B.ShapeBook.machine self.now.book).width) × Useful (B.ShapeBook.machine self.now.book) q) }
    {
        let mut useful = StateSet::empty();
        loop {
            let before = self.useful_before(&useful);
            if before.is_subset(&useful) {
                return useful;
            }
            useful = useful.union(&before);
        }
    }

    // The states from which a row of whole items leads to where it may end.
    fn useful_before(&self, useful: &StateSet) -> StateSet
        ensures { (q : ℕ) → (has result.words q ≡ true) ↔ ((q < (B.ShapeBook.machine self.now.book).width) × ((p : ℕ) × (lies self.now.reach.rows q p ≡ true) × (p < (B.ShapeBook.machine self.now.book).width) × Stops (B.ShapeBook.machine self.now.book) (has useful.now.words) p)) }
    {
        let book = self.book();
        let ends = all_stops(book, useful);
        StateSet::of(book.width(), |state| self.leads_into(state, &ends))
    }

    // Does the state lead to one of `ends`?
    fn leads_into(&self, state: u16, ends: &StateSet) -> bool
        ensures { (result ≡ true) ↔ ((p : ℕ) × (lies self.now.reach.rows state p ≡ true) × (has ends.now.words p ≡ true)) }
    {
        self.row(state).intersects(ends)
    }
}
