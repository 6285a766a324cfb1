// Callers that make a book ready and ask it: what they promise has no premise. Each is written out as a caller would
// write it.
ghost use Rattle.std.specs.Prelude.{◌≡◌, ℕ, ◌<◌, true, ◌↔◌};
ghost use Rattle.book.specs.Rows.{Reach};
ghost use Rattle.ready.specs.Dead.{Dead, Useless};
ghost use Rattle.ready.specs.Sets.{has};

use book::shape_book::ShapeBook;
use ready::ready::make_ready;
use ready::state_set::StateSet;

// Does some row of whole items lead from the book's state `from` to `to`?
pub fn leads<B: ShapeBook>(book: B, from: u16, to: u16) -> (B, bool)
    ensures book { result.0 ≡ book }
    ensures answer { (result.1 ≡ true) ↔ ((from < (B.ShapeBook.machine book).width) × Reach (B.ShapeBook.machine book) from to) }
{
    let ready = make_ready(book);
    let answer = ready.reaches(from, to);
    (ready.hand_back(), answer)
}

// Is it a state of the book from which no row of whole items leads to an accepting state?
pub fn dead<B: ShapeBook>(book: B, state: u16) -> (B, bool)
    ensures book { result.0 ≡ book }
    ensures answer { (result.1 ≡ true) ↔ Dead (B.ShapeBook.machine book) state }
{
    let ready = make_ready(book);
    let answer = ready.is_dead(state);
    (ready.hand_back(), answer)
}

// The states of the book from which no way on is accepted, inside whatever items the run stands.
pub fn useless<B: ShapeBook>(book: B) -> (B, StateSet)
    ensures book { result.0 ≡ book }
    ensures answer { (q : ℕ) → (has result.1.words q ≡ true) ↔ Useless (B.ShapeBook.machine book) q }
{
    let ready = make_ready(book);
    let answer = ready.useless_states();
    (ready.hand_back(), answer)
}
