// The two sets of a level: the states from which some way on is accepted, and those from which some way on is not.
ghost use Rattle.std.specs.Prelude.{◌≡◌, ℕ, ◌<◌, ◌≤◌, Bool, true, false, ◌&&◌, nat_lt};
ghost use Rattle.book.specs.Limits.{most_states};
ghost use Rattle.book.specs.Tables.{some_below};
ghost use Rattle.scan.specs.Tracks.{answers, widened};
ghost use Rattle.levels.specs.Sets.{machine_of, reach_of, passes, none, closing, Below, Filled};

use book::shape_book::ShapeBook;
use ready::ready::Ready;
use ready::state_set::StateSet;

// A set for each answer that a whole catalogue can have, each with a name, since most code asks for the one or the other.
#[derive(Clone, Copy)]
pub(crate) struct Sets {
    accepted: StateSet,
    refused: StateSet,
}

impl Sets {
    pub(crate) fn empty() -> Sets
        ensures same { result ≡ none }
        ensures bare { (b : Bool) (q : ℕ) → passes result b q ≡ false }
    {
        Sets {
            accepted: StateSet::empty(),
            refused: StateSet::empty(),
        }
    }

    // `wanted` is one of the two answers that a catalogue can have, as `accepts` gives them: a value, which picks a set and no
    // step.
    pub(crate) fn contains(&self, wanted: bool, state: u16) -> bool
        ensures { result ≡ passes self.now wanted state }
    {
        let set = if wanted {
            &self.accepted
        } else {
            &self.refused
        };
        set.contains(state)
    }

    // The sets of the states below `width`; `belongs` says of a state whether it is in each of them, the set for yes first.
    // One pass fills both, so that the book is asked once about a state.
    fn of<F: Fn(u16) -> (bool, bool)>(width: u16, belongs: F) -> Sets
        requires callable { F.IsAlwaysCallable belongs }
        requires narrow { width ≤ most_states }
        ensures { Filled width (F.post belongs) result }
    {
        let mut found = Sets::empty();
        for state in 0..width {
            let (accepted, refused) = belongs(state);
            if accepted {
                found.accepted.insert(state);
            }
            if refused {
                found.refused.insert(state);
            }
        }
        found
    }

    // The states in which a catalogue may end, by its answer.
    pub(crate) fn ending<B: ShapeBook>(ready: &Ready<B>) -> Sets
        ensures { (b : Bool) (q : ℕ) → passes result b q ≡ (nat_lt q (machine_of ready.now).width && answers (machine_of ready.now) b q) }
    {
        let book = ready.book();
        Sets::of(book.width(), |state| {
            let accepts = book.accepts(state);
            (accepts, !accepts)
        })
    }

    // The states inside an item of tag `tag`, opened in the state `outer`, from which its close leads into these sets.
    pub(crate) fn closing<B: ShapeBook>(&self, ready: &Ready<B>, outer: u16, tag: u8) -> Sets
        ensures { (b : Bool) (q : ℕ) → passes result b q ≡ closing (machine_of ready.now) outer tag (passes self.now b) q }
    {
        let book = ready.book();
        Sets::of(book.width(), |inner| {
            let to = book.back(outer, inner, tag);
            (self.accepted.contains(to), self.refused.contains(to))
        })
    }

    // The states from which a row of whole items leads into these sets.
    pub(crate) fn widened<B: ShapeBook>(&self, ready: &Ready<B>) -> Sets
        requires { Below (machine_of ready.now).width self.now }
        ensures { (b : Bool) (q : ℕ) → passes result b q ≡ widened (reach_of ready.now) (machine_of ready.now) (passes self.now b) q }
    {
        Sets::of(
            ready.book().width(),
            |state| self.reached_from(ready, state),
        )
    }

    // Does a row of whole items lead from this state into the set for yes, and into that for no?
    fn reached_from<B: ShapeBook>(&self, ready: &Ready<B>, state: u16) -> (bool, bool)
        requires { Below (machine_of ready.now).width self.now }
        ensures yes { result.0 ≡ some_below (machine_of ready.now).width (λ p. reach_of ready.now state p && passes self.now true p) }
        ensures no { result.1 ≡ some_below (machine_of ready.now).width (λ p. reach_of ready.now state p && passes self.now false p) }
    {
        let row = ready.row(state);
        (
            row.intersects(&self.accepted),
            row.intersects(&self.refused),
        )
    }
}
