// The answers to `enter`, each asked for once.
ghost use Rattle.std.specs.Prelude.{◌≡◌, ℕ, ◌<◌, [], slice_index, slice_index_or};
ghost use Rattle.book.specs.Limits.{most_states, tags};
ghost use Rattle.ready.specs.Rounds.{Entries};

use book::limits::{MOST_STATES, TAGS};
use book::shape_book::ShapeBook;
use std::array;

// By state and tag.
#[derive(Drop)]
pub(crate) struct Entered {
    // in fixed memory, since making ready takes none
    states: [[u16; TAGS as usize]; MOST_STATES as usize],
}

impl Entered {
    pub(crate) fn of<B: ShapeBook>(book: &B) -> Entered
        ensures { Entries (B.ShapeBook.machine book.now) result.states }
    {
        let mut states = [[0; TAGS as usize]; MOST_STATES as usize];
        for state in 0..book.width() {
            states[state as usize] = array::from_fn(|tag| book.enter(state, tag as u8));
        }
        Entered { states }
    }

    pub(crate) fn at(&self, state: u16, tag: u8) -> u16
        requires state_lt_most_states { state < most_states }
        requires tag_lt_tags { tag < tags }
        ensures { result ≡ slice_index (slice_index_or self.now.states state []) tag }
    {
        self.states[state as usize][tag as usize]
    }
}
