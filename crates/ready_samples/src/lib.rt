// Books to try making ready on: they answer from arrays, as a table book answers from a file.
#![tactic(auto)]

ghost use Rattle.std.specs.Prelude.{◌≤◌};
ghost use Rattle.book.specs.Limits.{most_states};
ghost use Rattle.ready_samples.specs.Samples.{sample_machine, sample_lawful};

use book::limits::{MOST_STATES, TAGS};
use book::shape_book::ShapeBook;

pub mod made;

const STATES: usize = MOST_STATES as usize;

const PER_STATE: usize = TAGS as usize;

// Arrays of the greatest size: a sample book takes no memory, so that making it cannot fail.
#[derive(Drop)]
pub struct SampleBook {
    width: u16,
    accept: [bool; STATES],
    // by state and tag
    enter: [[u8; PER_STATE]; STATES],
    up: [[u8; PER_STATE]; STATES],
    // by state and by what `up` gives
    side: [[u8; STATES]; STATES],
    ghost narrow: { width ≤ most_states },
}

impl ShapeBook for SampleBook {
    ghost machine = { λ b. sample_machine b.width b.accept b.enter b.up b.side };

    ghost lawful = { λ b. sample_lawful b.width b.accept b.enter b.up b.side b.narrow };

    fn width(&self) -> u16 {
        self.width
    }

    fn start(&self) -> u16 {
        0
    }

    fn enter(&self, state: u16, tag: u8) -> u16 {
        if state < self.width && tag < TAGS {
            let answer = self.enter[state as usize][tag as usize] as u16;
            answer.min(self.width - 1)
        } else {
            0
        }
    }

    fn back(&self, outer: u16, inner: u16, tag: u8) -> u16 {
        if outer < self.width && inner < self.width && tag < TAGS {
            let up = self.up[inner as usize][tag as usize] as usize;
            let answer = self.side[outer as usize][up.min(STATES - 1)] as u16;
            answer.min(self.width - 1)
        } else {
            0
        }
    }

    fn accepts(&self, state: u16) -> bool {
        state < self.width && self.accept[state as usize]
    }
}
