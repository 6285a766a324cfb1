// A book for a test: whatever happens it is in state 0, and its marks go to a quarter of a byte.
ghost use Rattle.std.specs.Prelude.{◌≡◌};
ghost use Rattle.kinds.specs.QuarterMarks.{still_machine, quarter_marks, still_lawful};

use book::limits::{MOST_STATES, TAGS};
use book::selecting_book::SelectingBook;
use book::shape_book::ShapeBook;

// Its marks are below its width since its byte is one, for no other reason.
#[derive(Clone, Copy)]
pub(crate) struct QuarterMarks {
    pub(crate) byte: u8,
}

impl ShapeBook for QuarterMarks {
    ghost machine = { λ b. still_machine };

    ghost lawful = { λ b. still_lawful };

    fn width(&self) -> u16 {
        MOST_STATES
    }

    fn start(&self) -> u16 {
        0
    }

    fn enter(&self, _state: u16, _tag: u8) -> u16 {
        0
    }

    fn back(&self, _outer: u16, _inner: u16, _tag: u8) -> u16 {
        0
    }

    fn accepts(&self, _state: u16) -> bool {
        false
    }
}

impl SelectingBook for QuarterMarks {
    ghost marks = { λ b. quarter_marks b.byte };

    fn marked(&self) {
        let _byte = self.byte;
    }

    fn mark(&self, state: u16, tag: u8) -> u16 {
        if state < MOST_STATES && tag < TAGS {
            u16::from(self.byte / 4)
        } else {
            0
        }
    }
}
