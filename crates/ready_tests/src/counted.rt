// A book that counts the questions it is asked. No contract can speak of what a cell holds, so the counts are only tested.
use book::limits::TAGS;
use book::shape_book::ShapeBook;
use std::cell::Cell;

// A book of at most this width has its questions told apart.
const STATES: usize = 16;

#[derive(Drop)]
pub struct Counted<B> {
    book: B,
    enters: Cell<u32>,
    backs: Cell<u32>,
    // for each outer and inner state a bit for each tag that `back` was asked about
    asked: Cell<[[u32; STATES]; STATES]>,
    // was a `back` asked twice?
    again: Cell<bool>,
}

impl<B> Counted<B> {
    pub(crate) fn new(book: B) -> Counted<B> {
        Counted {
            book,
            enters: Cell::new(0),
            backs: Cell::new(0),
            asked: Cell::new([[0; STATES]; STATES]),
            again: Cell::new(false),
        }
    }

    pub(crate) fn enters(&self) -> u32 {
        self.enters.get()
    }

    pub(crate) fn backs(&self) -> u32 {
        self.backs.get()
    }

    pub(crate) fn asked_again(&self) -> bool {
        self.again.get()
    }

    fn note(&self, outer: u16, inner: u16, tag: u8) {
        self.backs.set(self.backs.get().wrapping_add(1));
        if (outer as usize) < STATES && (inner as usize) < STATES && tag < TAGS {
            let mut asked = self.asked.get();
            let tags = &mut asked[outer as usize][inner as usize];
            let bit = 1u32 << tag;
            if *tags & bit != 0 {
                self.again.set(true);
            }
            *tags |= bit;
            self.asked.set(asked);
        }
    }
}

impl<B: ShapeBook> ShapeBook for Counted<B> {
    ghost machine = { λ c. B.ShapeBook.machine c.book };

    ghost lawful = { λ c. B.ShapeBook.lawful c.book };

    fn width(&self) -> u16 {
        self.book.width()
    }

    fn start(&self) -> u16 {
        self.book.start()
    }

    fn enter(&self, state: u16, tag: u8) -> u16 {
        self.enters.set(self.enters.get().wrapping_add(1));
        self.book.enter(state, tag)
    }

    fn back(&self, outer: u16, inner: u16, tag: u8) -> u16 {
        self.note(outer, inner, tag);
        self.book.back(outer, inner, tag)
    }

    fn accepts(&self, state: u16) -> bool {
        self.book.accepts(state)
    }
}
