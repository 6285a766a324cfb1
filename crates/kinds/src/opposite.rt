// The opposite of a book: it accepts where the other does not.
ghost use Rattle.std.specs.Prelude.{◌≡◌};
ghost use Rattle.kinds.specs.Opposite.{opposite, opposite_lawful, OppositeAccepts, OppositeSelects};

use book::selecting_book::SelectingBook;
use book::shape_book::ShapeBook;

#[derive(Drop)]
pub struct Opposite<B: ShapeBook> {
    book: B,
}

impl<B: ShapeBook> Opposite<B> {
    pub fn new(book: B) -> Opposite<B>
        ensures value { result.book ≡ book }
        ensures accepts { OppositeAccepts (B.machine book) }
        ensures selects { OppositeSelects (B.machine book) }
    {
        laws(&book);
        Opposite { book }
    }

    pub fn into_inner(self) -> B
        ensures { result ≡ self.book }
    {
        let Opposite { book } = self;
        book
    }
}

// No effect: what the opposite of a book accepts and selects. It is a function so that its call in `new` can be taken
// away: must-fail/new_opposite_unshown.edit.
#[tactic(auto, using(crate::proofs::Opposites::opposite_accepts, crate::proofs::Opposites::opposite_selects))]
fn laws<B: ShapeBook>(book: &B)
    ensures accepts { OppositeAccepts (B.machine book.now) }
    ensures selects { OppositeSelects (B.machine book.now) }
{}

// Four questions it answers as the other book does; the language has no shorter way to say that of each method.
impl<B: ShapeBook> ShapeBook for Opposite<B> {
    ghost machine = { λ o. opposite (B.machine o.book) };

    ghost lawful = { λ o. opposite_lawful _ (B.lawful o.book) };

    fn width(&self) -> u16 {
        self.book.width()
    }

    fn start(&self) -> u16 {
        self.book.start()
    }

    fn enter(&self, state: u16, tag: u8) -> u16 {
        self.book.enter(state, tag)
    }

    fn back(&self, outer: u16, inner: u16, tag: u8) -> u16 {
        self.book.back(outer, inner, tag)
    }

    fn accepts(&self, state: u16) -> bool {
        state < self.book.width() && !self.book.accepts(state)
    }
}

impl<B: SelectingBook> SelectingBook for Opposite<B> {
    ghost marks = { λ o. B.marks o.book };

    #[tactic(auto, using(crate::specs::Opposite::opposite_marks_lawful))]
    fn marked(&self) {
        self.book.marked();
    }

    fn mark(&self, state: u16, tag: u8) -> u16 {
        self.book.mark(state, tag)
    }
}
