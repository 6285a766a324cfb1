// A selecting book is a shape book with one question more.
ghost use Rattle.std.specs.Prelude.{◌≡◌};
ghost use Rattle.book.specs.Machines.{Marks, LawfulMarks};

use crate::shape_book::ShapeBook;

pub trait SelectingBook: ShapeBook {
    // All answers to `mark` together; with the machine, the book's whole meaning.
    ghost marks: { Self → Marks };

    // Hands generic code the rules of range for `mark`; it has no effect. It is a method and no law, since a law speaks of
    // all numbers, and a method of books whose fields are in the range of their types: the marks of a book that go to a
    // quarter of its byte are below 64 for no other reason.
    fn marked(&self)
        ensures { LawfulMarks (Self.ShapeBook.machine self.now) (marks self.now) };

    // The state inside the item that is asked about, in place of `enter`.
    fn mark(&self, state: u16, tag: u8) -> u16
        ensures { result ≡ marks self.now state tag };
}
