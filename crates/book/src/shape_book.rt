// A shape book is anything that answers these questions.
ghost use Rattle.std.specs.Prelude.{◌≡◌};
ghost use Rattle.book.specs.Machines.{Machine, Lawful};

// States are the numbers below the width, which is at most 64; tags are 0 to 31. Any state and any tag may be
// asked about: one out of range gets 0, or no. A book of width 0 answers 0 and no to everything.
pub trait ShapeBook {
    // The book's whole meaning: all its answers together.
    ghost machine: { Self → Machine };

    // How many states the book has.
    fn width(&self) -> u16
        ensures { result ≡ (machine self.now).width };

    // The state in which a run begins.
    fn start(&self) -> u16
        ensures { result ≡ (machine self.now).start };

    // The state in which the run goes on inside an item that opens.
    fn enter(&self, state: u16, tag: u8) -> u16
        ensures { result ≡ (machine self.now).enter state tag };

    // The state in which the run goes on behind an item that closes: `outer` was set aside at its open, `inner`
    // is the state at its close.
    fn back(&self, outer: u16, inner: u16, tag: u8) -> u16
        ensures { result ≡ (machine self.now).back outer inner tag };

    // Is a catalogue accepted whose run ends in this state?
    fn accepts(&self, state: u16) -> bool
        ensures { result ≡ (machine self.now).accepts state };

    // The rules of range, which the book's maker shows and generic code uses.
    ghost lawful: { (book : Self) → Lawful (machine book) };
}
