// What the calls of a scan and of a watch answer.
ghost use Rattle.std.specs.Prelude.{◌≡◌, Some};
ghost use Rattle.book.specs.Refusals.{number, refusal_text};

use std::error::Error;
use std::fmt;

// One order: the item, the event that opened it, and the event at which it is ordered.
#[derive(Clone, Copy, Debug, PartialEq, Eq)]
pub struct Order {
    pub item: u32,
    pub opened: u32,
    pub ordered: u32,
}

// What an accepted call of a scan answers: how many orders it wrote, and the totals after it.
#[derive(Clone, Copy, Debug, PartialEq, Eq)]
pub struct Totals {
    pub orders: usize,
    pub opened: u32,
    pub ordered: u32,
    pub dropped: u32,
    pub held: u32,
}

// What an accepted call of a watch answers: every ending is accepted, none is, or some are.
#[derive(Clone, Copy, Debug, PartialEq, Eq)]
pub enum Verdict {
    Yes,
    No,
    Undecided,
}

// Why a scan or a watch refuses a call.
#[derive(Clone, Copy, Debug, PartialEq, Eq)]
pub enum Refusal {
    // the book has no states
    NoStates = 1,
    // an end was accepted
    Ended = 2,
    // the list has room for fewer than 129 orders
    ShortList = 3,
    // an open with a tag above 31
    BadTag = 4,
    // an open where 64 items are open
    TooDeep = 5,
    // an open where 16,777,215 items were opened
    TooMany = 6,
    // an open after which over 128 items would be held
    HoldFull = 7,
    // a close where no item is open
    NoneOpen = 8,
    // a close with another tag than the innermost item's
    OtherTag = 9,
    // an end where an item is open
    StillOpen = 10,
}

impl Refusal {
    pub fn number(self) -> u32
        ensures { result ≡ number self }
    {
        self as u32
    }
}

impl fmt::Display for Refusal {
    ghost output = { λ refusal. Some (refusal_text refusal) };

    fn fmt<W: fmt::Write>(&self, f: &mut fmt::Formatter<W>) -> fmt::Result {
        write!(f, "refused {}", self.number())
    }
}

impl Error for Refusal {}
