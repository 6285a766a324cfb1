// The sample books: the seal book, random books, and books that take as many rounds as they have states.
ghost use Rattle.std.specs.Prelude.{◌≡◌, ◌≤◌};
ghost use Rattle.ready_samples.specs.Samples.{as_many};

use crate::{PER_STATE, STATES, SampleBook};
use std::array;

// As many states as asked for, from 1 to 64.
fn as_many(width: u8) -> u8
    ensures { result ≡ as_many width }
{
    width.min(STATES as u8).max(1)
}

// The entries for 0, 1 and so on.
fn entries<T, const N: usize, F: Fn(u8) -> T>(entry: F) -> [T; N]
    requires callable { F.IsAlwaysCallable entry }
    requires short { N ≤ 256 }
{
    array::from_fn(|place| entry(place as u8))
}

// The book that answers as the closures do: which states accept, what a state and a tag lead to (the state inside, and
// what the item closes as), and what a state and a closed item lead to.
fn book_of<A, L, S>(width: u8, accept: A, lead: L, side: S) -> SampleBook
where
    A: Fn(u8) -> bool,
    L: Fn(u8, u8) -> (u8, u8),
    S: Fn(u8, u8) -> u8,
    requires accept { A.IsAlwaysCallable accept }
    requires lead { L.IsAlwaysCallable lead }
    requires side { S.IsAlwaysCallable side }
    ensures { result.width ≡ as_many width }
{
    SampleBook {
        width: as_many(width) as u16,
        accept: entries(accept),
        enter: entries(|state| entries(|tag| lead(state, tag).0)),
        up: entries(|state| entries(|tag| lead(state, tag).1)),
        side: entries(|state| entries(|closed| side(state, closed))),
    }
}

// The seal book's tables: 5 states, 5 tree states, 3 tags; a further tag is read as tag 0.
const SEAL_TAGS: usize = 3;

const SEAL_ENTER: [[u8; SEAL_TAGS]; 5] = [[0, 0, 0], [0, 0, 0], [2, 2, 2], [3, 3, 3], [0, 0, 0]];

const SEAL_UP: [[u8; SEAL_TAGS]; 5] = [[0, 0, 4], [3, 3, 3], [2, 2, 2], [3, 3, 3], [1, 1, 1]];

const SEAL_SIDE: [[u8; 5]; 5] = [
    [0, 1, 2, 3, 0],
    [1, 1, 2, 3, 2],
    [2, 2, 2, 2, 2],
    [3, 3, 3, 3, 3],
    [4, 4, 2, 3, 4],
];

// Outside the table `none`.
fn look_up<T: Copy, const N: usize>(table: &[[T; N]], row: u8, column: u8, none: T) -> T {
    let row = table.get(row as usize);
    row.and_then(|row| row.get(column as usize))
        .copied()
        .unwrap_or(none)
}

// A reel that a later sibling seal follows is selected; tag 1 is reel, tag 2 is seal.
pub fn seal_book() -> SampleBook
    ensures { result.width ≡ 5 }
{
    let lead = |state: u8, tag: u8| {
        let column = if tag < SEAL_TAGS as u8 { tag } else { 0 };
        (
            look_up(&SEAL_ENTER, state, column, 0),
            look_up(&SEAL_UP, state, column, 0),
        )
    };
    let side = |state: u8, closed: u8| look_up(&SEAL_SIDE, state, closed, 0);
    book_of(5, |state| state == 2, lead, side)
}

#[derive(Drop)]
struct Random {
    last: u32,
}

impl Random {
    fn next(&mut self) -> u32 {
        self.last = self.last.wrapping_mul(1664525).wrapping_add(1013904223);
        self.last
    }

    fn below(&mut self, limit: u8) -> u8 {
        (self.next() >> 24) as u8 % limit.max(1)
    }
}

// Each answer is any state. This and the books below have as many states as asked for, from 1 to 64.
pub fn random_book(width: u8, seed: u32) -> SampleBook
    ensures { result.width ≡ as_many width }
{
    let states = as_many(width);
    let mut random = Random { last: seed };
    let accept: [bool; STATES] = array::from_fn(|_| random.next() >> 31 == 1);
    let mut lead = [[(0u8, 0u8); PER_STATE]; STATES];
    for row in &mut lead {
        for pair in row {
            *pair = (random.below(states), random.below(64));
        }
    }
    let mut side = [[0u8; STATES]; STATES];
    for row in &mut side {
        for entry in row {
            *entry = random.below(states);
        }
    }
    book_of(
        states,
        |state| accept.get(state as usize).copied().unwrap_or(false),
        |state, tag| look_up(&lead, state, tag, (0, 0)),
        |state, closed| look_up(&side, state, closed, 0),
    )
}

// Each state enters the next; an item behind which the last state was reached leads to what `onward` makes of the next
// state and the last.
fn climbing_book<F: Fn(u8, u8) -> u8>(width: u8, onward: F) -> SampleBook
    requires { F.IsAlwaysCallable onward }
    ensures { result.width ≡ as_many width }
{
    let last = as_many(width) - 1;
    let next = |state: u8| if state < last { state + 1 } else { last };
    let lead = |state: u8, _: u8| (next(state), if state < last { 0 } else { 1 });
    let side = |state: u8, closed: u8| match closed {
        0 => state.min(last),
        1 => onward(next(state), last),
        _ => 0,
    };
    book_of(width, |state| state == 0, lead, side)
}

// A chain as long as the width: a state reaches itself and the last one, and each round finds one pair.
pub fn chain_book(width: u8) -> SampleBook
    ensures { result.width ≡ as_many width }
{
    climbing_book(width, |_, last| last)
}

// A chain in which each state reaches all that follow it, found from the last to the first.
pub fn stairs_book(width: u8) -> SampleBook
    ensures { result.width ≡ as_many width }
{
    climbing_book(width, |next, _| next)
}

// Each state enters the next, the last one the first: rules that lead back to themselves. Behind an item the run goes
// on in the inner state.
pub fn ring_book(width: u8) -> SampleBook
    ensures { result.width ≡ as_many width }
{
    let ring = as_many(width);
    let lead = |state: u8, _: u8| ((state % ring + 1) % ring, state);
    book_of(ring, |state| state == 0, lead, |_, inner| inner)
}

// No states at all.
pub fn empty_book() -> SampleBook
    ensures { result.width ≡ 0 }
{
    SampleBook {
        width: 0,
        accept: [false; STATES],
        enter: [[0; PER_STATE]; STATES],
        up: [[0; PER_STATE]; STATES],
        side: [[0; STATES]; STATES],
    }
}
