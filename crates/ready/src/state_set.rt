// A set of states, a bit for each: q is a member if bit q % 64 of word q / 64 is set.
ghost use Rattle.std.specs.Prelude.{◌≡◌, ℕ, ◌<◌, true, false, not, ◌&&◌, ◌||◌, ◌==◌, ◌↔◌, length, nat_lt};
ghost use Rattle.book.specs.Limits.{most_states};
ghost use Rattle.ready.specs.Sets.{has, Part, Beyond, Meeting};
ghost use Rattle.ready.specs.Pairs.{empty_set};

use book::limits::MOST_STATES;
use std::array;

// How many words hold a bit for each state.
const WORDS: usize = (MOST_STATES as usize + 63) / 64;

#[derive(Clone, Copy)]
pub struct StateSet {
    // in fixed memory, since making ready takes none
    words: [u64; WORDS],
}

impl StateSet {
    pub fn empty() -> StateSet
        ensures none { (q : ℕ) → has result.words q ≡ false }
        ensures same { result ≡ empty_set }
    {
        StateSet { words: [0; WORDS] }
    }

    // The states below the width that pass the test.
    pub(crate) fn of<F: Fn(u16) -> bool>(width: u16, test: F) -> StateSet
        requires { F.IsAlwaysCallable test }
        ensures within { (q : ℕ) → has result.words q ≡ true → q < width }
        ensures tested { (q : ℕ) → q < width → q < most_states → F.post test q (has result.words q) }
    {
        let mut found = StateSet::empty();
        // a loop, since each turn changes the set
        for state in 0..width {
            if test(state) {
                found.insert(state);
            }
        }
        found
    }

    pub fn contains(&self, state: u16) -> bool
        ensures { result ≡ has self.now.words state }
    {
        let Some(word) = self.words.get((state / 64) as usize) else {
            return false;
        };
        (word >> (state % 64)) & 1 == 1
    }

    // A number that is no state of any book is left out.
    pub fn insert(&mut self, state: u16)
        ensures { (q : ℕ) → has self.new.words q ≡ (has self.old.words q || (nat_lt state most_states && q == state)) }
    {
        if state < MOST_STATES {
            self.words[(state / 64) as usize] |= 1 << (state % 64);
        }
    }

    pub fn union(&self, other: &StateSet) -> StateSet
        ensures { (q : ℕ) → has result.words q ≡ (has self.now.words q || has other.now.words q) }
    {
        StateSet {
            words: array::from_fn(|place| self.words[place] | other.words[place]),
        }
    }

    // Its states that are none of `other`: what the union has more than `other`. (`a & !b` says the same, but `!b` is known to
    // turn the bits only of a word that fits, and no word of an array behind a reference is known to.)
    pub(crate) fn without(&self, other: &StateSet) -> StateSet
        ensures { (q : ℕ) → has result.words q ≡ (has self.now.words q && not (has other.now.words q)) }
    {
        StateSet {
            words: array::from_fn(|place| (self.words[place] | other.words[place])
                ^ other.words[place]),
        }
    }

    // Is each state of it one of `other`?
    pub fn is_subset(&self, other: &StateSet) -> bool
        ensures part { (result ≡ true) ↔ Part self.now.words other.now.words }
        ensures beyond { result ≡ false → Beyond self.now.words other.now.words }
    {
        is_part(&self.words, &other.words)
    }

    // Have the two sets a state in common?
    pub fn intersects(&self, other: &StateSet) -> bool
        ensures { (result ≡ true) ↔ Meeting self.now.words other.now.words }
    {
        is_meeting(&self.words, &other.words)
    }
}

// These two take slices and are no part of the methods: that each word fits its type is known of a slice's, and not of an
// array's behind a reference. They are shown once, over any number of words.
fn is_part(words: &[u64], other: &[u64]) -> bool
    requires { length other.now ≡ length words.now }
    ensures { (result ≡ true) ↔ Part words.now other.now }
{
    words
        .iter()
        .zip(other)
        .all(|(word, more)| word & more == *word)
}

fn is_meeting(words: &[u64], other: &[u64]) -> bool
    requires { length other.now ≡ length words.now }
    ensures { (result ≡ true) ↔ Meeting words.now other.now }
{
    words.iter().zip(other).any(|(word, more)| word & more != 0)
}
