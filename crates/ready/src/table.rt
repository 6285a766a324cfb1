// For each state a set of states.
ghost use Rattle.std.specs.Prelude.{◌≡◌, ℕ, ◌≤◌, true, false, ◌&&◌, ◌==◌, ◌↔◌, nat_lt};
ghost use Rattle.book.specs.Limits.{most_states};
ghost use Rattle.ready.specs.Sets.{has};
ghost use Rattle.ready.specs.Pairs.{lies, joined, Covering};

use crate::state_set::StateSet;
use book::limits::MOST_STATES;

const ROWS: usize = MOST_STATES as usize;

#[derive(Clone, Copy)]
pub(crate) struct Table {
    // in fixed memory, since making ready takes none
    rows: [StateSet; ROWS],
}

impl Table {
    pub(crate) fn empty() -> Table
        ensures { (q p : ℕ) → lies result.rows q p ≡ false }
    {
        Table {
            rows: [StateSet::empty(); ROWS],
        }
    }

    // Each state below `width` with itself.
    pub(crate) fn identity(width: u16) -> Table
        requires { width ≤ most_states }
        ensures { (q p : ℕ) → lies result.rows q p ≡ (nat_lt q width && p == q) }
    {
        let mut table = Table::empty();
        for q in 0..width {
            table.rows[q as usize].insert(q);
        }
        table
    }

    // A state past the last row has the empty set.
    pub(crate) fn row(&self, state: u16) -> StateSet
        ensures { (p : ℕ) → has result.words p ≡ lies self.now.rows state p }
    {
        let row = self.rows.get(state as usize);
        row.copied().unwrap_or(StateSet::empty())
    }

    pub(crate) fn contains(&self, state: u16, other: u16) -> bool
        ensures { result ≡ lies self.now.rows state other }
    {
        self.row(state).contains(other)
    }

    // Each state that leads to `from` leads on to what `to` leads to.
    pub(crate) fn join(&mut self, from: u16, to: u16, width: u16)
        requires { width ≤ most_states }
        ensures { (q p : ℕ) → lies self.new.rows q p ≡ joined (lies self.old.rows) width from to q p }
    {
        let more = self.row(to);
        for row in &mut self.rows[..width as usize] {
            if row.contains(from) {
                *row = row.union(&more);
            }
        }
    }

    // Has it each pair of `other`, at the states below `width`?
    pub(crate) fn covers(&self, other: &Table, width: u16) -> bool
        requires { width ≤ most_states }
        ensures { (result ≡ true) ↔ Covering width (lies self.now.rows) (lies other.now.rows) }
    {
        (0..width).all(|q| other.row(q).is_subset(&self.row(q)))
    }
}
