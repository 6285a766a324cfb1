// What an event does to the rows of a scan's cells. It touches only the cells in use, and walks no path.
ghost use Rattle.std.specs.Prelude.{◌≡◌, ℕ, suc, ◌+◌, ◌-◌, ◌<◌, ◌≤◌, List, [], ◌∷◌, ◌++◌, map, length, filter, count_by, slice_index_or};
ghost use Rattle.book.specs.declared.event.Event.TheVariants.{Open, Close};
ghost use Rattle.book.specs.Machines.{selecting};
ghost use Rattle.levels.specs.Sets.{machine_of, reach_of};
ghost use Rattle.cells.specs.Cells.{cell_at, seen, entered_seen, left_seen, beside_seen};
ghost use Rattle.scan.specs.Tracks.{Level, track, moved, marked};
ghost use Rattle.scan.specs.Model.{onward, is_held};
ghost use Rattle.scan_calls.specs.Rows.{Only, row_of, item_cells, held_in, base_of, held_of, holding_new, held_child, Settled};

use crate::limits::{CELLS, DEPTH, LEVELS};
use crate::scanning::Rows;
use crate::settling::{keep_held, write_orders};
use book::answer::Order;
use book::event::Event;
use book::selecting_book::SelectingBook;
use book::shape_book::ShapeBook;
use cells::{Cell, cell_at};
use ready::ready::Ready;

// A row that is written is lent through a local `rows`: a mutable loan of `self.cells[depth]` the check does not follow.
impl Rows {
    // Before any event there is the base run alone.
    pub(crate) fn begin(base: Cell) -> Rows
        ensures depth { result.depth ≡ 0 }
        ensures count { result.count ≡ 1 }
        ensures base { base_of result ≡ track (seen base).level [] }
        ensures held { held_of result ≡ [] }
    {
        Rows {
            cells: [[base; CELLS]; LEVELS],
            depth: 0,
            count: 1,
        }
    }

    // An item of tag `tag` opens: the runs go on in the next level, and behind them that of the item itself.
    pub(crate) fn open<B: SelectingBook>(
        &mut self,
        ready: &Ready<B>,
        item: u32,
        since: u32,
        tag: u8,
    )
        requires { (self.old.depth < DEPTH) × (self.old.count < CELLS) }
        ensures depth { self.new.depth ≡ self.old.depth + 1 }
        ensures count { self.new.count ≡ self.old.count + 1 }
        ensures base { base_of self.new ≡ moved (reach_of ready.now) (machine_of ready.now) (Open tag) (base_of self.old) }
        ensures held { held_of self.new ≡ map (onward (reach_of ready.now) (machine_of ready.now) (Open tag)) (held_of self.old) ++ (holding_new item since (marked (reach_of ready.now) (selecting (machine_of ready.now) (B.marks ready.now.book)) tag (base_of self.old)) ∷ []) }
    {
        let depth = self.depth;
        let count = self.count;
        let rows = &mut self.cells;
        let (outer, inner) = rows.split_at_mut(depth + 1);
        open_cells(ready, &outer[depth], &mut inner[0], count, item, since, tag);
        self.depth = depth + 1;
        self.count = count + 1;
    }

    // The items in use are judged at the event: how many orders; those that are held stay in use. The clause `settled` speaks
    // of each level up to the current one: behind `leave` the cells are already those of the level around.
    pub(crate) fn settle<B: ShapeBook>(
        &mut self,
        ready: &Ready<B>,
        call: Event,
        event: u32,
        orders: &mut [Order],
    ) -> usize
        requires { self.old.count ≤ length orders.old + 1 }
        ensures depth { self.new.depth ≡ self.old.depth }
        ensures total { result + self.new.count ≤ self.old.count }
        ensures only { Only self.old.depth self.old.cells self.new.cells }
        ensures base { cell_at (row_of self.new) 0 ≡ cell_at (row_of self.old) 0 }
        ensures settled { (e : ℕ) → e ≤ self.old.depth → Settled (machine_of ready.now) call event (map (held_in self.old.cells e) (item_cells self.old)) orders.old orders.new result (map (held_in self.new.cells e) (item_cells self.new)) self.new.count }
    {
        let depth = self.depth;
        let count = self.count;
        let rows = &mut self.cells;
        let sent = write_orders(ready, &rows[depth][1..count], call, event, orders);
        let left = keep_held(ready, &mut rows[depth][1..count], call);
        self.count = left + 1;
        sent
    }

    // The innermost item, of tag `tag`, closes: the runs go on in the level around it, and are judged there.
    pub(crate) fn close<B: ShapeBook>(
        &mut self,
        ready: &Ready<B>,
        tag: u8,
        event: u32,
        orders: &mut [Order],
    ) -> usize
        requires { (1 ≤ self.old.depth) × (self.old.count ≤ length orders.old + 1) }
        ensures depth { self.new.depth ≡ self.old.depth - 1 }
        ensures total { result + self.new.count ≤ self.old.count }
        ensures base { base_of self.new ≡ moved (reach_of ready.now) (machine_of ready.now) (Close tag) (base_of self.old) }
        ensures settled { Settled (machine_of ready.now) (Close tag) event (map (onward (reach_of ready.now) (machine_of ready.now) (Close tag)) (held_of self.old)) orders.old orders.new result (held_of self.new) self.new.count }
    {
        self.leave(ready, tag);
        let sent = self.settle(ready, Event::Close(tag), event, orders);
        self.lower();
        sent
    }

    // The runs leave their item, which has the tag `tag`. They stay in their row.
    fn leave<B: ShapeBook>(&mut self, ready: &Ready<B>, tag: u8)
        requires { 1 ≤ self.old.depth }
        ensures depth { self.new.depth ≡ self.old.depth }
        ensures count { self.new.count ≡ self.old.count }
        ensures only { Only self.old.depth self.old.cells self.new.cells }
        ensures wide { (self.old.count ≤ length (row_of self.old)) × (self.old.count ≤ length (row_of self.new)) }
        ensures left { (k : ℕ) → k < self.old.count → seen (cell_at (row_of self.new) k) ≡ left_seen (machine_of ready.now) tag (slice_index_or self.old.cells (self.old.depth - 1) []) (seen (cell_at (row_of self.old) k)) }
    {
        let depth = self.depth;
        let count = self.count;
        let rows = &mut self.cells;
        let (outer, inner) = rows.split_at_mut(depth);
        leave_cells(ready, &outer[depth - 1], &mut inner[0], count, tag);
    }

    // The cells in use become those of the level around.
    fn lower(&mut self)
        requires { 1 ≤ self.old.depth }
        ensures depth { self.new.depth ≡ self.old.depth - 1 }
        ensures count { self.new.count ≡ self.old.count }
        ensures only { Only (self.old.depth - 1) self.old.cells self.new.cells }
        ensures wide { (self.old.count ≤ length (row_of self.old)) × (self.old.count ≤ length (row_of self.new)) }
        ensures lowered { (k : ℕ) → k < self.old.count → cell_at (row_of self.new) k ≡ cell_at (row_of self.old) k }
    {
        let depth = self.depth;
        let count = self.count;
        let rows = &mut self.cells;
        let (outer, inner) = rows.split_at_mut(depth);
        copy_cells(&inner[0][..count], &mut outer[depth - 1]);
        self.depth = depth - 1;
    }

    // How many items would be held, were an item of tag `tag` opened?
    pub(crate) fn held_inside<B: SelectingBook>(&self, ready: &Ready<B>, tag: u8) -> usize
        ensures { (item since : ℕ) → result ≡ length (filter (is_held (machine_of ready.now) (Open tag)) (map (onward (reach_of ready.now) (machine_of ready.now) (Open tag)) (held_of self.now) ++ (holding_new item since (marked (reach_of ready.now) (selecting (machine_of ready.now) (B.marks ready.now.book)) tag (base_of self.now)) ∷ []))) }
    {
        let row = &self.cells[self.depth];
        let old = count_inside(ready, &row[1..self.count], tag);
        let base = cell_at(row, 0);
        if holds_new(ready, &base, tag) {
            return old + 1;
        }
        old
    }
}

// The runs of the first `count` cells go on inside an item of tag `tag`, and behind them comes that of the item itself. That the
// cells are there is said again: how long a row is, is known only where it is lent.
fn open_cells<B: SelectingBook>(
    ready: &Ready<B>,
    around: &[Cell],
    inside: &mut [Cell],
    count: usize,
    item: u32,
    since: u32,
    tag: u8,
)
    requires { (1 ≤ count) × (count < CELLS) × (count ≤ length around.now) × (count < length inside.old) }
    ensures wide { count ≤ length around.now }
    ensures entered { (k : ℕ) → k < count → seen (cell_at inside.new k) ≡ entered_seen (reach_of ready.now) (machine_of ready.now) k tag (seen (cell_at around.now k)) }
    ensures new { seen (cell_at inside.new count) ≡ beside_seen item since (B.marks ready.now.book (seen (cell_at around.now 0)).level.state tag) (entered_seen (reach_of ready.now) (machine_of ready.now) 0 tag (seen (cell_at around.now 0))) }
{
    // by place, which is the new cell's parent too: over a zip with `iter_mut` nothing would be known of the cells written
    for (place, cell) in around[..count].iter().enumerate() {
        inside[place] = cell.entered(ready, place as u8, tag);
    }
    let state = ready.book().mark(around[0].state(), tag);
    inside[count] = inside[0].beside(item, since, state);
}

// The runs of the first `count` of these cells leave their item, which has the tag `tag`.
fn leave_cells<B: ShapeBook>(
    ready: &Ready<B>,
    around: &[Cell],
    inside: &mut [Cell],
    count: usize,
    tag: u8,
)
    requires { count ≤ length inside.old }
    ensures { (k : ℕ) → k < count → seen (cell_at inside.new k) ≡ left_seen (machine_of ready.now) tag around.now (seen (cell_at inside.old k)) }
{
    for cell in inside[..count].iter_mut() {
        *cell = cell.left(ready, around, tag);
    }
}

fn copy_cells(from: &[Cell], to: &mut [Cell])
    requires { length from.now ≤ length to.old }
    ensures { (k : ℕ) → k < length from.now → cell_at to.new k ≡ cell_at from.now k }
{
    to[..from.len()].copy_from_slice(from);
}

// How many of the cells are those of items that would be held inside an item of tag `tag`?
fn count_inside<B: ShapeBook>(ready: &Ready<B>, cells: &[Cell], tag: u8) -> usize
    ensures { result ≡ count_by (held_child (reach_of ready.now) (machine_of ready.now) tag) cells.now }
{
    cells
        .iter()
        .filter(|cell| is_held_inside(ready, cell, tag))
        .count()
}

// Would its item be held inside an item of tag `tag` that opens?
fn is_held_inside<B: ShapeBook>(ready: &Ready<B>, cell: &Cell, tag: u8) -> bool
    ensures { result ≡ held_child (reach_of ready.now) (machine_of ready.now) tag cell.now }
{
    let child = cell.entered(ready, 0, tag);
    child.is_held(ready, Event::Open(tag))
}

// Would an item of tag `tag` be held at its own open, where this is the base's cell?
fn holds_new<B: SelectingBook>(ready: &Ready<B>, base: &Cell, tag: u8) -> bool
    ensures { (item since : ℕ) (under : List Level) → result ≡ is_held (machine_of ready.now) (Open tag) (holding_new item since (marked (reach_of ready.now) (selecting (machine_of ready.now) (B.marks ready.now.book)) tag (track (seen base.now).level under))) }
{
    let state = ready.book().mark(base.state(), tag);
    let new = base.entered(ready, 0, tag).beside(0, 0, state);
    new.is_held(ready, Event::Open(tag))
}
