// A scan keeps its runs as cells: at each level one for the base run, and one for each held item. What two runs have in
// common is kept once, since a cell names the cell of the level around it that its run came from.
ghost use Rattle.std.specs.Prelude.{◌≡◌};
ghost use Rattle.levels.specs.Sets.{machine_of, reach_of};
ghost use Rattle.scan.specs.Model.{is_due, is_held, note};
ghost use Rattle.cells.specs.Cells.{no_cell, cell_at, seen, alone, first_seen, entered_seen, left_seen, beside_seen};

use book::answer::Order;
use book::event::Event;
use book::shape_book::ShapeBook;
use levels::Level;
use ready::ready::Ready;

#[derive(Clone, Copy)]
pub struct Cell {
    // the item whose run it is, and the event that opened it; the base run has 0 and 0, which nothing reads
    item: u32,
    since: u32,
    // the place of the run's cell in the level around this one: a place and no reference, since all cells are parts of one
    // fixed array
    parent: u8,
    level: Level,
}

impl Cell {
    // The cell of no run.
    pub fn blank() -> Cell
        ensures { result ≡ no_cell }
    {
        Cell {
            item: 0,
            since: 0,
            parent: 0,
            level: Level::blank(),
        }
    }

    // The base run before any event.
    pub fn base<B: ShapeBook>(ready: &Ready<B>) -> Cell
        ensures { seen result ≡ first_seen (reach_of ready.now) (machine_of ready.now) }
    {
        Cell {
            level: Level::outermost(ready),
            ..Cell::blank()
        }
    }

    // The run inside an item of tag `tag` that opens: this cell, which is at `place`, is the one around it.
    pub fn entered<B: ShapeBook>(&self, ready: &Ready<B>, place: u8, tag: u8) -> Cell
        ensures { seen result ≡ entered_seen (reach_of ready.now) (machine_of ready.now) place tag (seen self.now) }
    {
        let state = ready.book().enter(self.level.state(), tag);
        Cell {
            parent: place,
            level: self.level.inside(ready, state, tag),
            ..*self
        }
    }

    // The run behind an item of tag `tag` that closes; the cells around are those of the level that it goes on in.
    pub fn left<B: ShapeBook>(&self, ready: &Ready<B>, around: &[Cell], tag: u8) -> Cell
        ensures { seen result ≡ left_seen (machine_of ready.now) tag around.now (seen self.now) }
    {
        let outer = cell_at(around, self.parent as usize);
        Cell {
            parent: outer.parent,
            level: outer.level.behind(ready, self.level.state(), tag),
            ..*self
        }
    }

    // The run of a new item beside this one: in its own state, and otherwise where this run is.
    pub fn beside(&self, item: u32, since: u32, state: u16) -> Cell
        ensures { seen result ≡ beside_seen item since state (seen self.now) }
    {
        Cell {
            item,
            since,
            level: self.level.at(state),
            ..*self
        }
    }

    pub fn state(&self) -> u16
        ensures { result ≡ (seen self.now).level.state }
    {
        self.level.state()
    }

    // Once this event has been, is the item selected whatever follows?
    pub fn is_due<B: ShapeBook>(&self, ready: &Ready<B>, event: Event) -> bool
        ensures { result ≡ is_due (machine_of ready.now) event (alone (seen self.now)) }
    {
        !self.level.may_be(ready, event, false)
    }

    // Can it be selected, and can it be left out?
    pub fn is_held<B: ShapeBook>(&self, ready: &Ready<B>, event: Event) -> bool
        ensures { result ≡ is_held (machine_of ready.now) event (alone (seen self.now)) }
    {
        self.level.may_be(ready, event, true) && self.level.may_be(ready, event, false)
    }

    // The record of an order of the item at the event of this number.
    pub fn order(&self, event: u32) -> Order
        ensures { result ≡ note event (alone (seen self.now)) }
    {
        Order {
            item: self.item,
            opened: self.since,
            ordered: event,
        }
    }
}

// Past the last cell there is the cell of no run, and no Option: leaving a level cannot fail.
pub fn cell_at(cells: &[Cell], place: usize) -> Cell
    ensures { result ≡ cell_at cells.now place }
{
    cells.get(place).copied().unwrap_or(Cell::blank())
}
