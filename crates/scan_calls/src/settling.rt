// Judging the items of a row: what is due is ordered, and what is held stays.
ghost use Rattle.std.specs.Prelude.{◌≡◌, ◌≤◌, ◌++◌, map, length, take, drop, filter};
ghost use Rattle.levels.specs.Sets.{machine_of};
ghost use Rattle.scan_calls.specs.Rows.{cell_due, cell_held, cell_note};

use book::answer::Order;
use book::event::Event;
use book::shape_book::ShapeBook;
use cells::Cell;
use ready::ready::Ready;

// The orders of the cells whose items are due, at the front of the list; how many they are.
pub(crate) fn write_orders<B: ShapeBook>(
    ready: &Ready<B>,
    cells: &[Cell],
    call: Event,
    event: u32,
    orders: &mut [Order],
) -> usize
    requires { length cells.now ≤ length orders.old }
    ensures count { result ≡ length (filter (cell_due (machine_of ready.now) call) cells.now) }
    ensures filled { orders.new ≡ map (cell_note event) (filter (cell_due (machine_of ready.now) call) cells.now) ++ drop result orders.old }
{
    // how many orders there are is their place in the list too, and the answer
    let mut sent = 0;
    for cell in cells {
        if cell.is_due(ready, call) {
            orders[sent] = cell.order(event);
            sent += 1;
        }
    }
    sent
}

// The cells whose items are held, at the front; how many they are.
pub(crate) fn keep_held<B: ShapeBook>(ready: &Ready<B>, cells: &mut [Cell], call: Event) -> usize
    ensures within { result ≤ length cells.old }
    ensures kept { take result cells.new ≡ filter (cell_held (machine_of ready.now) call) cells.old }
{
    let mut left = 0;
    // by index, since a cell that stays is written in front of the one that is read
    for i in 0..cells.len() {
        let cell = cells[i];
        if cell.is_held(ready, call) {
            cells[left] = cell;
            left += 1;
        }
    }
    left
}
