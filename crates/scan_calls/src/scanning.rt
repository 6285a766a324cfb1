// A scan: a ready book, taken over, with its runs over the events so far.
ghost use Rattle.std.specs.Prelude.{◌+◌, ◌*◌, ◌≤◌, if◌then◌else◌};
ghost use Rattle.scan_calls.specs.declared.limits.TheConstants.{CELLS, DEPTH, MOST_ITEMS, ROOM};

use crate::limits::{CELLS, DEPTH, LEVELS};
use book::selecting_book::SelectingBook;
use cells::Cell;
use ready::ready::Ready;

// The cells of each level up to the current one. The first cell of a row is the base run's, the others are those of the
// held items, by rising item number. After `<box><reel/><seal>`, with a reel that is ordered when the seal closes:
//
//     level 0   base
//     level 1   base  reel         inside the box
//     level 2   base  reel         inside the seal: the current level, with two cells in use
//
// Each cell names its parent, the cell of the level around it: here each base the base, and the reel the reel.
#[derive(Drop)]
pub(crate) struct Rows {
    // fixed arrays, since a scan takes no memory while it runs; what lies behind the cells in use means nothing
    pub(crate) cells: [[Cell; CELLS]; LEVELS],
    // the current level: as many items are open
    pub(crate) depth: usize,
    // how many cells of the current level are in use: the base's, and one for each held item
    pub(crate) count: usize,
    ghost deep: { depth ≤ DEPTH },
    ghost based: { 1 ≤ count },
    ghost wide: { count ≤ CELLS },
}

#[derive(Drop)]
pub struct Scan<B: SelectingBook> {
    pub(crate) ready: Ready<B>,
    pub(crate) rows: Rows,
    // the tags of the open items, the outermost first; as many as the rows' level, in fixed memory too
    pub(crate) tags: [u8; DEPTH],
    pub(crate) events: u32,
    pub(crate) opened: u32,
    pub(crate) ordered: u32,
    // a flag and no type of its own: an ended scan still takes each call, and refuses it
    pub(crate) ended: bool,
    ghost room: { rows.count ≤ ROOM },
    ghost few: { opened ≤ MOST_ITEMS },
    ghost counted: { ordered + rows.count ≤ opened + 1 },
    ghost paced: { events + rows.depth ≤ 2 * opened + (if ended then 1 else 0) },
}
