// The numbers that the subject fixes for scans, and the sizes that follow from them.

// How many items may be open at once.
pub(crate) const DEPTH: usize = 64;

// One level outside all items, and one inside each.
pub(crate) const LEVELS: usize = DEPTH + 1;

// How many items a scan takes.
pub(crate) const MOST_ITEMS: u32 = 16_777_215;

pub(crate) const MOST_HELD: usize = 128;

// The shortest list: an event may order each held item, and the one that it opens.
pub(crate) const ROOM: usize = MOST_HELD + 1;

// The base run, the held items, and one item more that may come to be held.
pub(crate) const CELLS: usize = MOST_HELD + 2;
