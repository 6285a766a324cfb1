// The numbers that the subject fixes for books.

// Tags are below it.
pub const TAGS: u8 = 32;

// The greatest width of a book.
pub const MOST_STATES: u16 = 64;

// The most steps of a path book.
pub const MOST_STEPS: usize = 4;

// The greatest depth of a level shape.
pub const MOST_DEPTH: u8 = 32;
