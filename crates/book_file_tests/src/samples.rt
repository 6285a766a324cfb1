// Book files as bytes.

// It selects a reel that a later sibling seal follows: five states, five tree states, two names.
pub const SEAL: [u8; 95] = [
    // letters, version, states, tree states, tags, kind, start
    83, 69, 76, 1, 0, 5, 5, 3, 1, 0,
    // accept, from 10 on
    0, 0, 1, 0, 0,
    // enter, from 15 on
    0, 0, 0, 0, 0, 0, 2, 2, 2, 3, 3, 3, 0, 0, 0,
    // mark, from 30 on
    3, 4, 3, 3, 3, 3, 3, 3, 3, 3, 3, 3, 3, 3, 3,
    // up, from 45 on
    0, 0, 4, 3, 3, 3, 2, 2, 2, 3, 3, 3, 1, 1, 1,
    // side, from 60 on
    0, 1, 2, 3, 0, 1, 1, 2, 3, 2, 2, 2, 2, 2, 2, 3, 3, 3, 3, 3, 4, 4, 2, 3, 4,
    // reel, from 85 on
    4, 114, 101, 101, 108,
    // seal, from 90 on
    4, 115, 101, 97, 108,
];

// One state, one tree state, one tag, which needs no name; the state accepts.
pub const SHORTEST: [u8; 14] = [83, 69, 76, 1, 0, 1, 1, 1, 0, 0, 1, 0, 0, 0];

// The seal book with another byte.
pub(crate) fn seal_with(at: usize, byte: u8) -> [u8; 95] {
    let mut bytes = SEAL;
    if let Some(place) = bytes.get_mut(at) {
        *place = byte;
    }
    bytes
}
