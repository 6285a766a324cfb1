// Classes of bytes.
ghost use Rattle.markup.specs.Grammar.{allowed, data_byte, plain, white};
ghost use Rattle.name_bytes.specs.Names.{name_byte, name_start};
ghost use Rattle.std.specs.Prelude.{◌≡◌};

// A name may go on with the byte.
const NAME: u8 = 1;

// The byte is data: allowed, and neither `<` nor `&`.
const DATA: u8 = 2;

// White space.
const WHITE: u8 = 4;

// A name may begin with the byte.
const START: u8 = 8;

// For each byte a sign, whose low four bits are the flags above. With comparisons in place of the look-ups a catalogue took half
// as long again to read.
const CLASS: [u8; 256] = *b"\
    00000000066006000000000000000000\
    62222202222223323333333333;20222\
    2;;;;;;;;;;;;;;;;;;;;;;;;;;2222;\
    2;;;;;;;;;;;;;;;;;;;;;;;;;;22222\
    22222222222222222222222222222222\
    22222222222222222222222222222222\
    22222222222222222222222222222222\
    22222222222222222222222222222222";

pub(crate) fn is_white(b: u8) -> bool
    ensures { result ≡ white b }
{
    CLASS[b as usize] & WHITE != 0
}

pub(crate) fn is_allowed(b: u8) -> bool
    ensures { result ≡ allowed b }
{
    b >= b' ' || is_white(b)
}

pub(crate) fn is_name_start(b: u8) -> bool
    ensures { result ≡ name_start b }
{
    CLASS[b as usize] & START != 0
}

pub(crate) fn is_name_byte(b: u8) -> bool
    ensures { result ≡ name_byte b }
{
    CLASS[b as usize] & NAME != 0
}

fn is_data(b: u8) -> bool
    ensures { result ≡ data_byte b }
{
    CLASS[b as usize] & DATA != 0
}

// Whether the byte stands for itself in text (`stop` is then `<`) or in a value (`stop` is its quote).
pub(crate) fn is_plain(b: u8, stop: u8) -> bool
    ensures { result ≡ plain stop b }
{
    is_data(b) && b != stop
}
