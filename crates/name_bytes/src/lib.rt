// The bytes of names, in catalogue text and in book files alike: the ASCII part of productions 4 and 4a of XML 1.0.
#![tactic(auto)]

ghost use Rattle.name_bytes.specs.Names.{name_start, name_byte};
ghost use Rattle.std.specs.Prelude.{◌≡◌};

// The most bytes that a name may have.
pub const NAME_LIMIT: usize = 64;

// Whether a name may begin with this byte: `:`, `_` or a letter.
pub fn is_name_start(b: u8) -> bool
    ensures { result ≡ name_start b }
{
    matches!(b, b':' | b'_' | b'A'..=b'Z' | b'a'..=b'z')
}

// Whether a name may go on with this byte: one that may begin it, `-`, `.` or a digit.
pub fn is_name_byte(b: u8) -> bool
    ensures { result ≡ name_byte b }
{
    is_name_start(b) || matches!(b, b'-' | b'.' | b'0'..=b'9')
}
