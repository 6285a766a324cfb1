// Lines that stand for bytes: `\n`, `\r`, `\t`, `\\`, and `\xHH` for a byte by two lower hexadecimal digits.
ghost use Rattle.std.specs.Prelude.{◌<◌, length, IfSome};

use std::alloc::{AllocError, Global};

// The bytes that a line stands for.
pub(crate) fn unescaped(heap: Global, line: &[u8]) -> Result<Vec<u8>, AllocError> {
    let mut bytes = Vec::new(heap);
    let mut rest = line;
    while let Some((b, behind)) = first_byte(rest) {
        bytes.push(b)?;
        rest = behind;
    }
    Ok(bytes)
}

// The first byte that a line stands for, and the rest of the line; a backslash before anything else stands for itself.
fn first_byte(line: &[u8]) -> Option<(u8, &[u8])>
    ensures { IfSome result (λ r. length r.1.now < length line.now) }
{
    match line {
        [b'\\', b'n', rest @ ..] => Some((b'\n', rest)),
        [b'\\', b'r', rest @ ..] => Some((b'\r', rest)),
        [b'\\', b't', rest @ ..] => Some((b'\t', rest)),
        [b'\\', b'\\', rest @ ..] => Some((b'\\', rest)),
        [b'\\', b'x', high, low, rest @ ..] => Some((digit(*high) * 16 + digit(*low), rest)),
        [b, rest @ ..] => Some((*b, rest)),
        [] => None,
    }
}

// The value of a lower hexadecimal digit, 0 for any other byte; `to_digit` would take capitals too.
fn digit(b: u8) -> u8
    ensures { result < 16 }
{
    match b {
        b'0'..=b'9' => b - b'0',
        b'a'..=b'f' => b - b'a' + 10,
        _ => 0,
    }
}
