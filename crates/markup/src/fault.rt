// Why a text is refused, and where.
ghost use Rattle.markup.specs.Faults.{fault_number, fault_place, fault_text};
ghost use Rattle.std.specs.Prelude.{◌≡◌, Some};

use std::error::Error;
use std::fmt;

#[derive(Clone, Copy, Debug, PartialEq, Eq)]
pub enum ReaderFault {
    // the text ends inside a tag, a comment or a reference
    CutOff { length: usize },
    // a byte that is not allowed where it stands
    Byte { at: usize },
    // `<?`, or `<!` that begins no comment: the place of its `<`
    OtherForm { at: usize },
    // the 65th byte of a name
    LongName { at: usize },
    // an `&` that begins none of the five references
    Reference { at: usize },
}

impl ReaderFault {
    // The number that is printed and that C programs get. The numbers stand here, since a variant with a field has none that `as` could read.
    pub fn number(self) -> u32
        ensures { result ≡ fault_number self }
    {
        match self {
            ReaderFault::CutOff { .. } => 21,
            ReaderFault::Byte { .. } => 22,
            ReaderFault::OtherForm { .. } => 23,
            ReaderFault::LongName { .. } => 24,
            ReaderFault::Reference { .. } => 25,
        }
    }

    // The offset in the text.
    pub fn place(self) -> usize
        ensures { result ≡ fault_place self }
    {
        match self {
            ReaderFault::CutOff { length } => length,
            ReaderFault::Byte { at }
            | ReaderFault::OtherForm { at }
            | ReaderFault::LongName { at }
            | ReaderFault::Reference { at } => at,
        }
    }
}

impl fmt::Display for ReaderFault {
    ghost output = { λ fault. Some (fault_text fault) };

    fn fmt<W: fmt::Write>(&self, f: &mut fmt::Formatter<W>) -> fmt::Result {
        let number = self.number();
        let place = self.place();
        write!(f, "refused {number} at {place}")
    }
}

impl Error for ReaderFault {}
