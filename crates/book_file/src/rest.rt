// Reading the tables and the names of a book file, one behind another.
ghost use Rattle.std.specs.Prelude.{◌≡◌, ℕ, suc, ◌+◌, ◌*◌, ◌^◌, ◌<◌, ◌≤◌, [], length, take, drop, IfOk, OnOk};
ghost use Rattle.book_file.specs.Files.{misspelt};

use crate::header::Header;
use book::fault::BookFault;
use name_bytes::{NAME_LIMIT, is_name_byte, is_name_start};

// What is left of a file, and the offset at which it begins.
#[derive(Drop)]
pub(crate) struct Rest<'a> {
    pub(crate) bytes: &'a [u8],
    pub(crate) at: usize,
    ghost ends: { at + length bytes.now < 2 ^ 64 },
}

// The tables of a file; a shape file's for `mark` is empty. An `Option` would say a second time what the header's kind says.
#[derive(Clone, Copy)]
pub(crate) struct Tables<'a> {
    pub(crate) accept: &'a [u8],
    pub(crate) enter: &'a [u8],
    pub(crate) mark: &'a [u8],
    pub(crate) up: &'a [u8],
    pub(crate) side: &'a [u8],
}

// The offset of the first byte that a name may not have there, of a name that begins at an offset.
fn first_bad_byte(name: &[u8], at: usize) -> Option<usize>
    requires { at + length name.now < 2 ^ 64 }
    ensures { result ≡ misspelt at name.now }
{
    let (first, others) = name.split_first()?;
    if !is_name_start(*first) {
        return Some(at);
    }
    others
        .iter()
        .position(|byte| !is_name_byte(*byte))
        .map(|place| at + 1 + place)
}

impl<'a> Rest<'a> {
    ghost use Rattle.book_file.specs.Files.{Filled, name_at, names_at, parted, passed, table_at, tables_at, tables_size};
    ghost use Rattle.book_file.specs.Names.{unpacked};
    ghost use Rattle.book_file.specs.Parts.{TablesFilled, tables_of};

    // The next table, of a size, with entries below a bound.
    fn table(&mut self, size: usize, bound: u16) -> Result<&'a [u8], BookFault>
        requires { size ≤ length self.old.bytes.now }
        ensures value { parted result ≡ table_at bound self.old.at (take size self.old.bytes.now) }
        ensures filled { IfOk result (λ xs. Filled size bound xs.now) }
        ensures bytes { self.new.bytes.now ≡ drop size self.old.bytes.now }
        ensures at { self.new.at ≡ self.old.at + size }
        ensures left { length self.new.bytes.now + size ≡ length self.old.bytes.now }
    {
        let at = self.at;
        let (entries, rest) = self.bytes.split_at(size);
        self.bytes = rest;
        self.at = at + size;
        match entries.iter().position(|entry| u16::from(*entry) >= bound) {
            Some(place) => Err(BookFault::TableEntry { at: at + place }),
            None => Ok(entries),
        }
    }

    // All tables, which must be there.
    pub(crate) fn tables(&mut self, header: Header) -> Result<Tables<'a>, BookFault>
        requires { tables_size header ≤ length self.old.bytes.now }
        ensures value { tables_of result ≡ tables_at header self.old.at self.old.bytes.now }
        ensures filled { IfOk result (TablesFilled header) }
        ensures rest { OnOk result ((self.new.bytes.now ≡ drop (tables_size header) self.old.bytes.now) × (self.new.at ≡ self.old.at + tables_size header)) }
    {
        let accept = self.table(usize::from(header.states), 2)?;
        let enter = self.table(header.entries(), header.states)?;
        let mark = self.table(header.marks(), header.states)?;
        let up = self.table(header.entries(), header.trees)?;
        let side = self.table(header.sides(), header.states)?;
        Ok(Tables {
            accept,
            enter,
            mark,
            up,
            side,
        })
    }

    // How many bytes the whole file has.
    fn size(&self) -> usize
        ensures { result ≡ self.now.at + length self.now.bytes.now }
    {
        self.at + self.bytes.len()
    }

    // The next name: its length, then whether it is whole, then its bytes.
    fn name(&mut self) -> Result<&'a [u8], BookFault>
        ensures value { parted result ≡ name_at (self.old.at + length self.old.bytes.now) self.old.at self.old.bytes.now }
        ensures bytes { IfOk result (λ w. self.new.bytes.now ≡ drop (suc (length w.now)) self.old.bytes.now) }
        ensures at { IfOk result (λ w. self.new.at ≡ self.old.at + suc (length w.now)) }
        ensures size { IfOk result (λ w. self.new.at + length self.new.bytes.now ≡ self.old.at + length self.old.bytes.now) }
    {
        let Some((first, rest)) = self.bytes.split_first() else {
            return Err(BookFault::CutOff {
                length: self.size(),
            });
        };
        let at = self.at;
        let length = usize::from(*first);
        // Two comparisons: behind `contains` the check leaves open what is answered for a bad byte and for a name.
        if length < 1 || length > NAME_LIMIT {
            return Err(BookFault::NameByte { at });
        }
        let Some((name, rest)) = rest.split_at_checked(length) else {
            return Err(BookFault::CutOff {
                length: self.size(),
            });
        };
        if let Some(at) = first_bad_byte(name, at + 1) {
            return Err(BookFault::NameByte { at });
        }
        self.bytes = rest;
        self.at = at + 1 + length;
        Ok(name)
    }

    // So many names, and nothing behind them.
    pub(crate) fn names(&mut self, count: u8) -> Result<(), BookFault>
        ensures { passed result (unpacked count self.old.bytes.now) ≡ names_at (self.old.at + length self.old.bytes.now) count self.old.at self.old.bytes.now }
    {
        'names: for _ in 0..count {
            let _name = self.name()?;
        }
        self.finish()
    }

    // Nothing may be left.
    fn finish(&self) -> Result<(), BookFault>
        ensures { (size : ℕ) → passed result [] ≡ names_at size 0 self.now.at self.now.bytes.now }
    {
        if self.bytes.is_empty() {
            Ok(())
        } else {
            Err(BookFault::ExtraByte { at: self.at })
        }
    }
}
