// Printed lines: what the programs write.
#![tactic(auto)]

ghost use Rattle.std.specs.Prelude.{◌≡◌, ℕ, List, ◌++◌, IfSome, decimal, OnOk};
ghost use Rattle.printing.specs.Lines.{fact_line, refusal_line};

use std::alloc::{AllocError, Global};
use std::fmt::Display;
use std::marker::Model;

// What was printed so far. Words and numbers are added by `write!`, the bytes of a name as they are.
#[derive(Drop)]
pub struct Page {
    bytes: Vec<u8>,
    // Where `write!` makes a text before it is added, so that all texts are made in the same memory.
    draft: String,
}

impl Model for Page {
    ghost Value = { List ℕ };

    ghost view = { λ p. p.bytes.items };
}

impl From<Vec<u8>> for Page {
    ghost from_gives = { λ v p. p ≡ v.items };

    fn from(bytes: Vec<u8>) -> Page {
        let heap = *bytes.allocator();
        Page {
            bytes,
            draft: String::new(heap),
        }
    }
}

// What a program prints of its input, and why it refuses the input, where it does.
#[derive(Drop)]
pub struct Report<F> {
    pub printed: Vec<u8>,
    pub fault: Option<F>,
}

impl Page {
    pub fn into_bytes(self) -> Vec<u8>
        ensures { result.items ≡ self }
    {
        let Page { bytes, .. } = self;
        bytes
    }

    // The memory that it grows in: there is one.
    pub fn heap(&self) -> Global
        ensures { (heap : _) → result ≡ heap }
    {
        *self.bytes.allocator()
    }

    // What `write!` calls.
    pub fn write_fmt<D: Display + Drop>(&mut self, text: D) -> Result<(), AllocError>
        ensures { OnOk result (IfSome (D.output text) (λ bs. self.new ≡ self.old ++ bs)) }
    {
        self.draft.clear();
        self.draft.write(text)?;
        self.bytes.extend_from_slice(self.draft.as_bytes())
    }

    pub fn add_bytes(&mut self, bytes: &[u8]) -> Result<(), AllocError>
        ensures { OnOk result (self.new ≡ self.old ++ bytes.now) }
    {
        self.bytes.extend_from_slice(bytes)
    }

    // A number in decimal digits.
    pub fn add_number(&mut self, n: usize) -> Result<(), AllocError>
        ensures { OnOk result (self.new ≡ self.old ++ decimal n) }
    {
        write!(self, "{n}")
    }

    // A line with a label and a number.
    pub fn add_fact(&mut self, label: &[u8], n: usize) -> Result<(), AllocError>
        ensures { OnOk result (self.new ≡ self.old ++ fact_line label.now n) }
    {
        self.add_bytes(label)?;
        writeln!(self, " {n}")
    }

    // The line of a refusal, by number and place, since each program's faults have a type of their own.
    pub fn add_refusal(&mut self, number: u32, place: usize) -> Result<(), AllocError>
        ensures { OnOk result (self.new ≡ self.old ++ refusal_line number place) }
    {
        writeln!(self, "refused {number} at {place}")
    }
}

#[cfg(test)]
mod tests {
    use super::*;

    #[test]
    fn lines_of_each_form(rt: HostRuntime) -> Result<(), AllocError> {
        let mut page = Page::from(b"kind ".to_vec(rt.alloc())?);
        page.add_bytes(b"shape\n")?;
        page.add_fact(b"tree states", 5)?;
        page.add_number(64)?;
        writeln!(page, " of {}", 345)?;
        page.add_refusal(14, 9)?;
        let text = b"kind shape\ntree states 5\n64 of 345\nrefused 14 at 9\n";
        assert_eq!(rt; page.into_bytes().as_slice(), text.as_slice());
        Ok(())
    }
}
