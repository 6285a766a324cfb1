// Attributes of a start or empty tag, with the white space before each.
use crate::class::{is_name_start, is_white};
use crate::cursor::Cursor;
use crate::fault::ReaderFault;

impl<'a> Cursor<'a> {
    ghost use Rattle.markup.specs.Parts.{Attributed, Shuts, Valued};

    // Behind a start tag's name: past its attributes and white space, to the byte that ends the tag or is refused, which is given.
    pub(crate) fn attributes(&mut self) -> Result<u8, ReaderFault>
        ensures { Shuts self.old result self.new }
    {
        loop {
            let b = self.peek()?;
            if !is_white(b) {
                return Ok(b);
            }
            self.place += 1;
            self.skip(is_white);
            let c = self.peek()?;
            if !is_name_start(c) {
                return Ok(c);
            }
            self.place += 1;
            self.attribute()?;
        }
    }

    // An attribute, behind the first byte of its name: past its value.
    fn attribute(&mut self) -> Result<(), ReaderFault>
        ensures { Attributed self.old result self.new }
    {
        self.name_rest()?;
        self.skip(is_white);
        self.take(|b| b == b'=')?;
        self.value()
    }

    // Behind `=`: past the value.
    fn value(&mut self) -> Result<(), ReaderFault>
        ensures { Valued self.old result self.new }
    {
        self.skip(is_white);
        let quote = self.take(|b| b == b'"' || b == b'\'')?;
        self.content(quote)?;
        self.take(|b| b == quote)?;
        Ok(())
    }
}
