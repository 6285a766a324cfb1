// Text between tags, and what stands between the quotes of a value.
use crate::class::is_plain;
use crate::cursor::Cursor;
use crate::fault::ReaderFault;

impl<'a> Cursor<'a> {
    ghost use Rattle.markup.specs.Parts.{Contents};

    // Past bytes that stand for themselves and references, to a byte that ends them or is refused, or to the text's end.
    pub(crate) fn content(&mut self, stop: u8) -> Result<(), ReaderFault>
        ensures { Contents self.old stop result self.new }
    {
        loop {
            self.skip(|b| is_plain(b, stop));
            if !self.is_at(b'&') {
                return Ok(());
            }
            let at = self.place;
            self.place += 1;
            self.reference(at)?;
        }
    }
}
