// Names.
use crate::class::is_name_byte;
use crate::cursor::Cursor;
use crate::fault::ReaderFault;
use name_bytes::NAME_LIMIT;

impl<'a> Cursor<'a> {
    ghost use Rattle.markup.specs.Parts.{Named};

    // Behind the first byte of a name: past the name. No byte is looked at behind the first that is too many.
    #[tactic(auto, using(crate::proofs::Cursors::named_full, crate::proofs::Cursors::named_on))]
    pub(crate) fn name_rest(&mut self) -> Result<(), ReaderFault>
        ensures { Named self.old result self.new }
    {
        let from = self.place;
        self.skip_up_to(NAME_LIMIT, is_name_byte);
        let count = self.place - from;
        if count >= NAME_LIMIT {
            return Err(ReaderFault::LongName { at: self.place - 1 });
        }
        Ok(())
    }
}
