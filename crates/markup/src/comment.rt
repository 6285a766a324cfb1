// Comments.
use crate::class::is_allowed;
use crate::cursor::Cursor;
use crate::fault::ReaderFault;

impl<'a> Cursor<'a> {
    ghost use Rattle.markup.specs.Parts.{Way};
    ghost use Rattle.markup.specs.Reading.{bang, in_comment, in_text};

    // Behind `<!` with the `<` at a place: past the comment.
    pub(crate) fn after_bang(&mut self, at: usize) -> Result<(), ReaderFault>
        ensures { Way self.old (bang at) in_text result self.new }
    {
        self.take_or(|b| b == b'-', ReaderFault::OtherForm { at })?;
        self.take_or(|c| c == b'-', ReaderFault::OtherForm { at })?;
        self.comment()
    }

    // Behind `<!--`: past the comment's `-->`. Two hyphens of a comment are its end: no byte but `>` may stand behind them.
    fn comment(&mut self) -> Result<(), ReaderFault>
        ensures { Way self.old in_comment in_text result self.new }
    {
        loop {
            if self.take(is_allowed)? == b'-' && self.take(is_allowed)? == b'-' {
                self.take(|b| b == b'>')?;
                return Ok(());
            }
        }
    }
}
