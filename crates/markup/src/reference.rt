// The five references: `&amp;` `&lt;` `&gt;` `&quot;` `&apos;`. `at` is the place of the `&`.
use crate::cursor::Cursor;
use crate::fault::ReaderFault;

impl<'a> Cursor<'a> {
    ghost use Rattle.markup.specs.Parts.{Awaited, Referred};
    ghost use Rattle.markup.specs.Reading.{ampersand, ampersand_a};

    // Behind `&`: past the reference.
    pub(crate) fn reference(&mut self, at: usize) -> Result<(), ReaderFault>
        ensures { Referred self.old at (ampersand at) result self.new }
    {
        let b = self.peek()?;
        match b {
            b'a' => {
                self.place += 1;
                self.reference_a(at)
            }
            b'l' | b'g' => {
                self.place += 1;
                self.reference_rest(at, b"t;")
            }
            b'q' => {
                self.place += 1;
                self.reference_rest(at, b"uot;")
            }
            _ => Err(ReaderFault::Reference { at }),
        }
    }

    // Behind `&a`.
    fn reference_a(&mut self, at: usize) -> Result<(), ReaderFault>
        ensures { Referred self.old at (ampersand_a at) result self.new }
    {
        let b = self.peek()?;
        match b {
            b'm' => {
                self.place += 1;
                self.reference_rest(at, b"p;")
            }
            b'p' => {
                self.place += 1;
                self.reference_rest(at, b"os;")
            }
            _ => Err(ReaderFault::Reference { at }),
        }
    }

    // Past the bytes that the reference has yet to have.
    fn reference_rest(&mut self, at: usize, rest: &[u8]) -> Result<(), ReaderFault>
        ensures { Awaited self.old at rest.now result self.new }
    {
        for want in rest {
            self.take_or(|b| b == *want, ReaderFault::Reference { at })?;
        }
        Ok(())
    }
}
