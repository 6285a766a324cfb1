// A place in a text, and steps from it.
ghost use Rattle.std.specs.Prelude.{◌≤◌, length};

use crate::fault::ReaderFault;

// Everything before the place has been read.
#[derive(Clone, Copy)]
pub(crate) struct Cursor<'a> {
    pub text: &'a [u8],
    pub place: usize,
    ghost inside: { place ≤ length text.now },
}

impl<'a> Cursor<'a> {
    ghost use Rattle.markup.specs.Parts.{IsAt, Peeked, Skipped, SkippedUpTo, Takes};
    ghost use Rattle.markup.specs.declared.fault.ReaderFault.TheVariants.{Byte};

    // Whether the byte stands at the cursor.
    pub(crate) fn is_at(&self, b: u8) -> bool
        ensures { IsAt self.now b result }
    {
        self.text.get(self.place).is_some_and(|c| *c == b)
    }

    // The byte at the cursor; a text that ends there is cut off.
    pub(crate) fn peek(&self) -> Result<u8, ReaderFault>
        ensures { Peeked self.now result }
    {
        self.text
            .get(self.place)
            .copied()
            .ok_or(ReaderFault::CutOff { length: self.place })
    }

    // Past the byte at the cursor, if it fits; any other is refused with the fault.
    pub(crate) fn take_or<F: Fn(u8) -> bool>(
        &mut self,
        fits: F,
        fault: ReaderFault,
    ) -> Result<u8, ReaderFault>
        requires { F.IsAlwaysCallable fits }
        ensures { Takes (F.post fits) fault self.old result self.new }
    {
        let b = self.peek()?;
        if !fits(b) {
            return Err(fault);
        }
        self.place += 1;
        Ok(b)
    }

    // Past the byte at the cursor, if it fits; any other is refused where it stands.
    pub(crate) fn take<F: Fn(u8) -> bool>(&mut self, fits: F) -> Result<u8, ReaderFault>
        requires { F.IsAlwaysCallable fits }
        ensures { Takes (F.post fits) (Byte self.old.place) self.old result self.new }
    {
        let at = self.place;
        self.take_or(fits, ReaderFault::Byte { at })
    }

    // Past all bytes that fit.
    pub(crate) fn skip<F: Fn(u8) -> bool>(&mut self, fits: F)
        requires { F.IsAlwaysCallable fits }
        ensures { Skipped (F.post fits) self.old self.new }
    {
        self.skip_up_to(self.text.len() - self.place, fits);
    }

    // Past the bytes that fit, `most` of them at most: no byte behind those is looked at.
    pub(crate) fn skip_up_to<F: Fn(u8) -> bool>(&mut self, most: usize, fits: F)
        requires { F.IsAlwaysCallable fits }
        ensures { SkippedUpTo most (F.post fits) self.old self.new }
    {
        let end = self.place + most.min(self.text.len() - self.place);
        let mut place = self.place;
        while place < end && fits(self.text[place]) {
            place += 1;
        }
        self.place = place;
    }
}
