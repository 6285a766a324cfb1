// Reading a text tag by tag.
ghost use Rattle.markup.specs.Law.{Reads};
ghost use Rattle.markup.specs.Reading.{reading};
ghost use Rattle.markup.specs.Tokens.{Gives, remaining};
ghost use Rattle.std.specs.Prelude.{◌≡◌};

use crate::cursor::Cursor;
use crate::fault::ReaderFault;
use crate::reader::{Pending, Reader};
use crate::tag::{TagKind, TagPlaces};
use crate::token::Token;

impl<'a> Reader<'a> {
    // A reader at the beginning of a text.
    pub fn new(text: &'a [u8]) -> Reader<'a>
        ensures text { result.cursor.text.now ≡ text.now }
        ensures whole { remaining result ≡ reading text.now }
        ensures law { Reads text.now (remaining result) }
    {
        Reader {
            cursor: Cursor { text, place: 0 },
            pending: None,
        }
    }

    // The next tag, the finish or the fault; the last two come again at later calls.
    pub fn next(&mut self) -> Result<Token<'a>, ReaderFault>
        ensures text { self.new.cursor.text.now ≡ self.old.cursor.text.now }
        ensures gives { Gives self.old result self.new }
    {
        match self.pending {
            Some(Pending::Close { at, end }) => {
                self.pending = None;
                let name = &self.cursor.text[at + 1..end];
                Ok(Token::Close { name, at })
            }
            Some(Pending::Fault(fault)) => Err(fault),
            None => self.read_on(),
        }
    }

    // The next tag, the finish or the fault, where nothing is pending.
    fn read_on(&mut self) -> Result<Token<'a>, ReaderFault>
        requires { self.old.pending ≡ None }
        ensures text { self.new.cursor.text.now ≡ self.old.cursor.text.now }
        ensures gives { Gives self.old result self.new }
    {
        let mut cursor = self.cursor;
        let tag = match cursor.next_tag() {
            Ok(tag) => tag,
            Err(fault) => {
                self.pending = Some(Pending::Fault(fault));
                return Err(fault);
            }
        };
        self.cursor = cursor;
        let Some(TagPlaces { at, end, kind }) = tag else {
            return Ok(Token::Finish);
        };
        if matches!(kind, TagKind::End) {
            let name = &cursor.text[at + 2..end];
            return Ok(Token::Close { name, at });
        }
        if matches!(kind, TagKind::Empty) {
            self.pending = Some(Pending::Close { at, end });
        }
        let name = &cursor.text[at + 1..end];
        Ok(Token::Open { name, at })
    }
}
