// Tags.
use crate::class::{is_name_start, is_white};
use crate::cursor::Cursor;
use crate::fault::ReaderFault;

#[derive(Clone, Copy)]
pub(crate) enum TagKind {
    Start,
    Empty,
    End,
}

// Where a tag's `<` stands, and the place behind its name.
#[derive(Clone, Copy)]
pub(crate) struct TagPlaces {
    pub at: usize,
    pub end: usize,
    pub kind: TagKind,
}

impl<'a> Cursor<'a> {
    ghost use Rattle.markup.specs.Parts.{Closed, Finds, Opened, Tagged};
    ghost use Rattle.markup.specs.Reading.{angle};
    ghost use Rattle.std.specs.Prelude.{◌≡◌, ◌+◌};

    // The next tag, or none where the text ends.
    pub(crate) fn next_tag(&mut self) -> Result<Option<TagPlaces>, ReaderFault>
        ensures { Tagged self.old result self.new }
    {
        loop {
            self.content(b'<')?;
            let at = self.place;
            if at == self.text.len() {
                return Ok(None);
            }
            self.take(|b| b == b'<')?;
            let tag = self.piece(at)?;
            if tag.is_some() {
                return Ok(tag);
            }
        }
    }

    // Behind `<`: past the piece. Its tag, which a comment has none of.
    fn piece(&mut self, at: usize) -> Result<Option<TagPlaces>, ReaderFault>
        requires { self.old.place ≡ at + 1 }
        ensures { Finds self.old (angle at) result self.new }
    {
        let b = self.peek()?;
        if is_name_start(b) {
            self.place += 1;
            let tag = self.start_tag(at)?;
            return Ok(Some(tag));
        }
        match b {
            b'/' => {
                self.place += 1;
                let tag = self.end_tag(at)?;
                Ok(Some(tag))
            }
            b'!' => {
                self.place += 1;
                self.after_bang(at)?;
                Ok(None)
            }
            b'?' => Err(ReaderFault::OtherForm { at }),
            _ => Err(ReaderFault::Byte { at: self.place }),
        }
    }

    // A start or empty tag, behind the first byte of its name.
    fn start_tag(&mut self, at: usize) -> Result<TagPlaces, ReaderFault>
        ensures { Opened self.old at result self.new }
    {
        self.name_rest()?;
        let end = self.place;
        let b = self.attributes()?;
        match b {
            b'>' => {
                self.place += 1;
                Ok(TagPlaces {
                    at,
                    end,
                    kind: TagKind::Start,
                })
            }
            b'/' => {
                self.place += 1;
                self.take(|b| b == b'>')?;
                Ok(TagPlaces {
                    at,
                    end,
                    kind: TagKind::Empty,
                })
            }
            _ => Err(ReaderFault::Byte { at: self.place }),
        }
    }

    // An end tag, behind `</`.
    fn end_tag(&mut self, at: usize) -> Result<TagPlaces, ReaderFault>
        ensures { Closed self.old at result self.new }
    {
        self.take(is_name_start)?;
        self.name_rest()?;
        let end = self.place;
        self.skip(is_white);
        self.take(|c| c == b'>')?;
        Ok(TagPlaces {
            at,
            end,
            kind: TagKind::End,
        })
    }
}
