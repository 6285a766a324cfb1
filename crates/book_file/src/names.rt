// The names that a book file gives to tags.
ghost use Rattle.std.specs.Prelude.{◌≡◌, ◌<◌};
ghost use Rattle.book.specs.Limits.{tags};

// The part of a file that holds its names, as the file has them: each behind its length, the first that of tag 1. Nothing is
// copied, and no memory is asked for.
#[derive(Clone, Copy)]
pub struct Names<'a> {
    pub(crate) packed: &'a [u8],
    pub(crate) count: u8,
    ghost few: { count < tags },
}

// The names one after another.
#[derive(Drop)]
struct Words<'a>(Names<'a>);

impl<'a> Iterator for Words<'a> {
    ghost use Rattle.std.specs.Iterator.{YieldsFirstRef, at_most};
    ghost use Rattle.book_file.specs.Names.{words_left};

    type Item = &'a [u8];

    ghost next_gives = { YieldsFirstRef words_left };

    ghost remaining = { λ w. at_most w.0.count };

    fn next(&mut self) -> Option<&'a [u8]> {
        let count = self.0.count.checked_sub(1)?;
        let (length, rest) = self.0.packed.split_first()?;
        let (word, packed) = rest.split_at(rest.len().min(usize::from(*length)));
        self.0 = Names { packed, count };
        Some(word)
    }
}

impl<'a> Names<'a> {
    ghost use Rattle.book_file.specs.Names.{LowestTag, listed, name_of, spelt, tag_of};

    // The lowest tag that has this name, or 0 where no tag has it: tag 0 is that of every other name, so it is an answer too.
    pub fn tag_of(&self, name: &[u8]) -> u8
        ensures value { result ≡ tag_of (listed self.now) name.now }
        ensures lowest { LowestTag (listed self.now) name.now result }
    {
        // Fewer than 32 names stand before it, so the cast loses nothing; `try_from` would bring an error that can't come.
        Words(*self)
            .position(|word| word == name)
            .map_or(0, |before| before as u8 + 1)
    }

    // The name of a tag, where it has one.
    pub fn name_of(&self, tag: u8) -> Option<&'a [u8]>
        ensures { spelt result ≡ name_of (listed self.now) tag }
    {
        let before = tag.checked_sub(1)?;
        Words(*self).nth(usize::from(before))
    }
}
