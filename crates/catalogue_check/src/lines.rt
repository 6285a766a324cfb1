// The printed lines: one for each tag, indented by its depth, and the last one.
ghost use Rattle.std.specs.Prelude.{◌≡◌, ◌+◌, ◌^◌, ◌<◌, ◌++◌, Some, IfOk, OnOk};
ghost use Rattle.catalogue_check.specs.Lines.{depth_after, indent, last_line, line, token_line, token_lines};
ghost use Rattle.markup.specs.Whole.{ending};

use markup::{ReaderFault, Token};
use printing::Page;
use std::alloc::AllocError;
use std::fmt;
use std::fmt::Display;

// Two spaces for each level.
#[derive(Clone, Copy)]
struct Indent(usize);

impl Display for Indent {
    ghost output = { λ i. Some (indent i.0) };

    fn fmt<W: fmt::Write>(&self, f: &mut fmt::Formatter<W>) -> fmt::Result {
        // eight levels at once: a deep text is mostly blanks
        f.write_repeated("                ", self.0 / 8)?;
        f.write_repeated("  ", self.0 % 8)
    }
}

// The lines of tags, and the depth behind the last one.
#[derive(Drop)]
struct Outline {
    page: Page,
    depth: usize,
}

impl Outline {
    fn add_line(&mut self, at: usize, word: &str, name: &[u8]) -> Result<(), AllocError>
        ensures page { OnOk result (self.new.page ≡ self.old.page ++ line self.old.depth at word.now name.now) }
        ensures depth { self.new.depth ≡ self.old.depth }
    {
        let indent = Indent(self.depth);
        write!(self.page, "{indent}{at}{word}")?;
        self.page.add_bytes(name)?;
        self.page.add_bytes(b"\n")
    }

    // The line of a tag.
    fn add_tag(&mut self, tag: Token<'_>) -> Result<(), AllocError>
        requires { self.old.depth + 1 < 2 ^ 64 }
        ensures page { OnOk result (self.new.page ≡ self.old.page ++ token_line self.old.depth tag.entry) }
        ensures depth { OnOk result (self.new.depth ≡ depth_after self.old.depth tag.entry) }
    {
        match tag {
            Token::Open { name, at } => {
                self.add_line(at, " open ", name)?;
                self.depth += 1;
            }
            Token::Close { name, at } => {
                self.depth = self.depth.saturating_sub(1);
                self.add_line(at, " close ", name)?;
            }
            Token::Finish => {}
        }
        Ok(())
    }
}

// The lines of all tags.
pub(crate) fn add_tags(page: Page, tags: &[Token<'_>]) -> Result<Page, AllocError>
    ensures { IfOk result (λ p. p ≡ page ++ token_lines 0 tags.now) }
{
    let mut outline = Outline { page, depth: 0 };
    for tag in tags {
        outline.add_tag(*tag)?;
    }
    Ok(outline.page)
}

// How many tags there were, or where the text is refused.
pub(crate) fn add_last_line(
    page: &mut Page,
    count: usize,
    fault: Option<ReaderFault>,
) -> Result<(), AllocError>
    ensures { OnOk result (page.new ≡ page.old ++ last_line count (ending fault)) }
{
    match fault {
        None => page.add_fact(b"tags", count),
        Some(fault) => page.add_refusal(fault.number(), fault.place()),
    }
}
