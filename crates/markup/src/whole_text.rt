// A whole text read at once.
ghost use Rattle.markup.specs.Whole.{Whole};
ghost use Rattle.std.specs.Prelude.{IfOk};

use crate::fault::ReaderFault;
use crate::reader::Reader;
use crate::token::Token;
use std::alloc::{AllocError, Global};

// The tags of a text, in their order, and the fault that ends them where the text is not right.
#[derive(Drop)]
pub struct WholeText<'a> {
    pub tags: Vec<Token<'a>>,
    pub fault: Option<ReaderFault>,
}

// Reads a text to its end or to its fault. Only want of memory refuses it.
pub fn read_all<'a>(heap: Global, text: &'a [u8]) -> Result<WholeText<'a>, AllocError>
    ensures { IfOk result (λ w. Whole text.now w) }
{
    let mut reader = Reader::new(text);
    let mut tags = Vec::new(heap);
    loop {
        match reader.next() {
            Ok(Token::Finish) => return Ok(WholeText { tags, fault: None }),
            Ok(token) => tags.push(token)?,
            Err(fault) => return Ok(WholeText {
                tags,
                fault: Some(fault),
            }),
        }
    }
}
