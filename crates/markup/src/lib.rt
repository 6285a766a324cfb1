// Catalogue text: a reader that gives the tags of a text, one at a call, or its first fault.
// The rules of the text are those of specs/Grammar; specs/Law says which tags and which fault a text has.
#![tactic(auto)]

ghost use Rattle.markup.specs.Cases.{WorkedTexts};
ghost use Rattle.markup.specs.Law.{OneReading};

mod attribute;
mod class;
mod comment;
mod content;
mod cursor;
pub mod fault;
mod name;
mod next_token;
pub mod reader;
mod reference;
mod tag;
pub mod token;
pub mod whole_text;

pub use fault::ReaderFault;
pub use reader::Reader;
pub use token::Token;
pub use whole_text::{WholeText, read_all};

// Each text has one reading by the law, and it is the one that is found byte by byte.
pub fn law_stands()
    ensures { OneReading }
{}

// Worked texts, by the definitions.
pub fn worked_texts_stand()
    ensures { WorkedTexts }
{}
