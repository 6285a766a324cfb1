// The reader for host programs: how the reading of a text ends, and how many tags it gives. `summarize` gives the fault itself; the
// other functions give numbers, which is what C programs can take.
#![tactic(auto)]

ghost use Rattle.markup.specs.Reading.{reading};
ghost use Rattle.markup.specs.Whole.{ending};
ghost use Rattle.markup_host.specs.Endings.{capped, ending_number, ending_place};
ghost use Rattle.std.specs.Prelude.{length, ◌≡◌};

use markup::{Reader, ReaderFault, Token};

// What the reading of a text comes to.
#[derive(Clone, Copy)]
pub struct Summary {
    // how many tags the text gives before its end or its fault, or the greatest number where there were more
    pub tags: u64,
    pub fault: Option<ReaderFault>,
}

// Reads a text to its end or its fault.
pub fn summarize(text: &[u8]) -> Summary
    ensures tags { result.tags ≡ capped (length (reading text.now).given) }
    ensures fault { ending result.fault ≡ (reading text.now).ended }
{
    let mut reader = Reader::new(text);
    // counted here: the reader is no iterator, since its finish and its fault come again at each call
    let mut tags: u64 = 0;
    loop {
        match reader.next() {
            Ok(Token::Open { .. } | Token::Close { .. }) => tags = tags.saturating_add(1),
            Ok(Token::Finish) => return Summary { tags, fault: None },
            Err(fault) => return Summary {
                tags,
                fault: Some(fault),
            },
        }
    }
}

// The number of the text's fault, or 0 for a right text.
pub fn markup_number(text: &[u8]) -> u32
    ensures { result ≡ ending_number (reading text.now).ended }
{
    summarize(text).fault.map_or(0, |fault| fault.number())
}

// The place of the text's fault, or 0 for a right text.
pub fn markup_place(text: &[u8]) -> usize
    ensures { result ≡ ending_place (reading text.now).ended }
{
    summarize(text).fault.map_or(0, |fault| fault.place())
}

// How many tags the text gives before its end or its fault, or the greatest number where there were more.
pub fn markup_tags(text: &[u8]) -> u64
    ensures { result ≡ capped (length (reading text.now).given) }
{
    summarize(text).tags
}
