// The reader for host programs in C, a static library: how the reading of a text ends, and how many tags it gives.
// C programs link these names, so each function stands here once more and passes its call on.
#![tactic(auto)]

ghost use Rattle.markup.specs.Reading.{reading};
ghost use Rattle.markup_host.specs.Endings.{capped, ending_number, ending_place};
ghost use Rattle.std.specs.Prelude.{length, ◌≡◌};

// The number of the text's fault, or 0 for a right text.
#[unsafe(no_mangle)]
pub extern "C" fn markup_number(text: &[u8]) -> u32
    ensures { result ≡ ending_number (reading text.now).ended }
{
    markup_host::markup_number(text)
}

// The place of the text's fault, or 0 for a right text.
#[unsafe(no_mangle)]
pub extern "C" fn markup_place(text: &[u8]) -> usize
    ensures { result ≡ ending_place (reading text.now).ended }
{
    markup_host::markup_place(text)
}

// How many tags the text gives before its end or its fault, or the greatest number where there were more.
#[unsafe(no_mangle)]
pub extern "C" fn markup_tags(text: &[u8]) -> u64
    ensures { result ≡ capped (length (reading text.now).given) }
{
    markup_host::markup_tags(text)
}
