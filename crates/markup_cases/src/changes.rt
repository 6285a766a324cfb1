// A long right text, its prefixes, and its changes of one byte.
use crate::counts::Counts;
use markup_host::summarize;

// Every form that is right stands in it.
pub(crate) fn long_text() -> &'static [u8] {
    b"top &amp; text ]]> <!-- a - b < & --><box id=\"a1\" kind = 'x &lt; \"y\"'\n\tnote=\"it's &quot;q&quot;\" >some > words, \x7f \xc3\xa9 &gt; &apos; <reel/><reel  n='' /><:a-b.c_9\tx=\"\xff\"></:a-b.c_9 ><!----></box\r\n>tail<seal></seal>&lt;&amp;\n"
}

// How the text ends that has the first bytes of the text, for each number of them.
pub(crate) fn note_prefixes(text: &[u8]) -> Counts {
    let mut counts = Counts::default();
    for n in 0..=text.len() {
        counts.note(summarize(&text[..n]).fault);
    }
    counts
}

// How each text ends that differs from the text in one byte; the text is as before at the end.
pub(crate) fn note_changes(text: &mut [u8]) -> Counts {
    let mut counts = Counts::default();
    // by index, since the whole text is read between two writes of a byte
    for i in 0..text.len() {
        let was = text[i];
        for b in 0..=255u8 {
            if b != was {
                text[i] = b;
                counts.note(summarize(text).fault);
            }
        }
        text[i] = was;
    }
    counts
}
