// What the reader gives: the tags of a text, or its finish.

// A tag's name is the very part of the text; `at` is the place of the tag's `<`.
// An empty tag gives an open and then a close, with the same part and place.
#[derive(Clone, Copy)]
pub enum Token<'a> {
    Open { name: &'a [u8], at: usize },
    Close { name: &'a [u8], at: usize },
    // the text is right, and has no more tags; it is given again at each later call, so it is no end of an iteration
    Finish,
}
