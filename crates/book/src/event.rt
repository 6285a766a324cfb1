// What a catalogue streams: an item opens or closes, with its tag, or the catalogue ends.
#[derive(Clone, Copy, Debug, PartialEq, Eq)]
pub enum Event {
    Open(u8),
    Close(u8),
    End,
}
