// The reader: where it stands in its text.
ghost use Rattle.std.specs.Prelude.{◌≤◌, length};
ghost use Rattle.markup.specs.Pending.{name_from, name_until};

use crate::cursor::Cursor;
use crate::fault::ReaderFault;

// What the next call gives without reading on.
#[derive(Clone, Copy)]
pub(crate) enum Pending {
    // the close of an empty tag: the place of its `<`, and the place behind its name
    Close { at: usize, end: usize },
    // a fault that was met: nothing is read again for it
    Fault(ReaderFault),
}

// Where the fields stand once the open of the empty tag `<reel/>` has been given:
//
//     <box><reel/></box>
//          ^    ^ ^
//          at   | the cursor's place
//               end
//
// and `pending` is the close with that `at` and `end`.
#[derive(Drop)]
pub struct Reader<'a> {
    // everything before it has been read: the place behind the last tag given, or the text's end
    pub(crate) cursor: Cursor<'a>,
    pub(crate) pending: Option<Pending>,
    ghost named: { name_from pending ≤ name_until pending },
    ghost whole: { name_until pending ≤ length cursor.text.now },
}
