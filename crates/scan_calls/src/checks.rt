// The table of checks, for each call: the topmost line that is met gives the refusal. Nothing is changed by a check.
ghost use Rattle.std.specs.Prelude.{◌≡◌, ℕ, ◌+◌, ◌<◌, ◌≤◌, Bool, List, [], ◌∷◌, ◌++◌, map, length, filter, nat_lt};
ghost use Rattle.book.specs.declared.event.Event.{Event as Call};
ghost use Rattle.book.specs.declared.event.Event.TheVariants.{Open, Close, End};
ghost use Rattle.book.specs.Limits.{most_held};
ghost use Rattle.book.specs.Checks.{scan_lines};
ghost use Rattle.scan.specs.Tests.{checked};
ghost use Rattle.scan.specs.Model.{test, held_at};
ghost use Rattle.scan_calls.specs.Scans.{model_of, meaning_of, table_of, first_lines};

use crate::limits::{DEPTH, MOST_HELD, MOST_ITEMS, ROOM};
use crate::scanning::Scan;
use book::answer::Refusal;
use book::limits::TAGS;
use book::selecting_book::SelectingBook;
use book::shape_book::ShapeBook;

impl<B: SelectingBook> Scan<B> {
    // What every call asks first.
    fn check_call(&self, room: usize) -> Result<(), Refusal>
        ensures { (e : Call) → result ≡ checked (test (table_of self.now) (meaning_of self.now) (model_of self.now) room e) first_lines tt }
    {
        if self.ready.book().width() == 0 {
            return Err(Refusal::NoStates);
        }
        if self.ended {
            return Err(Refusal::Ended);
        }
        if room < ROOM {
            return Err(Refusal::ShortList);
        }
        Ok(())
    }

    pub(crate) fn check_open(&self, tag: u8, room: usize) -> Result<(), Refusal>
        ensures { result ≡ checked (test (table_of self.now) (meaning_of self.now) (model_of self.now) room (Open tag)) scan_lines tt }
    {
        self.check_call(room)?;
        if tag >= TAGS {
            return Err(Refusal::BadTag);
        }
        if self.rows.depth >= DEPTH {
            return Err(Refusal::TooDeep);
        }
        if self.opened >= MOST_ITEMS {
            return Err(Refusal::TooMany);
        }
        if self.would_overfill(tag) {
            return Err(Refusal::HoldFull);
        }
        Ok(())
    }

    pub(crate) fn check_close(&self, tag: u8, room: usize) -> Result<(), Refusal>
        ensures { result ≡ checked (test (table_of self.now) (meaning_of self.now) (model_of self.now) room (Close tag)) scan_lines tt }
    {
        self.check_call(room)?;
        if self.rows.depth == 0 {
            return Err(Refusal::NoneOpen);
        }
        if self.tags[self.rows.depth - 1] != tag {
            return Err(Refusal::OtherTag);
        }
        Ok(())
    }

    pub(crate) fn check_end(&self, room: usize) -> Result<(), Refusal>
        ensures { result ≡ checked (test (table_of self.now) (meaning_of self.now) (model_of self.now) room End) scan_lines tt }
    {
        self.check_call(room)?;
        if self.rows.depth != 0 {
            return Err(Refusal::StillOpen);
        }
        Ok(())
    }

    // Would more items be held than may be, after the open of an item of tag `tag`? Each held item and the new one is
    // judged as if it had been accepted. Only a full hold can overflow, so that this costs nothing elsewhere.
    fn would_overfill(&self, tag: u8) -> bool
        ensures { result ≡ nat_lt most_held (length (held_at (table_of self.now) (meaning_of self.now) (model_of self.now) (Open tag))) }
    {
        if self.rows.count <= MOST_HELD {
            return false;
        }
        self.rows.held_inside(&self.ready, tag) > MOST_HELD
    }
}
