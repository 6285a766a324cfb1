// The calls of a scan.
ghost use Rattle.std.specs.Prelude.{◌≡◌, ◌+◌, ◌*◌, ◌≤◌, if◌then◌else◌, []};
ghost use Rattle.book.specs.declared.event.Event.TheVariants.{Open, Close, End};
ghost use Rattle.book.specs.Machines.{LawfulMarks};
ghost use Rattle.levels.specs.Sets.{machine_of, reach_of};
ghost use Rattle.scan.specs.Model.{begun};
ghost use Rattle.scan.specs.Standing.{Stands};
ghost use Rattle.scan_calls.specs.Scans.{model_of, meaning_of, table_of, totals_of, Counted, Stepped, Called};

use crate::limits::DEPTH;
use crate::scanning::{Rows, Scan};
use book::answer::{Order, Refusal, Totals};
use book::event::Event;
use book::selecting_book::SelectingBook;
use cells::Cell;
use ready::ready::Ready;

impl<B: SelectingBook> Scan<B> {
    // A scan takes the ready book over; no event has been, and no order is given.
    pub fn begin(ready: Ready<B>) -> Scan<B>
        ensures same { result.ready ≡ ready }
        ensures model { model_of result ≡ begun (reach_of ready) (machine_of ready) }
        ensures stands { Stands (table_of result) (meaning_of result) (model_of result) [] [] }
    {
        let base = Cell::base(&ready);
        Scan {
            ready,
            rows: Rows::begin(base),
            tags: [0; DEPTH],
            events: 0,
            opened: 0,
            ordered: 0,
            ended: false,
        }
    }

    // One call, whichever it is.
    pub fn send(&mut self, call: Event, orders: &mut [Order]) -> Result<Totals, Refusal>
        ensures { Called call self.old self.new orders.old orders.new result }
    {
        self.marked();
        match call {
            Event::Open(tag) => self.make_open(tag, orders),
            Event::Close(tag) => self.make_close(tag, orders),
            Event::End => self.make_end(orders),
        }
    }

    // No effect: the rules of range for the marks of the scan's book.
    fn marked(&self)
        ensures { LawfulMarks (meaning_of self.now).shape (meaning_of self.now).mark }
    {
        self.ready.book().marked();
    }

    // The three calls of the subject by their names; `send` takes any of them.

    // An item of this tag opens.
    pub fn open(&mut self, tag: u8, orders: &mut [Order]) -> Result<Totals, Refusal>
        ensures { Called (Open tag) self.old self.new orders.old orders.new result }
    {
        self.send(Event::Open(tag), orders)
    }

    // The innermost item, which has this tag, closes.
    pub fn close(&mut self, tag: u8, orders: &mut [Order]) -> Result<Totals, Refusal>
        ensures { Called (Close tag) self.old self.new orders.old orders.new result }
    {
        self.send(Event::Close(tag), orders)
    }

    // The catalogue ends.
    pub fn end(&mut self, orders: &mut [Order]) -> Result<Totals, Refusal>
        ensures { Called End self.old self.new orders.old orders.new result }
    {
        self.send(Event::End, orders)
    }

    // The ready book, at any time.
    pub fn hand_back(self) -> Ready<B>
        ensures { result ≡ self.ready }
    {
        let Scan { ready, .. } = self;
        ready
    }

    fn make_open(&mut self, tag: u8, orders: &mut [Order]) -> Result<Totals, Refusal>
        ensures { Stepped (Open tag) self.old self.new orders.old orders.new result }
    {
        self.check_open(tag, orders.len())?;
        let event = self.events + 1;
        let item = self.opened + 1;
        self.tags[self.rows.depth] = tag;
        self.rows.open(&self.ready, item, event, tag);
        let sent = self
            .rows
            .settle(&self.ready, Event::Open(tag), event, orders);
        self.opened = item;
        Ok(self.accept(event, sent))
    }

    fn make_close(&mut self, tag: u8, orders: &mut [Order]) -> Result<Totals, Refusal>
        ensures { Stepped (Close tag) self.old self.new orders.old orders.new result }
    {
        self.check_close(tag, orders.len())?;
        let event = self.events + 1;
        let sent = self.rows.close(&self.ready, tag, event, orders);
        Ok(self.accept(event, sent))
    }

    fn make_end(&mut self, orders: &mut [Order]) -> Result<Totals, Refusal>
        ensures { Stepped End self.old self.new orders.old orders.new result }
    {
        self.check_end(orders.len())?;
        let event = self.events + 1;
        let sent = self.rows.settle(&self.ready, Event::End, event, orders);
        self.ended = true;
        Ok(self.accept(event, sent))
    }

    // A call is accepted, and its rows are already behind its event: the event and its orders are counted, and the answer made.
    fn accept(&mut self, event: u32, sent: usize) -> Totals
        requires paced { event + self.old.rows.depth ≤ 2 * self.old.opened + (if self.old.ended then 1 else 0) }
        requires counted { self.old.ordered + sent + self.old.rows.count ≤ self.old.opened + 1 }
        ensures scan { Counted event sent self.old self.new }
        ensures answer { result ≡ totals_of sent self.new }
    {
        self.events = event;
        self.ordered += sent as u32;
        self.totals(sent)
    }

    // The answer of an accepted call that gave `sent` orders.
    fn totals(&self, sent: usize) -> Totals
        ensures { result ≡ totals_of sent self.now }
    {
        let held = (self.rows.count - 1) as u32;
        Totals {
            orders: sent,
            opened: self.opened,
            ordered: self.ordered,
            dropped: self.opened - (self.ordered + held),
            held,
        }
    }
}
