// Replaying calls.
ghost use Rattle.std.specs.Prelude.{◌≡◌};
ghost use Rattle.book.specs.Machines.{selecting};
ghost use Rattle.scan_calls.specs.Scans.{model_of, meaning_of, table_of};
ghost use Rattle.replay.specs.Replays.{asked_by, onto, Made, Replayed};

use crate::exchange::Exchange;
use book::selecting_book::SelectingBook;
use ready::ready::make_ready;
use scan_calls::Scan;

// Makes the book ready, begins a scan, makes each call in turn with its own list, and hands the book back. Whatever the
// book, the calls and the lists are: each call is answered as the promise of the scan says, and no other answers would be.
pub fn replay<B: SelectingBook>(book: B, exchanges: &mut [Exchange]) -> B
    ensures same { result ≡ book }
    ensures promise { Replayed (selecting (B.machine book) (B.marks book)) exchanges.old exchanges.new }
{
    book.marked();
    let ready = make_ready(book);
    let mut scan = Scan::begin(ready);
    for x in exchanges.iter_mut() {
        make(&mut scan, x);
    }
    scan.hand_back().hand_back()
}

// One call, with the exchange's own list.
fn make<B: SelectingBook>(scan: &mut Scan<B>, x: &mut Exchange)
    ensures same { scan.new.ready ≡ scan.old.ready }
    ensures made { Made (table_of scan.old) (meaning_of scan.old) (model_of scan.old) x.old x.new }
    ensures model { model_of scan.new ≡ onto (table_of scan.old) (meaning_of scan.old) (model_of scan.old) (asked_by x.old) }
{
    x.answer = Some(scan.send(x.call, x.orders.as_mut_slice()));
}
