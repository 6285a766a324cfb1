// A call of a scan, with its own list of order records.
use book::answer::{Order, Refusal, Totals};
use book::event::Event;

#[derive(Drop)]
pub struct Exchange {
    pub call: Event,
    // the list that the call is lent
    pub orders: Vec<Order>,
    // what it answered, once it has been made
    pub answer: Option<Result<Totals, Refusal>>,
}
