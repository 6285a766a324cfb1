// Any calls, made to a scan of any book: the promise of the scan, whole and without a premise.
#![tactic(auto)]

pub mod exchange;
mod replaying;

pub use exchange::Exchange;
pub use replaying::replay;
