// Scans: each order leaves at the first event at which it rightly can.
#![tactic(auto)]

mod calls;
mod checks;
mod limits;
mod rows;
pub mod scanning;
mod settling;

pub use scanning::Scan;
