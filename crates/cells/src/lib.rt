// One run of a scan at one level.
#![tactic(auto)]

pub mod cell;

pub use cell::{Cell, cell_at};
