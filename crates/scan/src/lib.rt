// Scans and watches.
#![tactic(auto)]

pub mod theory;
