// One level of a run: its state, and what the rest of the catalogue can still make of it. Scans and watches keep their
// runs as such levels.
#![tactic(auto)]

pub mod level;
mod sets;

pub use level::Level;
