// Book files: reading and checking one, and the books that answer from its bytes.
#![tactic(auto)]

pub mod books;
pub mod file;
pub mod header;
pub mod names;
pub mod reading;
mod rest;
pub mod table;
