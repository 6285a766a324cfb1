// What is printed of a book file: a fact a line, or the refusal.
#![tactic(auto)]

mod lines;
mod reach;
pub mod report;
mod states;
