// Making ready on examples: the rows of known books, written out, and how often a book is asked.
#![tactic(auto)]

pub mod callers;
pub mod counted;
#[cfg(test)]
mod rows;
