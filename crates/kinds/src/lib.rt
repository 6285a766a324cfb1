// Kinds of book, and layers over any book.
#![tactic(auto)]

pub mod both;
pub mod kind_cases;
pub mod level;
pub mod opposite;
pub mod path;
#[cfg(test)]
mod quarter_marks;
