// Books: what they mean, the traits that they answer by, and the theory of earliest orders.
#![tactic(auto)]

pub mod answer;
pub mod event;
pub mod fault;
pub mod limits;
pub mod selecting_book;
pub mod shape_book;
pub mod theory;
