// Making a book ready: for each state, all states that some row of whole items leads to.
#![tactic(auto)]

mod entered;
pub mod laws;
pub mod ready;
mod rounds;
pub mod state_set;
mod table;
mod useless;
