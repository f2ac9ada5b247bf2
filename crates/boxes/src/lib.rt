// The box records of the ordered pool: one for each input and output of a pooled transaction, in words that the caller lends, with an index by
// box and one by owner in the same words.
#![tactic(auto)]

mod kinds;
mod links;
pub mod lists;
pub mod records;
pub mod rows;
pub mod views;
