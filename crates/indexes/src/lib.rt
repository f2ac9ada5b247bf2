// What is read of the box records: the spender and the producer of a box, conflicts, and the inputs of a transaction.
#![tactic(auto)]

pub mod conflicts;
pub mod inputs;
pub mod owners;
pub mod resolved;
