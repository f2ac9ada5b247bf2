// Numbers: ids of 32 bytes, sums that stop, products and quotients of two words.
#![tactic(auto)]

pub mod buckets;
pub mod chains;
pub mod ids;
pub mod rows;
pub mod wide;
