// What follows the tests of a submission with a valid verdict: from the fee's test to the eviction.
#![tactic(auto)]

pub mod admission;
pub mod contests;
pub mod evictions;
