// Bracket forms: lines read and answers printed.
#![tactic(auto)]

pub mod nums;
pub mod text;
