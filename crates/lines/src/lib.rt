// The forms of poolrun: lines read into arguments.
#![tactic(auto)]

pub mod blocks;
pub mod fields;
pub mod items;
pub mod read;
