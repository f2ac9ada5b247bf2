// The table of the ordered pool's entries, in lent words: slots with an index of ids, and their order by weight falling, then id rising. How many slots are
// known stands in a word; any words are a table of no entries.
#![tactic(auto)]

pub mod cells;
pub mod chain;
pub mod fields;
pub mod order;
pub mod table;
pub mod views;
