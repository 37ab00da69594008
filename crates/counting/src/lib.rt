//! Counting keys in a few rows by Space-Saving: for every kind of key, with what the counts
//! are worth after every list of countings.
#![tactic(auto)]

pub mod count_all;
pub mod find;
pub mod row;
pub mod table;
