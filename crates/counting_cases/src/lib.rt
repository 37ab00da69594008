//! Worked cases of keys, counting and priorities, in a crate of their own so that the others
//! are not proved twice.
#![tactic(auto)]

#[cfg(test)]
mod counts;
#[cfg(test)]
mod priorities;
