//! Worked cases of the cache, in a crate of their own so that it is not proved twice.
#![tactic(auto)]

#[cfg(test)]
mod places;
