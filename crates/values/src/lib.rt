//! The values that every other crate speaks of. One that exists is lawful: its type says so.
#![tactic(auto)]

pub mod hint_numbers;
pub mod hint_set;
pub mod size_numbers;
pub mod sizes;
#[cfg(test)]
mod tests;
