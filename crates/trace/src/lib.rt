//! Traces: bytes in, sizes and items out, faults by word place.
#![tactic(auto)]

pub mod fault;
pub mod item;
pub mod reader;
#[cfg(test)]
mod tests;
pub mod whole;
mod word;
