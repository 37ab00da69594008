//! Priorities: what a hint set is worth, as a fraction.
#![tactic(auto)]

pub mod priority;
pub mod priority_parts;
