//! The lines that the programs print: what each says is proved, that it reaches the output is not.
#![tactic(auto)]

pub mod parts;
pub mod summary_lines;
pub mod trace_lines;
