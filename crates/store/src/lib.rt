//! Stores of pages: one interface with an exact meaning, three makes of it, and the law over lists of calls.
#![tactic(auto)]

pub mod fault;
pub mod mark;
pub mod page;
pub mod pair;
pub mod plate;
pub mod script;
pub mod store;
pub mod working;
