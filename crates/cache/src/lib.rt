//! The cache: pages in lent rows and lent memory, and which of them gives way.
#![tactic(auto)]

pub mod cache;
pub mod choosing;
pub mod priorities;
