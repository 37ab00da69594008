//! The inner parts of the page server: cache, queue and tables in lent memory, and the steps of a
//! request, which do what the rules say. Its public calls are not there yet.
#![tactic(auto)]

pub mod memory;
pub mod open_server;
pub mod page_place;
mod places;
pub mod server;
mod tables;
