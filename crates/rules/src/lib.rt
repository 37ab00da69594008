//! The rules of a request, and the laws that hold of every history of a server that keeps them.
//! The rules and the statements are in `specs/`; here are the plain types that they speak of.
#![tactic(auto)]

pub mod answer;
pub mod cases;
pub mod choice;
pub mod entry;
pub mod laws;
pub mod look;
pub mod refusal;
pub mod request;
pub mod victims;
