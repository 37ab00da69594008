//! A queue over handed rows: elements in the order of entering, of which a full queue drops the
//! earliest when one more enters.
#![tactic(auto)]

pub mod enter_all;
pub mod ring;
