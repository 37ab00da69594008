//! What a call leaves of memory that was lent: two words for contracts, and no code.
#![tactic(auto)]
