//! The noncontiguous NFA: built soonest, and what the others are built from.
pub use ac_noncontiguous::builder::Builder;
pub use ac_noncontiguous::nfa::{MatchIter, NFA, Special, TransIter};
