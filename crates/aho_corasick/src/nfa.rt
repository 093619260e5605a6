//! The two automata with failures, used directly.
pub mod contiguous;
pub mod noncontiguous;
