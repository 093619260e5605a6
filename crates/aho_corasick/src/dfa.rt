//! The DFA, used directly.
pub use ac_tables::dfa::DFA;
pub use ac_tables::dfa::builder::Builder;
