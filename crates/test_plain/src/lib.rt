//! The plain program: the result of a search, computed from the definitions alone.
//!
//! It tries every place and every pattern, with no table and no memory, so that nothing of an automaton is in it. Tests compare
//! the fast searches with it. It costs the length of the haystack times the total length of the patterns.
#![tactic(auto)]

pub mod plain;
