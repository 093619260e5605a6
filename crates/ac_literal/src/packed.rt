//! Packed search: a few patterns, looked for in one pass over a haystack.
//!
//! A [`Searcher`] stores 1 to 128 patterns, none of them empty, and finds the leftmost match of its [`MatchKind`]. It has no
//! automaton. It marks the places at which a pattern may begin, 32 at a time (`teddy`), and checks each marked place by the hash
//! of the bytes there (`rabinkarp`): it compares a pattern with the haystack only where their hashes are equal. Where nearly every
//! place is marked, the hash rolls over all of them instead (`scanner`). So it is quick to build, takes hardly more memory than
//! the patterns, and passes most bytes without a step for each. Where many places share a hash with a pattern and then differ from
//! it, its comparisons are wasted; an automaton never wastes any.
//!
//! Patterns are collected in a [`Builder`], which a [`Config`] makes. Bytes are compared exactly: there is no case folding. Only
//! building and cloning take memory; a search takes none and can't fail.
pub mod api;
mod needle;
mod pattern;
mod rabinkarp;
mod scanner;
pub(crate) mod teddy;

pub use api::{Builder, Config, FindIter, MatchKind, PATTERN_LIMIT, Searcher};
