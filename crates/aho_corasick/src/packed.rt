//! Packed search: a few patterns, looked for in one pass over a haystack, without an automaton.
pub use ac_literal::packed::{Builder, Config, FindIter, MatchKind, Searcher};
