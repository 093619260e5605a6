//! The vocabulary of multi-pattern search: what is searched for and where, what a result is, and all definitions that the
//! contracts of the layers above cite.
//!
//! The definitions are in `specs/`. They name no trie, hash or buffer: an occurrence is a pattern that lies in a span of the
//! haystack, the best one is the least in the order of the kind, a walk takes the best from where it stands. The laws about them
//! that a user cites are the contracts of the functions of [`laws`], [`beginning_laws`], [`live_laws`], [`state_laws`],
//! [`limit_laws`], [`mask_laws`], [`unused_laws`], [`utf8_laws`] and [`word_laws`]. What else an automaton needs stands in the
//! lemmas of `proofs/`, which any proof of the crates above may import.
#![tactic(auto)]

pub mod alphabet;
pub mod beginning_laws;
pub mod history;
pub mod laws;
pub mod limit_laws;
pub mod live_laws;
pub mod mask_laws;
pub mod pairing;
pub mod primitives;
pub mod search;
pub mod state_laws;
pub mod steps;
pub mod unused_laws;
pub mod utf8_laws;
pub mod word_laws;
