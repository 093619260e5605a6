//! The libraries as their users call them, by subject.
//!
//! Each function is a few lines that call one part of the library. Most have a contract of their own, in the words of the
//! definitions, which follows from that part's contract alone: so a reader sees how a call is used, and what is known after it. Those
//! without an `ensures` show the calls as a user of the Rust crate would write them: the check proves that each is safe and returns.
//!
//! [`build`], [`find`], [`iterate`], [`overlap`], [`replace`], [`masks`], [`streams`], [`pushed`], [`pushed_text`] and
//! [`pushed_words`] call an `AhoCorasick`. The modules `generic_find` and so on call any automaton, by the traits.
#![tactic(auto)]

pub mod automata;
pub mod build;
pub mod find;
pub mod generic_find;
pub mod generic_iterate;
pub mod generic_overlap;
pub mod generic_replace;
pub mod generic_stream;
pub mod generic_stream_overlap;
pub mod iterate;
pub mod masks;
pub mod nfa;
pub mod overlap;
pub mod owner;
pub mod packed;
pub mod pushed;
pub mod pushed_text;
pub mod pushed_words;
pub mod replace;
pub mod states;
pub mod streams;
pub mod texts;
pub mod threads;
