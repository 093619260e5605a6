//! Searching with an automaton, in memory and in streams.
//!
//! At the top are the parts on which every search stands: the trait [`Automaton`](automaton::Automaton), the loops by which it reads
//! on, and what it reads ahead. Over them are two layers: searches of an input that is held ([`in_memory`]), and searches of a stream
//! that comes in pieces ([`stream`]).
#![tactic(auto)]

pub mod ahead;
pub mod automaton;
pub mod error;
mod gain;
pub mod in_memory;
pub mod lanes;
pub mod look;
pub(crate) mod masking;
pub mod search;
pub mod skip;
pub mod starters;
pub mod stream;
mod words;

pub use ac_input::pairing::{Pairing, PairingError};
pub use ac_input::primitives::{PatternID, StateID};
pub use ac_input::search::{Anchored, Input, Match, MatchKind, Span};
pub use ac_input::steps::Steps;
pub use ac_literal::prefilter::{Candidate, Prefilter, PrefilterBuilder};
pub use in_memory::{iter, overlapping};
pub use stream::devices::{output, watched};
pub use stream::laws;
