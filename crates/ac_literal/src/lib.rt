//! Searches for literals: for a few patterns at once, by one fast pass over the bytes.
//!
//! [`openings`] marks the places at which a pattern may begin, for an automaton that waits for one. [`packed`] is a search of its
//! own, for up to 128 patterns, that needs no automaton. [`prefilter`] finds the only places that an automaton has to look at. The
//! first two look at every few places alone (`grams`) where that serves.
#![tactic(auto)]

mod grams;
pub mod openings;
pub mod packed;
pub mod prefilter;

pub use ac_input::alphabet::{ByteClassSet, ByteClasses, ByteSet, opposite_ascii_case};
pub use ac_input::pairing::{Pairing, PairingError};
pub use ac_input::primitives::{
    PatternID, PatternIDError, SmallIndex, SmallIndexError, StateID, StateIDError,
};
pub use ac_input::search::{Anchored, Candidate, Input, Match, MatchKind, Span, StartKind};
pub use ac_input::steps::Steps;
