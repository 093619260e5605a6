//! Searching a text for many patterns at once, in time that doesn't depend on how many there are.
//!
//! [`AhoCorasick`] is what most callers need. It is built from patterns, with settings where you need them
//! ([`AhoCorasickBuilder`]), and finds, iterates, replaces, and reads streams. Which of three automata serves changes only time
//! and memory: the results are the same.
//!
//! - [`nfa::noncontiguous::NFA`] is built soonest, and the others are built from it.
//! - [`nfa::contiguous::NFA`] takes the least memory.
//! - [`dfa::DFA`] searches fastest, and takes the most memory.
//!
//! They can be used directly too, by the trait [`automaton::Automaton`], which [`AhoCorasick`] implements as well. A function
//! that searches by any of them asks for [`automaton::Search`]. [`packed`] is another way to search, for a few patterns.
#![tactic(auto)]

mod ahocorasick;
pub mod automaton;
pub mod dfa;
mod engine;
pub mod laws;
pub mod nfa;
pub mod packed;
mod shared;

pub use ac_automaton::error::{MatchError, MatchErrorKind, ReplaceError, StreamError};
pub use ac_automaton::iter::WalkPlace;
pub use ac_automaton::output::Output;
pub use ac_automaton::overlapping::OverlappingState;
pub use ac_automaton::stream::mask::{StreamMask, StreamWordMask};
pub use ac_automaton::stream::overlapping::{
    StreamFindOverlappingIter, stream_find_overlapping_iter,
};
pub use ac_automaton::stream::sink::Sink;
pub use ac_automaton::stream::{
    OverlappingWordSearch, StreamFindOverlappingWordIter, StreamFindWordIter, StreamKinds,
    StreamReplacer, StreamSearch, WordSearch, stream_find_iter, stream_find_overlapping_word_iter,
    stream_find_word_iter,
};
pub use ac_automaton::watched::{Watched, write_whole};
pub use ac_input::alphabet::{
    ByteClassElementRanges, ByteClassElements, ByteClassIter, ByteClassSet, ByteClasses, ByteSet,
    opposite_ascii_case,
};
pub use ac_input::pairing::{Pairing, PairingError};
pub use ac_input::primitives::{PatternID, PatternIDError, SmallIndex, SmallIndexError};
pub use ac_input::search::{Anchored, Input, Match, MatchKind, Span, StartKind};
pub use ac_input::steps::Steps;
pub use ac_noncontiguous::error::{BuildError, BuildErrorKind};
pub use ahocorasick::{
    AhoCorasick, AhoCorasickBuilder, AhoCorasickKind, FindIter, FindIterAhead, FindOverlappingIter,
    FindWordIter, StreamFindIter,
};
