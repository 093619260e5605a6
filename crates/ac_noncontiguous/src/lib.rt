//! The noncontiguous automaton: how it is built, and how it searches.
#![tactic(auto)]

pub mod builder;
mod compiler;
pub mod error;
mod links;
pub mod nfa;
pub mod settings;
mod trie;

pub use ac_automaton::automaton::{Advance, Automaton};
pub use ac_automaton::error::{MatchError, MatchErrorKind, ReplaceError, StreamError};
pub use ac_automaton::iter::FindIter;
pub use ac_automaton::overlapping::{FindOverlappingIter, OverlappingState};
pub use ac_automaton::search::Search;
pub use ac_automaton::stream::StreamFindIter;
pub use ac_automaton::watched::{Watched, write_whole};
pub use ac_input::alphabet::{ByteClassSet, ByteClasses, ByteSet, opposite_ascii_case};
pub use ac_input::pairing::{Pairing, PairingError};
pub use ac_input::primitives::{
    PatternID, PatternIDError, SmallIndex, SmallIndexError, StateID, StateIDError,
};
pub use ac_input::search::{Anchored, Input, Match, MatchKind, Span, StartKind};
pub use ac_input::steps::Steps;
pub use ac_literal::packed;
pub use ac_literal::prefilter::{Candidate, Prefilter, PrefilterBuilder};
pub use builder::Builder;
pub use error::{BuildError, BuildErrorKind};
pub use nfa::{NFA, Special};
