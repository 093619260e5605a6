//! What an automaton is, for those who search state by state.
pub use ac_automaton::automaton::{Advance, Automaton};
pub use ac_automaton::in_memory::words::FindWordIter;
pub use ac_automaton::iter::FindIter;
pub use ac_automaton::overlapping::{FindOverlappingIter, OverlappingState, Position, Shown};
pub use ac_automaton::search::Search;
pub use ac_automaton::stream::overlapping::{ListPlace, Listed};
pub use ac_automaton::stream::{Progress, StreamFindIter};
pub use ac_input::primitives::{StateID, StateIDError};
pub use ac_literal::prefilter::{Candidate, Prefilter, PrefilterBuilder};
