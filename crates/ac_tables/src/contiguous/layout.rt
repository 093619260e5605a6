//! The numbers that mark the parts of a state's words.
use ac_noncontiguous::nfa::FAIL;

/// The bits of the first word that hold the kind of a state.
pub(super) const KIND: u32 = 255;

/// The kind of a state that has an entry for each class.
pub(super) const DENSE: u32 = 255;

/// The kind of a state with one transition and no pattern. The class of its byte stands above it.
pub(super) const ONE: u32 = 254;

/// A state with more transitions than this is dense.
pub(super) const MOST_SPARSE: usize = 127;

/// How many words stand before the transitions: the kind and the failure.
pub(super) const HEAD: usize = 2;

/// Where a class leads that no transition has: the fail state keeps its number.
pub(super) const NOWHERE: u32 = FAIL as u32;

/// The bit that is set in the only word of a list of one pattern.
pub(super) const ONE_PATTERN: u32 = 2147483648;
