//! The words of a contiguous automaton, and how a search reads them.

use ac_input::alphabet::ByteClasses;
use ac_input::primitives::StateID;

/// The words. A state's number is the place of its first word: the dead state stands at 0, then come the states that match, the
/// unanchored start, the anchored start, the others. The fail state's number is 1, where no state begins.
#[derive(Drop)]
pub(crate) struct Table {
    pub words: Vec<u32>,
    pub classes: ByteClasses,
    /// How many classes there are.
    pub alphabet_len: usize,
    /// The unanchored start.
    pub start: StateID,
    /// The anchored start.
    pub start_anchored: StateID,
    /// The last state at which a pattern matches; 1 where there is none.
    pub max_match: StateID,
}
