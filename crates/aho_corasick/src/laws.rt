//! What holds of the searches by different means.
//!
//! The function does nothing: it states the law as its contract, and that it checks is the proof of it. A caller who needs it calls it,
//! at no cost.
ghost use Rattle.aho_corasick.specs.Laws.{PackedWalksAlike};

/// Packed search gives the matches that an automaton of its patterns gives by the same leftmost kind, where no byte is paired: over
/// each whole text one list. A searcher is made of 1 to 128 patterns of which none is empty.
pub fn packed_walks_alike()
    ensures { PackedWalksAlike }
{}
