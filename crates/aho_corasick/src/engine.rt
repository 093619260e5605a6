//! The automaton that serves: one of three, which find the same.
use ac_noncontiguous::nfa::NFA;
use ac_tables::contiguous;
use ac_tables::dfa::DFA;

/// The automaton that serves.
#[derive(Drop)]
pub(crate) enum Engine {
    /// The noncontiguous NFA: it is built soonest.
    Noncontiguous(NFA),
    /// The contiguous NFA: it takes the least memory.
    Contiguous(contiguous::NFA),
    /// The DFA: it searches fastest, and takes the most memory.
    Dfa(DFA),
}
