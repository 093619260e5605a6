//! What may go to another thread, and be shared by several.
use ac_automaton::iter::FindIter;
use ac_automaton::iter::ahead::FindIterAhead;
use ac_automaton::overlapping::FindOverlappingIter;
use ac_literal::packed::Searcher;
use ac_literal::prefilter::Prefilter;
use ac_noncontiguous::nfa::NFA;
use ac_tables::contiguous;
use ac_tables::dfa::DFA;
use aho_corasick::{AhoCorasick, AhoCorasickBuilder, WalkPlace};

/// Takes a type that goes to other threads and is shared by them.
fn crosses<T: Send + Sync>() {}

/// The automata and what they hold cross, and so do the places and iterators of their searches.
pub fn all_cross() {
    crosses::<AhoCorasick>();
    crosses::<AhoCorasickBuilder>();
    crosses::<NFA>();
    crosses::<contiguous::NFA>();
    crosses::<DFA>();
    crosses::<Prefilter>();
    crosses::<Searcher>();
    crosses::<WalkPlace>();
    crosses::<FindIter<'static, 'static, AhoCorasick>>();
    crosses::<FindIterAhead<'static, 'static, AhoCorasick>>();
    crosses::<FindOverlappingIter<'static, 'static, AhoCorasick>>();
}
