//! The automata that are made from the noncontiguous one: one vector of words, and a table of all transitions.
//!
//! Both find what the noncontiguous automaton finds, since their states stand for its states, and one look-up leads where its
//! does. They differ in how fast a look-up is and in how much memory they take. The contiguous NFA stores failures and packs each
//! state into a few words; the DFA has followed every failure beforehand, so that a look-up is one load.
#![tactic(auto)]

pub mod contiguous;
pub mod dfa;
mod rows;
mod source;
