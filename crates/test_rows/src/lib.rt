//! What the tests of the libraries share: how each automaton is built in each setting, what is asked of a search, and rows that more than
//! one crate of tests runs.
//!
//! A crate with tests is proved twice, so tests have crates of their own, on which nothing waits: `test_searches`, and `test_streams`
//! with replacement. What both need stands here, since one library is proved once. It asserts nothing: that is for tests alone.
#![tactic(auto)]

pub mod answers;
pub mod drawn;
pub mod engines;
pub mod fronts;
pub mod lanes;
pub mod openings;
pub mod words;
