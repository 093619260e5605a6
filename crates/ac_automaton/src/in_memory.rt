//! Searches of an input that is held in memory.
//!
//! They stand on the states of an automaton, on its prefilter, and on what it has read ahead of a search ([`ahead`](crate::ahead)).
//! `find` is the search for one match. On it stand the walk from match to match ([`iter`]), and on this walk `replace`, which writes
//! the text with each match replaced. [`overlapping`] shows every occurrence, `mask` overwrites the bytes of each, and [`words`] takes
//! those alone that are whole words. No device is read or written here: [`stream`](crate::stream) does that.
pub(crate) mod find;
pub mod iter;
pub(crate) mod mask;
pub mod overlapping;
pub(crate) mod replace;
pub mod words;
