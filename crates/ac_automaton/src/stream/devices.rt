//! What a stream is read from and written to, and what is held between the two.
//!
//! These modules stand on the readers and writers of std alone, and know no automaton. [`watched`] keeps the history of a reader or a
//! writer, so that a contract can say what was read and written. `buffer` holds the bytes of a stream that may still be part of a
//! match, and [`output`] gathers small writes into large ones.
pub(crate) mod buffer;
pub mod output;
pub mod watched;
