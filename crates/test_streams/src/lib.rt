//! Tests of streams and of replacement, as tables of rows, by subject.
//!
//! What a row needs of automata stands in [`test_rows::engines`].
#![tactic(auto)]

#[cfg(test)]
mod any_kind;
#[cfg(test)]
mod asserts;
#[cfg(test)]
mod compared;
#[cfg(test)]
mod devices;
#[cfg(test)]
mod front;
#[cfg(test)]
mod listed;
#[cfg(test)]
mod masks;
#[cfg(test)]
mod replacement;
#[cfg(test)]
mod stream_memory;
#[cfg(test)]
mod stream_replacement;
#[cfg(test)]
mod streams;
#[cfg(test)]
mod whole_words;
