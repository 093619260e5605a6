//! Tests of searches, as tables of rows, by subject: what is found, what is refused, and what automata are and keep.
//!
//! What a row needs of automata stands in [`test_rows::engines`].
#![tactic(auto)]

#[cfg(test)]
mod asserts;
#[cfg(test)]
mod automata;
#[cfg(test)]
mod calls;
#[cfg(test)]
mod compared;
#[cfg(test)]
mod front;
#[cfg(test)]
mod hostile;
#[cfg(test)]
mod lanes;
#[cfg(test)]
mod memory;
#[cfg(test)]
mod openings;
#[cfg(test)]
mod owned;
#[cfg(test)]
mod packed;
#[cfg(test)]
mod prefilters;
#[cfg(test)]
mod refused;
#[cfg(test)]
mod repeated;
#[cfg(test)]
mod rows;
#[cfg(test)]
mod settings;
#[cfg(test)]
mod vocabulary;
#[cfg(test)]
mod whole_words;
