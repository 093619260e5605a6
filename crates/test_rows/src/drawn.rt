//! Patterns and texts that are drawn from letters in no order, which are the same in each run.
use crate::engines::{Asked, Letters};
use ac_input::search::MatchKind;
use std::alloc::{AllocError, Global};

/// Each kind.
pub const KINDS: [MatchKind; 3] = [
    MatchKind::Standard,
    MatchKind::LeftmostFirst,
    MatchKind::LeftmostLongest,
];

/// Each way in which letters are the same.
pub const EACH_OF_LETTERS: [Letters; 3] = [
    Letters::Cased,
    Letters::Folded,
    Letters::Paired(&[(b'a', b'B')]),
];

/// Letters in no order, of these.
pub fn letters_of(alloc: Global, seed: u32, len: usize, of: &[u8]) -> Result<Vec<u8>, AllocError> {
    let mut letters = Vec::new(alloc);
    let mut state = seed;
    for _ in 0..len {
        state = state.wrapping_mul(1664525).wrapping_add(1013904223);
        let at = (state >> 24) as usize;
        letters.push(of.get(at % of.len().max(1)).copied().unwrap_or(b'a'))?;
    }
    Ok(letters)
}

/// So many letters from a place on, or as many as there are.
pub fn from_there(letters: &[u8], at: usize, len: usize) -> &[u8] {
    let rest = letters.get(at..).unwrap_or(&[]);
    rest.get(..len).unwrap_or(rest)
}

/// Up to four patterns of up to four letters, also empty ones and equal ones.
pub fn patterns_of(alloc: Global, letters: &[u8], seed: usize) -> Result<Vec<&[u8]>, AllocError> {
    (0..seed % 5)
        .map(|at| from_there(letters, at * 5 + seed % 7, (seed / 5 + at * 3) % 5))
        .collect(alloc)
}

/// Some patterns, and a text that they are searched in.
#[derive(Clone, Copy)]
pub struct Drawn<'a> {
    pub asked: Asked<'a>,
    pub text: &'a [u8],
}

/// Writes the pattern into the text, from the place on.
pub fn put(text: &mut [u8], place: usize, pattern: &[u8]) {
    for (letter, there) in pattern.iter().zip(text.iter_mut().skip(place)) {
        *there = *letter;
    }
}
