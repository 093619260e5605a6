//! Words in a sentence.
use crate::engines::Pick;

/// Words that begin one another, a sentence of them, and all of their occurrences in it.
pub const APPEND: &[&[u8]] = &[b"append", b"appendage", b"app"];

pub const SENTENCE: &[u8] = b"append the app to the appendage";

pub const LISTED: &[Pick] = &[
    (2, 0, 3),
    (0, 0, 6),
    (2, 11, 14),
    (2, 22, 25),
    (0, 22, 28),
    (1, 22, 31),
];
