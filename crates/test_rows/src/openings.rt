//! Patterns and texts for searches that pass places at which no pattern begins.
//!
//! Where the patterns are few, an automaton that stands in its start passes to the next place at which the first bytes of some
//! pattern stand: four of them, or as many as the shortest has. So patterns stand where such a pass ends or is cut: next to one
//! another, at the end of a read or of a block of places, and after stretches of each length.
use crate::drawn::Drawn;
use crate::engines::Asked;
use crate::engines::Letters::{self, Cased, Folded, Paired};
use ac_input::search::MatchKind;
use std::alloc::{AllocError, Global};

/// Some patterns and a text, both short.
pub struct Short {
    patterns: &'static [&'static [u8]],
    letters: Letters,
    text: &'static [u8],
}

impl Short {
    /// The standard search of the text for these patterns.
    pub fn drawn(&self) -> Drawn<'_> {
        Drawn {
            asked: Asked::of(self.patterns, MatchKind::Standard, self.letters),
            text: self.text,
        }
    }
}

pub const SHORT: &[Short] = &[
    // first bytes that overlap each other
    Short {
        patterns: &[b"aab", b"aba", b"baa"],
        letters: Cased,
        text: b"aaabaabaaa",
    },
    Short {
        patterns: &[b"aaaa", b"aaab", b"abaa", b"baaa"],
        letters: Cased,
        text: b"aaaaabaaabaaaaaaab",
    },
    // a pattern of as many bytes as are looked at, among longer ones
    Short {
        patterns: &[b"wxyz", b"wxyzwxy", b"abcdefg", b"defgh"],
        letters: Cased,
        text: b"..wxyzwxyz.abcdefgh.wxyabcdwxyzwxy",
    },
    // and one of a byte less
    Short {
        patterns: &[b"xyz", b"wxyzw", b"abcdefg", b"zab"],
        letters: Cased,
        text: b"xyzabcdefg.wxyzw.xy.xyzabc.wxxyz",
    },
    Short {
        patterns: &[b"ab", b"bcde", b"cd"],
        letters: Cased,
        text: b"abcde.bcd.a.b.bcdeab",
    },
    // partners that differ in both halves of the byte
    Short {
        patterns: &[b"abcd", b"bcda", b"dcba"],
        letters: Paired(&[(b'a', 0x12), (b'b', 0xf5), (b'c', 0x8e), (b'd', b'0')]),
        text: b"abc0.\x12\xf5cd..\xf5\x8e0\x12\xf5..0\x8eba.0cb\x12cda",
    },
    Short {
        patterns: &[b"Word", b"oRDs", b"rds"],
        letters: Folded,
        text: b"WORDS wordS .wOrD oRdS RDS w",
    },
];

/// Patterns that begin with five letters, the shortest of four bytes, of three and of two.
pub const PATTERNS: &[&[&[u8]]] = &[
    &[b"wxyz", b"qrstuvw", b"abcde", b"MNOPQ", b"yzwx"],
    &[b"wxyz", b"qrstuvw", b"abcde", b"MNO", b"yzw"],
    &[b"wxyz", b"qrstuvw", b"abcde", b"MNOP", b"yz"],
];

/// What stands between stretches: each begins as some pattern does, and has a pattern in it, where it begins or further on.
pub const PARTS: [&[u8]; 6] = [
    b"wxyz",
    b"qrstu.wxyz",
    b"abcdwxyz",
    b"abcde",
    b"MNOPwxyzwx",
    b"qrstuvw",
];

/// The parts in turn, after stretches of points of each length up to a hundred.
pub fn spread(alloc: Global) -> Result<Vec<u8>, AllocError> {
    let mut text = Vec::new(alloc);
    for stretch in 0..101usize {
        text.resize(text.len().saturating_add(stretch), b'.')?;
        text.extend_from_slice(PARTS[stretch % 6])?;
    }
    Ok(text)
}

/// How many bytes a block of a text has.
pub const BLOCK: usize = 128;

/// Blocks of points. In each a pattern begins one place further on than in the one before, from the fortieth place before its end to
/// the last one.
pub fn placed(alloc: Global) -> Result<Vec<u8>, AllocError> {
    let mut text = Vec::new(alloc);
    text.resize(BLOCK - 40, b'.')?;
    for _ in 0..40 {
        text.extend_from_slice(b"wxyz")?;
        text.resize(text.len().saturating_add(BLOCK + 1 - 4), b'.')?;
    }
    Ok(text)
}
