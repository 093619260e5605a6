//! Patterns, and texts that are long enough to be read in lanes.
//!
//! A table that has many patterns reads four parts of a text side by side. A part begins after a byte that no pattern has. So the
//! rows have texts with such bytes near and far, and with none; texts of about as many bytes as are read ahead; and texts with more
//! matches than a part has notes.
use crate::drawn::letters_of;
use std::alloc::{AllocError, Global};

/// Some patterns, drawn from letters in no order, and a text, drawn from others.
pub struct Long {
    letters: &'static [u8],
    patterns: usize,
    pattern_len: usize,
    /// Whether there are patterns of one letter more, too: under a leftmost kind a match may grow into one of these.
    longer: bool,
    /// Whether there is an empty pattern, too. Then nothing is read ahead, and a stream is refused.
    pub empty: bool,
    from: &'static [u8],
    pub text_lens: &'static [usize],
}

pub const LONG: &[Long] = &[
    // words, and spaces between some of them; about as many bytes as are enough to read ahead, or as are read ahead at a time
    Long {
        letters: b"abcdefghij",
        patterns: 150,
        pattern_len: 3,
        longer: false,
        empty: false,
        from: b"abcdefghij  ",
        text_lens: &[1023, 1024, 1025, 4095, 4096, 4097, 8193, 20000],
    },
    // a match nearly everywhere
    Long {
        letters: b"abcdefghijkl",
        patterns: 144,
        pattern_len: 2,
        longer: false,
        empty: false,
        from: b"abcdefghijkl ",
        text_lens: &[9000],
    },
    // patterns of two letters and of three
    Long {
        letters: b"abcdefghijkl",
        patterns: 90,
        pattern_len: 2,
        longer: true,
        empty: false,
        from: b"abcdefghijkl    ",
        text_lens: &[9000],
    },
    // each letter is a pattern
    Long {
        letters: b"abcdefghij",
        patterns: 20,
        pattern_len: 1,
        longer: false,
        empty: false,
        from: b"abcdefghij\n.,;",
        text_lens: &[9000],
    },
    // no byte but those of patterns
    Long {
        letters: b"abcdefgh",
        patterns: 150,
        pattern_len: 4,
        longer: false,
        empty: false,
        from: b"abcdefgh",
        text_lens: &[9000],
    },
    // long patterns of few letters, whose states are deep
    Long {
        letters: b"ab",
        patterns: 140,
        pattern_len: 9,
        longer: false,
        empty: false,
        from: b"abababababababab-",
        text_lens: &[9000],
    },
    // and an empty one
    Long {
        letters: b"abcdefghij",
        patterns: 120,
        pattern_len: 3,
        longer: false,
        empty: true,
        from: b"abcdefghij  ",
        text_lens: &[3000],
    },
];

impl Long {
    /// The letters of the patterns.
    pub fn letters(&self, alloc: Global) -> Result<Vec<u8>, AllocError> {
        let len = self.patterns.saturating_mul(self.pattern_len);
        letters_of(alloc, 11, len, self.letters)
    }

    /// The patterns that these letters make.
    pub fn patterns<'l>(
        &self,
        alloc: Global,
        letters: &'l [u8],
    ) -> Result<Vec<&'l [u8]>, AllocError> {
        let mut patterns: Vec<&[u8]> = letters.chunks(self.pattern_len.max(1)).collect(alloc)?;
        if self.longer {
            for pattern in letters.chunks(self.pattern_len.saturating_add(1)) {
                patterns.push(pattern)?;
            }
        }
        if self.empty {
            patterns.push(b"")?;
        }
        Ok(patterns)
    }

    /// A text of this many letters.
    pub fn text(&self, alloc: Global, len: usize) -> Result<Vec<u8>, AllocError> {
        letters_of(alloc, 12, len, self.from)
    }
}
