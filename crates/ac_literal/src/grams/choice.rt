//! Whether grams find fewer places than the tables of `teddy`.
//!
//! The tables put the patterns into eight buckets, and mark a place where four bytes each stand in some pattern of a bucket. How
//! often that is so is estimated from how many patterns there are, and of how many different bytes they are made: with four
//! letters every place is marked, whatever the patterns. A gram has eight bytes, so grams mark few places that no pattern made,
//! as long as few bits of their map are set. No result depends on either.

/// For how many patterns there are grams, at most. With so many, a bit of the map is set for every 150 places of a text.
pub const MOST_PATTERNS: usize = 436;

/// One place of so many may be marked for the tables to find fewer.
const MARKED: u64 = 32;

/// With so many letters, a search of a text that is made of them seldom comes back to its start: DNA has four.
const FEW_LETTERS: u64 = 8;

/// How many buckets the tables have.
const BUCKETS: usize = 8;

/// Collects what the choice depends on.
#[derive(Drop)]
pub struct Choice {
    seen: [bool; 256],
    /// How many different bytes the patterns have.
    letters: u64,
    patterns: usize,
}

/// The fourth power of a number.
fn fourth_power(number: u64) -> u64 {
    let square = number.saturating_mul(number);
    square.saturating_mul(square)
}

impl Choice {
    /// No patterns yet.
    pub fn new() -> Choice {
        Choice {
            seen: [false; 256],
            letters: 0,
            patterns: 0,
        }
    }

    /// One more pattern.
    pub fn add(&mut self, pattern: &[u8]) {
        self.patterns = self.patterns.saturating_add(1);
        for byte in pattern {
            if !self.seen[*byte as usize] {
                self.seen[*byte as usize] = true;
                self.letters = self.letters.saturating_add(1);
            }
        }
    }

    /// Whether the patterns have few different bytes.
    pub fn has_few_letters(&self) -> bool {
        self.letters <= FEW_LETTERS
    }

    /// Whether grams find fewer places.
    pub fn takes_grams(&self) -> bool {
        let bucket = self.patterns.div_ceil(BUCKETS) as u64;
        let marked = fourth_power(bucket).saturating_mul(MARKED * BUCKETS as u64);
        self.patterns <= MOST_PATTERNS && marked > fourth_power(self.letters)
    }
}
