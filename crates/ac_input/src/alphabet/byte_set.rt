//! A set of bytes, as a table of 256 flags.
//!
//! A membership test is one load, with no shift or mask, as the loops that look for a rare byte need it.
ghost use Rattle.std.specs.Prelude.{◌≡◌, ℕ, ◌≤◌, ◌==◌, ◌||◌, false};
ghost use Rattle.ac_input.specs.Alphabet.{has, set_len};

use std::marker::Model;

/// A set of bytes. It takes 256 bytes.
#[derive(Clone, Drop)]
pub struct ByteSet {
    members: [bool; 256],
}

impl Model for ByteSet {
    ghost use Rattle.std.specs.Prelude.{List, Bool};

    ghost Value = { List Bool };

    ghost view = { λ s. s.members };

    ghost inverse = { λ t. record { members = t } };
}

impl ByteSet {
    /// The set of no byte.
    pub fn empty() -> ByteSet
        ensures { (b : ℕ) → has result b ≡ false }
    {
        ByteSet {
            members: [false; 256],
        }
    }

    /// Puts a byte into the set; it may be there already.
    pub fn add(&mut self, byte: u8)
        ensures { (b : ℕ) → has self.new b ≡ ((b == byte) || has self.old b) }
    {
        self.members[byte as usize] = true;
    }

    /// Whether the byte is in the set. One load.
    pub fn contains(&self, byte: u8) -> bool
        ensures { result ≡ has self.now byte }
    {
        self.members[byte as usize]
    }

    /// How many bytes are in the set. It goes over the table.
    pub fn len(&self) -> usize
        ensures value { result ≡ set_len self.now }
        ensures fits { result ≤ 256 }
    {
        let mut len = 0;
        for i in 0..256usize {
            if self.members[i] {
                len += 1;
            }
        }
        len
    }
}
