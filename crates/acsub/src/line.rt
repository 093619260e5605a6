//! The lines of a list.
//!
//! A line has the number of a match's pattern, its start and its end, in decimal. There is a space between two of them, and a
//! line feed after the last. A line is put together in an array, from its end, so that nothing is moved.
ghost use Rattle.std.specs.Prelude.{◌≡◌, ◌+◌, ◌<◌, ◌≤◌, ◌∷◌, ◌++◌, drop, length, decimal};
ghost use Rattle.ac_input.specs.Text.{line};

use ac_input::search::Match;
use itoa::write_digits;
use std::marker::Model;

/// How long a line can be: a number of at most 10 digits, two places of at most 20, and three bytes.
const LONGEST: usize = 53;

/// A line of a list. A contract sees its bytes.
#[derive(Drop)]
pub struct Line {
    bytes: [u8; LONGEST],
    start: usize,
}

impl Model for Line {
    ghost use Rattle.std.specs.Prelude.{ℕ, ◌≡◌, ◌≤◌, List, length, drop};
    ghost use Rattle.acsub.specs.declared.line.TheConstants.{LONGEST};

    ghost Value = { List ℕ };

    ghost view = { λ it. drop it.start it.bytes };

    ghost invariant = { λ it. (it.start ≤ LONGEST) × (length it.bytes ≡ LONGEST) };
}

impl Line {
    /// The line of a match.
    pub fn new(found: &Match) -> Line
        ensures { result ≡ line found.now }
    {
        let mut bytes = [0u8; LONGEST];
        let end = put_number(&mut bytes, LONGEST, found.end(), b'\n');
        let start = put_number(&mut bytes, end, found.start(), b' ');
        let pattern = put_number(&mut bytes, start, found.pattern().as_usize(), b' ');
        Line {
            bytes,
            start: pattern,
        }
    }

    /// Its bytes, the line feed too.
    pub fn as_bytes(&self) -> &[u8]
        ensures { result.now ≡ self.now }
    {
        &self.bytes[self.start..]
    }
}

/// Puts a number and a byte before the place, and returns where they begin.
fn put_number(bytes: &mut [u8], end: usize, number: usize, last: u8) -> usize
    requires room { length (decimal number) < end }
    requires within { end ≤ length bytes.old }
    ensures begins { result + length (decimal number) + 1 ≡ end }
    ensures written { drop result bytes.new ≡ decimal number ++ last ∷ drop end bytes.old }
{
    bytes[end - 1] = last;
    write_digits(number as u64, bytes, end - 1)
}
