//! How common bytes are estimated to be, and how rare they must be for a scan.
//!
//! A scan for bytes costs next to nothing until it stops; each stop costs a run of the automaton and a new start of the scan. So a
//! prefilter is only as good as its bytes are rare. The ranks are a rough estimate, for text in the Latin alphabet and for formats
//! that are made of text; how often a byte comes in a thousand bytes is an estimate as rough. No result depends on either.
ghost use Rattle.std.specs.Prelude.{◌≤◌, ◌*◌};
ghost use Rattle.ac_literal.specs.declared.prefilter.rank.TheConstants.{COMMON_STOPS};

use crate::prefilter::needles::{ASCII_LIMIT, Needles};
use ac_input::pairing::Pairing;

/// The rank of lower-case letters, space, line feed and byte 0.
const COMMON: u8 = 200;

/// The rank of digits and upper-case letters.
const CAPITAL: u8 = 150;

/// The rank of the other bytes of ASCII.
const SIGN: u8 = 100;

/// The rank of the bytes that aren't ASCII.
const HIGH: u8 = 50;

/// How many of a thousand bytes of text one byte of the rank [`COMMON`] is.
const COMMON_STOPS: u32 = 40;

/// How often a scan may stop in a thousand bytes and still be worth it, if packed search serves too: packed search passes a
/// thousand bytes in about the time of one stop.
pub const STOPS_BESIDE_PACKED: u32 = 1;

/// The same if packed search doesn't serve: an automaton alone takes as long for a thousand bytes as for a hundred stops.
pub const STOPS_ALONE: u32 = 50;

/// How often patterns of one byte occur in a thousand bytes where no prefilter pays: with so many a match comes every sixteen bytes.
const CLOSE: u32 = 62;

/// How common a byte is estimated to be: the greater, the more common.
pub fn rank(byte: u8) -> u8 {
    match byte {
        0 | b'\n' | b' ' | b'a'..=b'z' => COMMON,
        b'0'..=b'9' | b'A'..=b'Z' => CAPITAL,
        ASCII_LIMIT..=0xff => HIGH,
        _ => SIGN,
    }
}

/// The rank of a byte that is looked for together with its partner: that of the more common of the two.
pub fn paired_rank(pairing: &Pairing, byte: u8) -> u8 {
    rank(byte).max(rank(pairing.other(byte)))
}

/// How many of a thousand bytes of text are estimated to be this one. From 0x80 up it is more than the rank says, since in text of
/// another alphabet such bytes are common.
fn stops_at(byte: u8) -> u32
    ensures { result ≤ COMMON_STOPS }
{
    match byte {
        b'J' | b'Q' | b'X' | b'Z' | b'^' | b'~' => 1,
        _ => match rank(byte) {
            COMMON => COMMON_STOPS,
            SIGN => 3,
            _ => 5,
        },
    }
}

/// How often a scan for these bytes is estimated to stop in a thousand bytes of text.
pub fn stops(needles: Needles) -> u32
    ensures { result ≤ 3 * COMMON_STOPS }
{
    match needles {
        Needles::One(a) => stops_at(a),
        Needles::Two(a, b) => stops_at(a) + stops_at(b),
        Needles::Three(a, b, c) => stops_at(a) + stops_at(b) + stops_at(c),
    }
}

/// The bytes that are patterns of their own, with their partners.
#[derive(Drop)]
pub struct Singles {
    are: [bool; 256],
}

impl Singles {
    /// None yet.
    pub fn new() -> Singles {
        Singles { are: [false; 256] }
    }

    /// One more pattern. A longer one counts nothing: it is rare.
    pub fn add(&mut self, pairing: &Pairing, pattern: &[u8]) {
        if pattern.len() == 1 {
            let byte = pattern[0];
            self.are[byte as usize] = true;
            self.are[pairing.other(byte) as usize] = true;
        }
    }

    /// Whether they are estimated to be a few bytes apart in a text.
    pub fn are_close(&self) -> bool {
        let mut occur: u32 = 0;
        for byte in 0..self.are.len() {
            if self.are[byte] {
                occur = occur.saturating_add(stops_at(byte as u8));
            }
        }
        occur > CLOSE
    }
}

/// Whether a scan for these bytes is estimated to stop at most this often in a thousand bytes of text.
pub fn stops_within(needles: Needles, limit: u32) -> bool {
    stops(needles) <= limit
}
