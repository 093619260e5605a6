//! A set of fingerprints: a second look at a place that is marked.
//!
//! Where a bucket has many patterns, some byte of each fits together at many places at which no pattern begins. So the first bytes
//! of a marked place are looked up as a whole, too: their fingerprint is a number below 8192, and the set has a bit for each that
//! the first bytes of some pattern have. A byte and its partner count as one, the lesser of them. The number is made of the first two
//! bytes and of the last two, each pair by itself, so that no multiplication waits for all that came before it.
//!
//! A set takes 1,280 bytes of memory. A hundred patterns set a bit of eighty, so of the marks that no pattern made few are left.
ghost use Rattle.std.specs.Prelude.{◌≡◌, ◌<◌, ◌≤◌, IsFalse, length};
ghost use Rattle.ac_input.specs.Pairing.{IsPairing};

use ac_input::pairing::Pairing;

/// How many fingerprints there are.
const PRINTS: usize = 8192;

/// The fingerprints of some bytes.
#[derive(Clone, Copy, Drop)]
pub struct Fingerprints {
    pairing: [u8; 256],
    bits: [u8; PRINTS / 8],
    ghost paired: { IsPairing pairing },
}

impl Fingerprints {
    ghost use Rattle.ac_input.specs.Laws.LiveLaws.{canonical};
    ghost use Rattle.ac_literal.specs.Openings.Fingerprints.{print_of, IsPrinted, KeepsPrints};

    /// No bytes yet.
    pub fn new(pairing: &Pairing) -> Fingerprints
        ensures { result.pairing ≡ pairing.now }
    {
        Fingerprints {
            pairing: pairing.table(),
            bits: [0; PRINTS / 8],
        }
    }

    /// A byte, or its partner where that is less.
    #[inline(always)]
    fn lesser(&self, byte: u8) -> usize
        ensures value { result ≡ canonical self.now.pairing byte }
        ensures fits { result < 256 }
    {
        byte.min(self.pairing[byte as usize]) as usize
    }

    /// The fingerprint of two bytes or more.
    #[inline(always)]
    fn print_of(&self, bytes: &[u8]) -> usize
        requires { 2 ≤ length bytes.now }
        ensures value { result ≡ print_of self.now.pairing bytes.now }
        ensures fits { result < 8192 }
    {
        let last = bytes.len() - 1;
        let front = self.lesser(bytes[0]) * 31 + self.lesser(bytes[1]);
        let end = self.lesser(bytes[last - 1]) * 31 + self.lesser(bytes[last]);
        (front * 961 + end) % PRINTS
    }

    /// Two bytes more, or more than two.
    pub fn add(&mut self, bytes: &[u8])
        requires { 2 ≤ length bytes.now }
        ensures own { IsPrinted self.new bytes.now }
        ensures kept { KeepsPrints self.old self.new }
    {
        let print = self.print_of(bytes);
        self.bits[print / 8] |= 1 << (print % 8);
    }

    /// Whether the set has the fingerprint of two bytes or more.
    #[inline(always)]
    pub fn has(&self, bytes: &[u8]) -> bool
        requires { 2 ≤ length bytes.now }
        ensures { IsFalse result → ¬ IsPrinted self.now bytes.now }
    {
        let print = self.print_of(bytes);
        self.bits[print / 8] >> (print % 8) & 1 != 0
    }
}
