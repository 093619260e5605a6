//! Where a pattern may begin, by the tables of `teddy` and fingerprints.
//!
//! The tables mark, 32 places at a time, where the first bytes of some pattern may stand: four at most, or as many as the shortest
//! pattern has. Each byte and its partner count as one. Where a place is marked, its first bytes are looked up as a whole, by
//! their fingerprint.
ghost use Rattle.std.specs.Prelude.{◌≡◌, ℕ, ◌+◌, ◌<◌, ◌≤◌, length, slice_index, take, drop};
ghost use Rattle.std.specs.Int.{bit_at};
ghost use Rattle.ac_input.specs.Same.{other};
ghost use Rattle.ac_literal.specs.Openings.Fingerprints.{ArePrinted, IsPrinted};
ghost use Rattle.ac_literal.specs.Openings.Marks.{HasPartners, HaveOpened};
ghost use Rattle.ac_literal.specs.Packed.{bytes_of, AreAsLong};
ghost use Rattle.ac_literal.specs.Packed.Teddy.{LooksBefore, KeepsPatterns};

use crate::openings::fingerprints::Fingerprints;
use crate::packed::teddy::{LANES, Teddy, lowest, without};
use ac_input::pairing::Pairing;

/// How many bytes are looked at, at most.
pub const MOST: usize = 4;

/// For how many patterns there are buckets enough.
pub const LIMIT: usize = 128;

/// How many buckets there are.
const BUCKETS: usize = 8;

/// The first bytes of some patterns.
#[derive(Clone, Copy, Drop)]
pub struct Fronts {
    teddy: Teddy,
    prints: Fingerprints,
    len: usize,
    ghost wide: { 2 ≤ len },
    ghost few: { len ≤ 4 },
    ghost near: { LooksBefore len teddy },
}

/// The partners of the first bytes of a pattern.
fn partners(pattern: &[u8], pairing: &Pairing, len: usize) -> [u8; MOST]
    requires short { len ≤ length pattern.now }
    requires few { len ≤ MOST }
    ensures { (k : ℕ) → k < len
        → slice_index result k ≡ other pairing.now (slice_index pattern.now k) }
{
    let mut bytes = [0; MOST];
    for at in 0..len {
        bytes[at] = pairing.other(pattern[at]);
    }
    bytes
}

/// One more pattern, and its partners, in a bucket.
fn add(teddy: &mut Teddy, pattern: &[u8], pairing: &Pairing, len: usize, bucket: u8)
    requires bucket { bucket < 8 }
    requires near { LooksBefore len teddy.old }
    requires few { len ≤ MOST }
    requires long { len ≤ length pattern.now }
    ensures own { HasPartners pairing.now len teddy.new pattern.now bucket }
    ensures kept { KeepsPatterns teddy.old teddy.new }
{
    teddy.add(pattern, bucket);
    teddy.add(&partners(pattern, pairing, len), bucket);
}

/// The bucket of a pattern, by its place in the order of their bytes: neighbours share a bucket, so that fewer bytes fit into it.
fn bucket_of(patterns: &[&[u8]], number: usize) -> u8
    requires { number < length patterns.now }
    ensures { result < 8 }
{
    let mut before: usize = 0;
    for other in patterns {
        if *other < patterns[number] {
            before += 1;
        }
    }
    let place = before.min(LIMIT) * BUCKETS / patterns.len();
    place.min(BUCKETS - 1) as u8
}

/// The buckets of some patterns, told apart by their first `len` bytes.
fn buckets_of(patterns: &[&[u8]], pairing: &Pairing, len: usize) -> Teddy
    requires some { 0 < len }
    requires few { len ≤ MOST }
    requires short { AreAsLong len (bytes_of patterns.now) }
    ensures near { LooksBefore len result }
    ensures all { HaveOpened pairing.now len (bytes_of patterns.now) (length patterns.now) result }
{
    let mut teddy = Teddy::empty(len, patterns.len());
    for number in 0..patterns.len() {
        let bucket = bucket_of(patterns, number);
        add(&mut teddy, patterns[number], pairing, len, bucket);
    }
    teddy
}

/// The fingerprints of their first `len` bytes.
fn prints_of(patterns: &[&[u8]], pairing: &Pairing, len: usize) -> Fingerprints
    requires wide { 2 ≤ len }
    requires short { AreAsLong len (bytes_of patterns.now) }
    ensures { ArePrinted pairing.now len (bytes_of patterns.now) (length patterns.now) result }
{
    let mut prints = Fingerprints::new(pairing);
    for pattern in patterns {
        prints.add(&pattern[..len]);
    }
    prints
}

/// A block with these bytes at its front, and others after them.
fn block_of(bytes: &[u8]) -> [u8; LANES + MOST]
    requires { length bytes.now ≤ 36 }
    ensures { take (length bytes.now) result ≡ bytes.now }
{
    let mut block = [0; LANES + MOST];
    block[..bytes.len()].copy_from_slice(bytes);
    block
}

impl Fronts {
    ghost use Rattle.ac_literal.specs.Openings.Fronts.{AreFronts, PassesFronts};

    /// The first `len` bytes of some patterns.
    pub fn new(patterns: &[&[u8]], pairing: &Pairing, len: usize) -> Fronts
        requires wide { 2 ≤ len }
        requires few { len ≤ MOST }
        requires short { AreAsLong len (bytes_of patterns.now) }
        ensures { AreFronts (bytes_of patterns.now) pairing.now len result }
    {
        Fronts {
            teddy: buckets_of(patterns, pairing, len),
            prints: prints_of(patterns, pairing, len),
            len,
        }
    }

    /// The first place of a block that is marked and whose fingerprint is in the set; 32 where there is none.
    #[inline]
    fn first_printed(&self, bytes: &[u8], block: usize, marks: u64) -> usize
        requires room { block + self.now.len + 31 ≤ length bytes.now }
        requires few { marks < 4294967296 }
        ensures within { result ≤ 32 }
        ensures passed { (k : ℕ) → k < result → bit_at marks k ≡ 1
            → ¬ IsPrinted self.now.prints (take self.now.len (drop (block + k) bytes.now)) }
    {
        let mut left = marks;
        while left != 0 {
            let place = lowest(left);
            let at = block + place;
            if self.prints.has(&bytes[at..at + self.len]) {
                return place;
            }
            left = without(left, place);
        }
        LANES
    }

    /// How many places at the front may be passed, where there are fewer than a block has: they are looked at in a copy of the bytes that
    /// has others after it.
    fn pass_short(&self, bytes: &[u8], to: usize) -> usize
        requires short { to < 32 }
        requires end { to + self.now.len ≡ length bytes.now + 1 }
        ensures within { result ≤ to }
        ensures passed { PassesFronts self.now bytes.now result }
    {
        let block = block_of(bytes);
        let marks = self.teddy.marks_at(&block, 0, self.len);
        self.first_printed(&block, 0, marks).min(to)
    }

    /// How many places at the front may be passed, where those before `at` may, and fewer than a block are left: the last ones are
    /// looked at once more, in a block that ends with them.
    ///
    /// Not inlined, since only the end of the bytes comes to it.
    #[inline(never)]
    fn pass_last(&self, bytes: &[u8], at: usize, to: usize) -> usize
        requires order { at ≤ to }
        requires short { to < at + 32 }
        requires end { to + self.now.len ≡ length bytes.now + 1 }
        requires passed { PassesFronts self.now bytes.now at }
        ensures within { result ≤ to }
        ensures passed { PassesFronts self.now bytes.now result }
    {
        if at == to {
            return at;
        }
        if to < LANES {
            return self.pass_short(bytes, to);
        }
        let block = to - LANES;
        let marks = self.teddy.marks_at(bytes, block, self.len);
        block + self.first_printed(bytes, block, marks)
    }

    /// How many bytes at the front may be passed: up to the next place at which a pattern may begin, or up to the last ones.
    #[inline]
    pub fn pass(&self, bytes: &[u8]) -> usize
        ensures within { result ≤ length bytes.now }
        ensures passed { PassesFronts self.now bytes.now result }
    {
        if bytes.len() < self.len {
            return 0;
        }
        let to = bytes.len() - self.len + 1;
        let mut at = 0;
        while to - at >= LANES {
            let (block, marks) = self.teddy.next_marks(bytes, at, to, self.len);
            if marks == 0 {
                return self.pass_last(bytes, block, to);
            }
            let place = self.first_printed(bytes, block, marks);
            if place < LANES {
                return block + place;
            }
            at = block + LANES;
        }
        self.pass_last(bytes, at, to)
    }
}
