//! Marks of the places at which a pattern may begin, 32 at a time: the idea of the search called Teddy.
//!
//! The patterns are spread over eight buckets, a bit for each. Up to four probes look at a byte each, at offsets that lie within
//! all patterns. Each has two tables of 16 bytes, one for the low half of a byte and one for its high half; they give the buckets
//! in which some pattern has such a half at the offset. The results of all look-ups are and-ed: where no bucket is left, no
//! pattern begins. The converse doesn't hold, so a marked place is checked again, by the hash.
//!
//! The tables are looked up for 32 places at once, by the vectors of `std::simd`: a look-up in a table of 16 bytes is one
//! instruction for 16 places, and no place waits for the one before it. A probe costs five instructions for 16 places by low
//! halves, and eleven by whole bytes. Where each bucket has at most one pattern, low halves are enough, at three places for up to
//! four patterns and at four for up to eight. For more patterns all four probes use whole bytes, and for patterns of one or two
//! bytes the first two do. The offsets are spread over the bytes that all patterns have, since bytes further apart distinguish
//! more. Patterns that are neighbours in the order of their bytes share a bucket, so that fewer bytes fit into it. A block is
//! passed by one test of all its places; which of them are marked is computed only if one is.
ghost use Rattle.std.specs.Prelude.{◌≡◌, ◌≢◌, IsFalse, IsTrue, ℕ, ◌+◌, ◌/◌, ◌%◌, ◌<◌, ◌≤◌, length, slice_index, bit_and};
ghost use Rattle.std.specs.Int.{bit_at};
ghost use Rattle.ac_literal.specs.Packed.{AreServed, AreAsLong};
ghost use Rattle.ac_literal.specs.Packed.Teddy.{HasLanes, HasBucket, KeepsBuckets, LooksBefore, HasPattern, KeepsPatterns, IsTeddy, AreSet, IsNextMarks, low_at, left_at, two_at, three_at, four_at, four_low_at, marked_at};

use crate::packed::pattern::Patterns;
use ac_input::primitives::PatternID;
use std::simd::prelude::*;

/// How many places are looked at at once.
pub const LANES: usize = 32;

/// For how many patterns at most three probes are enough, and for how many the low halves of bytes.
const THREE_DO: usize = 4;

const LOW_DO: usize = 8;

/// From which common length of the patterns on.
const LONG: usize = 3;

/// Which of eight buckets of patterns have a given byte at an offset: those that have its low half, and its high half.
#[derive(Clone, Copy, Drop)]
pub struct Probe {
    low: [u8; 16],
    high: [u8; 16],
    offset: usize,
}

/// Where a pattern of some bucket may begin.
#[derive(Clone, Copy, Drop)]
pub struct Teddy {
    first: Probe,
    second: Probe,
    third: Probe,
    fourth: Probe,
    /// Whether whole bytes are looked up, or only their low halves.
    is_whole: bool,
    /// Whether the first two probes are used, or three by low halves, and not all four.
    is_few: bool,
}

/// The bytes from a place on.
#[inline(always)]
fn load(bytes: &[u8], at: usize) -> u8x32
    requires { at + 32 ≤ length bytes.now }
    ensures { HasLanes result (λ k. slice_index bytes.now (at + k)) }
{
    u8x32::from_slice(&bytes[at..])
}

/// A table of 16 bytes, twice.
#[inline(always)]
fn twice(table: &[u8; 16]) -> u8x32
    ensures { HasLanes result (λ k. slice_index table.now (k % 16)) }
{
    u8x16::from_slice(table).swizzle([
        0, 1, 2, 3, 4, 5, 6, 7, 8, 9, 10, 11, 12, 13, 14, 15, 0, 1, 2, 3, 4, 5, 6, 7, 8, 9, 10, 11,
        12, 13, 14, 15,
    ])
}

/// The table's entry at the low half of each lane.
#[inline(always)]
fn at_low(table: &[u8; 16], lanes: u8x32) -> u8x32
    ensures { HasLanes result (λ k. slice_index table.now (slice_index lanes k % 16)) }
{
    twice(table).swizzle_dyn_within::<16>(lanes & u8x32::splat(15))
}

/// The same at the high half.
#[inline(always)]
fn at_high(table: &[u8; 16], lanes: u8x32) -> u8x32
    ensures { HasLanes result (λ k. slice_index table.now (slice_index lanes k / 16)) }
{
    twice(table).swizzle_dyn_within::<16>(lanes >> u8x32::splat(4))
}

/// Both, lane by lane.
#[inline(always)]
fn both(a: u8x32, b: u8x32) -> u8x32
    ensures { HasLanes result (λ k. bit_and (slice_index a k) (slice_index b k)) }
{
    a & b
}

/// Whether some lane isn't 0.
#[inline(always)]
fn has_lane(lanes: u8x32) -> bool
    ensures none { IsFalse result → (k : ℕ) → k < 32 → slice_index lanes k ≡ 0 }
    ensures some { IsTrue result → ¬ ((k : ℕ) → k < 32 → slice_index lanes k ≡ 0) }
{
    lanes.reduce_or() != 0
}

/// Bit k is set where lane k isn't 0.
#[inline(always)]
fn set_lanes(lanes: u8x32) -> u64
    ensures set { (k : ℕ) → k < 32 → slice_index lanes k ≢ 0 → bit_at result k ≡ 1 }
    ensures few { result < 4294967296 }
{
    lanes.simd_ne(u8x32::splat(0)).to_bitmask()
}

impl Probe {
    /// No bucket has any byte at the offset.
    fn new(offset: usize) -> Probe
        ensures { result.offset ≡ offset }
    {
        Probe {
            low: [0; 16],
            high: [0; 16],
            offset,
        }
    }

    /// A bucket has the pattern, too.
    fn add(&mut self, pattern: &[u8], bucket: u8)
        requires bucket { bucket < 8 }
        requires offset { self.old.offset < length pattern.now }
        ensures own { HasBucket self.new (slice_index pattern.now self.new.offset) bucket }
        ensures kept { KeepsBuckets self.old self.new }
    {
        let byte = pattern[self.offset];
        let low = (byte & 15) as usize;
        let high = (byte >> 4) as usize;
        self.low[low] |= 1 << bucket;
        self.high[high] |= 1 << bucket;
    }

    /// At each lane the buckets that have the low half of the byte that stands there at the offset.
    #[inline(always)]
    fn low_lanes(&self, haystack: &[u8], at: usize) -> u8x32
        requires { at + self.now.offset + 32 ≤ length haystack.now }
        ensures { HasLanes result (λ k. low_at self.now haystack.now (at + k)) }
    {
        at_low(&self.low, load(haystack, at + self.offset))
    }

    /// The same of the whole byte.
    #[inline(always)]
    fn lanes(&self, haystack: &[u8], at: usize) -> u8x32
        requires { at + self.now.offset + 32 ≤ length haystack.now }
        ensures { HasLanes result (λ k. left_at self.now haystack.now (at + k)) }
    {
        let lanes = load(haystack, at + self.offset);
        both(at_low(&self.low, lanes), at_high(&self.high, lanes))
    }
}

/// The bucket of a pattern, by its place in the order of their bytes.
fn bucket_of(patterns: &Patterns, number: PatternID) -> u8
    requires served { AreServed patterns.now }
    requires number { number < length patterns.now }
    ensures { result < 8 }
{
    let share = patterns.before(number) * 8 / patterns.len();
    share.min(7) as u8
}

impl Teddy {
    /// With no pattern yet, to be distinguished by the first `len` bytes.
    pub(crate) fn empty(len: usize, count: usize) -> Teddy
        requires some { 0 < len }
        requires few { len ≤ 16 }
        ensures { LooksBefore len result }
    {
        let last = len - 1;
        let is_short = len < LONG;
        let is_few = is_short || count <= THREE_DO;
        let is_whole = is_short || count > LOW_DO;
        Teddy {
            first: Probe::new(0),
            second: Probe::new(last),
            third: Probe::new(if is_few { last / 2 } else { last / 3 }),
            fourth: Probe::new(last * 2 / 3),
            is_whole,
            is_few,
        }
    }

    /// One more pattern, in a bucket.
    pub(crate) fn add(&mut self, pattern: &[u8], bucket: u8)
        requires bucket { bucket < 8 }
        requires long { LooksBefore (length pattern.now) self.old }
        ensures own { HasPattern self.new pattern.now bucket }
        ensures kept { KeepsPatterns self.old self.new }
    {
        self.first.add(pattern, bucket);
        self.second.add(pattern, bucket);
        self.third.add(pattern, bucket);
        self.fourth.add(pattern, bucket);
    }

    /// For some patterns, distinguished by their first `len` bytes.
    pub fn new(patterns: &Patterns, len: usize) -> Teddy
        requires served { AreServed patterns.now }
        requires some { 0 < len }
        requires few { len ≤ 16 }
        requires short { AreAsLong len patterns.now }
        ensures { IsTeddy patterns.now len result }
    {
        let mut teddy = Teddy::empty(len, patterns.len());
        for number in 0..patterns.len() {
            let number = PatternID::must(number);
            teddy.add(patterns.get(number), bucket_of(patterns, number));
        }
        teddy
    }

    /// The buckets that the first three probes leave by the low halves of bytes.
    #[inline(always)]
    fn three(&self, haystack: &[u8], at: usize, len: usize) -> u8x32
        requires near { LooksBefore len self.now }
        requires room { at + len + 31 ≤ length haystack.now }
        ensures { HasLanes result (λ k. three_at self.now haystack.now (at + k)) }
    {
        let two = both(
            self.first.low_lanes(haystack, at),
            self.second.low_lanes(haystack, at),
        );
        both(two, self.third.low_lanes(haystack, at))
    }

    /// The buckets that the first two leave by whole bytes.
    #[inline(always)]
    fn two(&self, haystack: &[u8], at: usize, len: usize) -> u8x32
        requires near { LooksBefore len self.now }
        requires room { at + len + 31 ≤ length haystack.now }
        ensures { HasLanes result (λ k. two_at self.now haystack.now (at + k)) }
    {
        both(
            self.first.lanes(haystack, at),
            self.second.lanes(haystack, at),
        )
    }

    /// The buckets that all four leave by whole bytes.
    #[inline(always)]
    fn four(&self, haystack: &[u8], at: usize, len: usize) -> u8x32
        requires near { LooksBefore len self.now }
        requires room { at + len + 31 ≤ length haystack.now }
        ensures { HasLanes result (λ k. four_at self.now haystack.now (at + k)) }
    {
        let three = both(self.two(haystack, at, len), self.third.lanes(haystack, at));
        both(three, self.fourth.lanes(haystack, at))
    }

    /// The same by the low halves.
    #[inline(always)]
    fn four_low(&self, haystack: &[u8], at: usize, len: usize) -> u8x32
        requires near { LooksBefore len self.now }
        requires room { at + len + 31 ≤ length haystack.now }
        ensures { HasLanes result (λ k. four_low_at self.now haystack.now (at + k)) }
    {
        both(
            self.three(haystack, at, len),
            self.fourth.low_lanes(haystack, at),
        )
    }

    /// The buckets that are left at each of 32 places.
    #[inline(always)]
    fn left(&self, haystack: &[u8], at: usize, len: usize) -> u8x32
        requires near { LooksBefore len self.now }
        requires room { at + len + 31 ≤ length haystack.now }
        ensures { HasLanes result (λ k. marked_at self.now haystack.now (at + k)) }
    {
        match (self.is_whole, self.is_few) {
            (true, true) => self.two(haystack, at, len),
            (true, false) => self.four(haystack, at, len),
            (false, true) => self.three(haystack, at, len),
            (false, false) => self.four_low(haystack, at, len),
        }
    }

    /// The marks of the block at a place. Each place of it has `len` bytes.
    pub fn marks_at(&self, haystack: &[u8], at: usize, len: usize) -> u64
        requires near { LooksBefore len self.now }
        requires room { at + len + 31 ≤ length haystack.now }
        ensures few { result < 4294967296 }
        ensures set { AreSet self.now haystack.now at result }
    {
        set_lanes(self.left(haystack, at, len))
    }

    /// The next block that has a mark, of those that lie whole before the place `to`, and its marks; or no marks, and the place
    /// after the last block. Each place of a block has `len` bytes.
    pub fn next_marks(&self, haystack: &[u8], from: usize, to: usize, len: usize) -> (usize, u64)
        requires near { LooksBefore len self.now }
        requires order { from ≤ to }
        requires room { to + len ≤ length haystack.now + 1 }
        ensures { IsNextMarks self.now haystack.now from to result.0 result.1 }
    {
        let mut at = from;
        while to - at >= LANES {
            let left = self.left(haystack, at, len);
            if has_lane(left) {
                return (at, set_lanes(left));
            }
            at += LANES;
        }
        (at, 0)
    }
}

/// The place of the lowest bit that is set.
#[inline(always)]
pub fn lowest(marks: u64) -> usize
    requires some { marks ≢ 0 }
    requires few { marks < 4294967296 }
    ensures within { result < 32 }
    ensures set { bit_at marks result ≡ 1 }
    ensures below { (k : ℕ) → k < result → bit_at marks k ≡ 0 }
{
    marks.trailing_zeros() as usize
}

/// The marks without one of them.
#[inline(always)]
pub fn without(marks: u64, place: usize) -> u64
    requires within { place < 32 }
    requires set { bit_at marks place ≡ 1 }
    ensures kept { (k : ℕ) → k < 32 → k ≢ place → bit_at result k ≡ bit_at marks k }
    ensures less { result < marks }
{
    marks & !(1 << place)
}

/// The marks at a place and after it.
#[inline(always)]
pub fn from_place(marks: u64, place: usize) -> u64
    requires within { place < 32 }
    requires few { marks < 4294967296 }
    ensures kept { (k : ℕ) → place ≤ k → k < 32 → bit_at result k ≡ bit_at marks k }
    ensures few { result < 4294967296 }
{
    marks & ((1 << LANES) - (1 << place))
}
