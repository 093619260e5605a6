//! Where a pattern may begin, by sampled grams.
//!
//! A gram is eight neighbouring bytes. Of each pattern a map has `step` neighbouring grams: those of its window, where its rarest
//! bytes stand. Wherever the pattern occurs, its grams stand at `step` neighbouring places. So only every `step`-th place of a text
//! is looked up, eight of them at a time, and no load waits for another. Where a gram of the map is found, a pattern may have
//! begun some bytes before, as many as the greatest offset of a gram in its pattern.
//!
//! The map has a bit for each of 65,536 numbers. It takes 8 KiB of the heap, which the first cache holds. Five grams of each of a hundred
//! patterns set one bit of 131, so in a text that has none of the grams one place of 655 is marked. All patterns need nine bytes at
//! least; with twelve the distance of the places is the greatest.
//!
//! Shorter grams would serve shorter patterns. But three letters of a rare word are so common that with a hundred words a place of
//! 60 to 110 is marked, whichever letters are taken.
pub mod choice;

ghost use Rattle.std.specs.Prelude.{◌≡◌, ◌+◌, ◌*◌, ◌<◌, ◌≤◌, IsFalse, IfOk, length};
ghost use Rattle.ac_literal.specs.Grams.Numbers.{gram_number};

use crate::prefilter::rank::rank;
use std::alloc::{AllocError, Global};

/// How many bytes a gram has.
const GRAM: usize = 8;

/// How many bytes patterns need at least: two grams.
pub const SHORTEST: usize = 9;

/// How many numbers of grams there are.
const NUMBERS: usize = 65536;

/// A multiplication by this spreads the bytes of a gram over the bits of its number.
const SPREAD: u64 = 0x9e37_79b9_7f4a_7c15;

/// The greatest distance of the places that are looked up.
const FARTHEST: usize = 5;

/// The grams of some patterns.
#[derive(Drop)]
pub struct Grams {
    bits: Vec<u8>,
    /// How many neighbouring grams of each pattern are in the map, and the distance of the places that are looked up.
    step: usize,
    /// The greatest offset of a gram in its pattern.
    most: usize,
    ghost full: { length bits.items ≡ 8192 },
    ghost some: { 0 < step },
    ghost few: { step ≤ 5 },
}

/// The number of the gram at a place.
#[inline(always)]
fn number_at(bytes: &[u8], at: usize) -> usize
    requires { at + 8 ≤ length bytes.now }
    ensures value { result ≡ gram_number bytes.now at }
    ensures fits { result < 65536 }
{
    let word = u64::from_le_bytes([
        bytes[at],
        bytes[at + 1],
        bytes[at + 2],
        bytes[at + 3],
        bytes[at + 4],
        bytes[at + 5],
        bytes[at + 6],
        bytes[at + 7],
    ]);
    (word.wrapping_mul(SPREAD) >> 48) as usize
}

/// How common some bytes are estimated to be: the greater, the more common.
fn weight(bytes: &[u8]) -> u32 {
    let mut sum: u32 = 0;
    for byte in bytes {
        sum = sum.saturating_add(rank(*byte) as u32);
    }
    sum
}

/// Where the rarest `size` neighbouring bytes begin.
fn rarest(bytes: &[u8], size: usize) -> usize
    requires { size ≤ length bytes.now }
    ensures { result + size ≤ length bytes.now }
{
    let mut best = 0;
    let mut least = u32::MAX;
    for first in 0..bytes.len() - size + 1 {
        let here = weight(&bytes[first..first + size]);
        if here < least {
            best = first;
            least = here;
        }
    }
    best
}

impl Grams {
    ghost use Rattle.ac_literal.specs.Grams.{AreSameGrams, HasGram, HasNoWindow, HasWindow, KeepsGrams, PassesWindows};

    /// No grams yet, for patterns of at least `len` bytes.
    pub fn empty(alloc: Global, len: usize) -> Result<Grams, AllocError>
        requires { 9 ≤ len }
        ensures short { IfOk result (λ grams. grams.step + 7 ≤ len) }
    {
        Ok(Grams {
            bits: vec![in alloc; 0u8; NUMBERS / 8]?,
            step: (len - (GRAM - 1)).min(FARTHEST),
            most: 0,
        })
    }

    /// The same in memory from `alloc`.
    pub fn clone(&self, alloc: Global) -> Result<Grams, AllocError>
        ensures { IfOk result (AreSameGrams self.now) }
    {
        Ok(Grams {
            bits: Vec::from_slice(alloc, &self.bits)?,
            step: self.step,
            most: self.most,
        })
    }

    /// How many bytes of memory they take, besides themselves.
    pub fn memory_usage(&self) -> usize {
        self.bits.len()
    }

    /// The greatest offset of a gram in its pattern.
    #[inline]
    pub fn most(&self) -> usize
        ensures { result ≡ self.now.most }
    {
        self.most
    }

    /// One more gram.
    fn add(&mut self, pattern: &[u8], at: usize)
        requires { at + 8 ≤ length pattern.now }
        ensures own { HasGram self.new pattern.now at }
        ensures kept { KeepsGrams self.old self.new }
    {
        let number = number_at(pattern, at);
        self.bits[number / 8] |= 1 << (number % 8);
    }

    /// The grams of a window.
    fn add_window(&mut self, pattern: &[u8], first: usize)
        requires { first + self.old.step + 7 ≤ length pattern.now }
        ensures own { HasWindow self.new pattern.now }
        ensures kept { KeepsGrams self.old self.new }
    {
        for k in 0..self.step {
            self.add(pattern, first + k);
        }
        self.most = self.most.max(first + self.step - 1);
    }

    /// The grams of a pattern's rarest window.
    pub fn add_rarest(&mut self, pattern: &[u8])
        requires { self.old.step + 7 ≤ length pattern.now }
        ensures own { HasWindow self.new pattern.now }
        ensures kept { KeepsGrams self.old self.new }
    {
        self.add_window(pattern, rarest(pattern, self.step + GRAM - 1));
    }

    /// Whether the map has the gram at a place.
    #[inline(always)]
    fn has(&self, bytes: &[u8], at: usize) -> bool
        requires { at + 8 ≤ length bytes.now }
        ensures { IsFalse result → ¬ HasGram self.now bytes.now at }
    {
        let number = number_at(bytes, at);
        self.bits[number / 8] >> (number % 8) & 1 != 0
    }

    /// Whether it has the gram at one of two places.
    #[inline(always)]
    fn has_of_two(&self, bytes: &[u8], at: usize) -> bool
        requires { at + self.now.step + 8 ≤ length bytes.now }
        ensures { IsFalse result → HasNoWindow self.now bytes.now at
            → HasNoWindow self.now bytes.now (at + 2 * self.now.step) }
    {
        self.has(bytes, at) | self.has(bytes, at + self.step)
    }

    /// The same of four places.
    #[inline(always)]
    fn has_of_four(&self, bytes: &[u8], at: usize) -> bool
        requires { at + 3 * self.now.step + 8 ≤ length bytes.now }
        ensures { IsFalse result → HasNoWindow self.now bytes.now at
            → HasNoWindow self.now bytes.now (at + 4 * self.now.step) }
    {
        self.has_of_two(bytes, at) | self.has_of_two(bytes, at + 2 * self.step)
    }

    /// The same of eight places.
    #[inline(always)]
    fn has_of_eight(&self, bytes: &[u8], at: usize) -> bool
        requires { at + 7 * self.now.step + 8 ≤ length bytes.now }
        ensures { IsFalse result → HasNoWindow self.now bytes.now at
            → HasNoWindow self.now bytes.now (at + 8 * self.now.step) }
    {
        self.has_of_four(bytes, at) | self.has_of_four(bytes, at + 4 * self.step)
    }

    /// The first eight places of which one is marked, or after which too few bytes are left for eight more.
    #[inline]
    fn next_eight(&self, bytes: &[u8]) -> usize
        ensures within { result ≤ length bytes.now }
        ensures none { HasNoWindow self.now bytes.now result }
    {
        let eight = 8 * self.step;
        let mut at = 0;
        while bytes.len() - at >= eight + GRAM {
            if self.has_of_eight(bytes, at) {
                return at;
            }
            at += eight;
        }
        at
    }

    /// The first marked place from a place on, or the first one whose gram isn't whole.
    #[inline]
    fn next(&self, bytes: &[u8], from: usize) -> usize
        requires within { from ≤ length bytes.now }
        requires none { HasNoWindow self.now bytes.now from }
        ensures within { result ≤ length bytes.now }
        ensures none { HasNoWindow self.now bytes.now result }
    {
        let mut at = from;
        while bytes.len() - at >= GRAM {
            if self.has(bytes, at) {
                return at;
            }
            at += self.step;
        }
        at
    }

    /// How many bytes at the front may be passed: up to the next place at which a pattern may begin, or up to the last ones.
    #[inline]
    pub fn pass(&self, bytes: &[u8]) -> usize
        ensures within { result ≤ length bytes.now }
        ensures passed { PassesWindows self.now bytes.now result }
    {
        let eight = self.next_eight(bytes);
        let marked = self.next(bytes, eight);
        marked.saturating_sub(self.most)
    }
}
