//! The search of Rabin and Karp for many patterns, by one rolling hash.
//!
//! All patterns are at least `hash_len` bytes long, and the table has the hash of the first `hash_len` bytes of each. `hash_len`
//! is at most 16, enough to distinguish patterns well. The hash of as many bytes of the haystack is rolled on by a byte at a time:
//! the next one follows from the last one, the byte that leaves and the byte that comes. A byte counts twice as much as the one
//! after it, modulo 2 to the 64, so that a step is a multiplication, two sums and a shift. Or it is computed anew at one place,
//! where a match may begin.
//!
//! The entries are in one vector, the least preferred pattern first. The low bits of a hash select one of 1024 buckets, whose head
//! is its last entry, and each entry links to the one before it in its bucket. So at a place where a head is 0 the step is one
//! load. With fifty patterns that is so at nineteen places of twenty, and the processor predicts it well. Elsewhere the hashes of
//! the bucket are compared, and a pattern only where its hash is that of the place. The first pattern that lies there is the one
//! that the kind prefers. A table takes a kilobyte, and 16 bytes a pattern.
ghost use Rattle.std.specs.Prelude.{◌≡◌, ◌+◌, ◌-◌, ◌*◌, ◌%◌, ◌^◌, ◌<◌, ◌≤◌, length, slice_range, IfOk, MatchOption};
ghost use Rattle.ac_input.specs.Occurrence.{Occurs};
ghost use Rattle.ac_literal.specs.Packed.{AreServed, in_span};
ghost use Rattle.ac_literal.specs.Packed.RabinKarp.{hash_of, bucket_of, lying, entry_at, IsTable, IsTableOf, IsSameTable, NoneBefore, IsMatchAt, IsMatchBefore};

use crate::packed::api::MatchKind;
use crate::packed::pattern::Patterns;
use ac_input::primitives::PatternID;
use ac_input::search::{Match, Span};
use std::alloc::{AllocError, Global};

/// How many bytes are hashed at most.
const HASHED: usize = 16;

/// A pattern in its bucket.
#[derive(Clone, Copy)]
pub struct Entry {
    /// The hash of the pattern's first bytes.
    hash: u64,
    pattern: PatternID,
    /// The entry before it in its bucket, counted from 1; 0 where it is the first.
    next: u8,
}

/// The hashes of some patterns.
#[derive(Drop)]
pub struct RabinKarp {
    /// The kind by which the entries are ordered.
    kind: MatchKind,
    /// The last entry of each bucket, counted from 1; 0 where it has none.
    heads: [u8; 1024],
    entries: Vec<Entry>,
    /// How many bytes are hashed.
    hash_len: usize,
    /// The weight of the first of them in a hash.
    hash_2pow: u64,
}

/// A hash with one more byte after the others.
#[inline(always)]
fn add(hash: u64, byte: u8) -> u64
    ensures { result ≡ (hash * 2 + byte) % 2 ^ 64 }
{
    hash.wrapping_shl(1).wrapping_add(byte as u64)
}

/// A hash without its first byte, which has this weight in it.
#[inline(always)]
fn del(hash: u64, hash_2pow: u64, byte: u8) -> u64
    ensures { result ≡ (hash + 2 ^ 64 - byte * hash_2pow % 2 ^ 64) % 2 ^ 64 }
{
    hash.wrapping_sub((byte as u64).wrapping_mul(hash_2pow))
}

/// The hash of some bytes.
fn hash_of(bytes: &[u8]) -> u64
    ensures { result ≡ hash_of bytes.now }
{
    let mut hash = 0;
    for byte in bytes {
        hash = add(hash, *byte);
    }
    hash
}

/// The weight of the first of this many bytes in their hash.
fn power_of(hash_len: usize) -> u64
    requires { 0 < hash_len }
    ensures { result ≡ 2 ^ (hash_len - 1) % 2 ^ 64 }
{
    if hash_len > 64 {
        0
    } else {
        1 << (hash_len - 1)
    }
}

/// The bucket of a hash.
#[inline(always)]
fn bucket_of(hash: u64) -> usize
    ensures value { result ≡ bucket_of hash }
    ensures fits { result < 1024 }
{
    (hash % 1024) as usize
}

/// The pattern of an entry as a match, if it lies at the place and ends within the span. Its hash is compared first.
#[inline(always)]
fn match_at(
    patterns: &Patterns,
    entry: Entry,
    haystack: &[u8],
    span: Span,
    at: usize,
    hash: u64,
) -> Option<Match>
    requires number { entry.pattern < length patterns.now }
    requires start { span.start ≤ at }
    requires end { at ≤ span.end }
    requires within { span.end ≤ length haystack.now }
    ensures { let s = in_span patterns.now haystack.now span in
        let it = lying patterns.now at entry.pattern in
        MatchOption result (entry.hash ≡ hash → Occurs s it → ⊥) (λ m. (m ≡ it) × Occurs s it) }
{
    if entry.hash != hash {
        return None;
    }
    let pattern = patterns.get(entry.pattern);
    if span.end - at < pattern.len() {
        return None;
    }
    let end = at + pattern.len();
    if &haystack[at..end] == pattern {
        Some(Match::new(entry.pattern, Span { start: at, end }))
    } else {
        None
    }
}

impl RabinKarp {
    /// The table of some patterns. It looks at the first bytes of each.
    pub fn new(alloc: Global, kind: MatchKind, patterns: &Patterns) -> Result<RabinKarp, AllocError>
        requires { AreServed patterns.now }
        ensures { IfOk result (IsTableOf kind patterns.now) }
    {
        let hash_len = patterns.minimum_len().min(HASHED);
        let order = patterns.order(alloc, kind)?;
        let mut heads = [0; 1024];
        let mut entries = Vec::with_capacity(alloc, order.len())?;
        for number in &order {
            let hash = hash_of(&patterns.get(*number)[..hash_len]);
            let bucket = bucket_of(hash);
            entries.push(Entry {
                hash,
                pattern: *number,
                next: heads[bucket],
            })?;
            heads[bucket] = entries.len() as u8;
        }
        Ok(RabinKarp {
            kind,
            heads,
            entries,
            hash_len,
            hash_2pow: power_of(hash_len),
        })
    }

    /// The same table in memory from `alloc`.
    pub fn clone(&self, alloc: Global) -> Result<RabinKarp, AllocError>
        ensures { IfOk result (IsSameTable self.now) }
    {
        Ok(RabinKarp {
            kind: self.kind,
            heads: self.heads,
            entries: Vec::from_slice(alloc, &self.entries)?,
            hash_len: self.hash_len,
            hash_2pow: self.hash_2pow,
        })
    }

    /// Which of several patterns at one place is the match.
    pub fn match_kind(&self) -> &MatchKind
        ensures { result.now ≡ self.now.kind }
    {
        &self.kind
    }

    /// How many bytes are hashed.
    #[inline(always)]
    pub fn hash_len(&self) -> usize
        ensures { result ≡ self.now.hash_len }
    {
        self.hash_len
    }

    /// How many bytes of memory the table takes, besides itself.
    pub fn memory_usage(&self) -> usize {
        self.entries.capacity().saturating_mul(size_of::<Entry>())
    }

    /// The hash of the place after one, from the byte that leaves and the byte that comes.
    #[inline(always)]
    fn roll(&self, hash: u64, first: u8, last: u8) -> u64
        ensures { let less = (hash + 2 ^ 64 - first * self.now.hash_2pow % 2 ^ 64) % 2 ^ 64 in
            result ≡ (less * 2 + last) % 2 ^ 64 }
    {
        add(del(hash, self.hash_2pow, first), last)
    }

    /// The entry of this number, counted from 0.
    #[inline(always)]
    fn entry(&self, i: usize) -> Entry
        requires { i < length self.now.entries.items }
        ensures { result ≡ entry_at self.now.entries.items i }
    {
        self.entries[i]
    }

    /// The match at the place: of the patterns that lie there, the one that the kind prefers.
    #[inline(always)]
    fn find_at(
        &self,
        patterns: &Patterns,
        haystack: &[u8],
        span: Span,
        at: usize,
        hash: u64,
    ) -> Option<Match>
        requires table { IsTable patterns.now self.now }
        requires start { span.start ≤ at }
        requires end { at + self.now.hash_len ≤ span.end }
        requires within { span.end ≤ length haystack.now }
        requires hash { hash ≡ hash_of (slice_range haystack.now at (at + self.now.hash_len)) }
        ensures { IsMatchAt self.now.kind patterns.now haystack.now span at result }
    {
        let head = self.heads[bucket_of(hash)];
        let mut link = head as usize;
        while link > 0 {
            let entry = self.entry(link - 1);
            link = entry.next as usize;
            let found = match_at(patterns, entry, haystack, span, at, hash);
            if found.is_some() {
                return found;
            }
        }
        None
    }

    /// The match at a place, by the hash of the bytes there.
    #[inline(always)]
    pub fn find_place(
        &self,
        patterns: &Patterns,
        haystack: &[u8],
        span: Span,
        at: usize,
    ) -> Option<Match>
        requires table { IsTable patterns.now self.now }
        requires start { span.start ≤ at }
        requires end { at + self.now.hash_len ≤ span.end }
        requires within { span.end ≤ length haystack.now }
        ensures { IsMatchAt self.now.kind patterns.now haystack.now span at result }
    {
        let hash = hash_of(&haystack[at..at + self.hash_len]);
        self.find_at(patterns, haystack, span, at, hash)
    }

    /// The match of the kind, if it begins before the place `to`, where none begins before the place `from`.
    #[inline(always)]
    pub fn find_between(
        &self,
        patterns: &Patterns,
        haystack: &[u8],
        span: Span,
        from: usize,
        to: usize,
    ) -> Option<Match>
        requires table { IsTable patterns.now self.now }
        requires start { span.start ≤ from }
        requires order { from ≤ to }
        requires end { to + self.now.hash_len ≤ span.end + 1 }
        requires within { span.end ≤ length haystack.now }
        requires none { NoneBefore (in_span patterns.now haystack.now span) from }
        ensures { IsMatchBefore self.now.kind patterns.now haystack.now span to result }
    {
        if from == to {
            return None;
        }
        let last = to - 1;
        let mut at = from;
        let mut hash = hash_of(&haystack[at..at + self.hash_len]);
        while at < last {
            let found = self.find_at(patterns, haystack, span, at, hash);
            if found.is_some() {
                return found;
            }
            hash = self.roll(hash, haystack[at], haystack[at + self.hash_len]);
            at += 1;
        }
        self.find_at(patterns, haystack, span, at, hash)
    }
}
