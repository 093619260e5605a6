//! The search itself: marks first, and the hash at a mark.
//!
//! One pattern alone is left to a search for a needle (`needle`). With more, the haystack is searched in blocks of 32 places,
//! whose marks come at once. If a block has none, no pattern begins in it. Otherwise each marked place is checked by the hash of
//! the bytes there, from the first to the last; the first place at which a pattern lies has the match. The rest after the last
//! whole block is searched by a block that ends with it, or, where the span has fewer places than a block, by the rolling hash.
//!
//! Where grams find fewer places than marks (`grams`), they take the place of marks: with many patterns, or patterns of few
//! different letters. The hash then searches the few places from which a pattern reaches the gram.
//!
//! Where much of the text is marked, checking each mark costs more than rolling a hash over all places. So after a block that has
//! more than 8 marks the hash alone searches the next 64 places, and then marks are tried again. If they are too many again, the
//! next stretch is twice as long, up to 4096 places. In text that is marked everywhere, one block of marks comes for every 4096
//! places by the hash, which costs less than a tenth more; where only a little of the text is marked, little is lost. With one
//! pattern, too, the hash takes over after more than 8 searches in a row that found a match on the first two places: starting a
//! search for a needle costs more than checking some places by the hash. An iterator remembers its pace from match to match, so
//! that many short searches don't each try anew.
ghost use Rattle.std.specs.Prelude.{◌≡◌, ◌+◌, ◌-◌, ◌<◌, ◌≤◌, length, IfOk, IfSome};
ghost use Rattle.ac_literal.specs.Grams.{AreCopiedGrams, HaveWindows};
ghost use Rattle.ac_literal.specs.Packed.{AreAsLong, AreServed, in_span, search_kind};
ghost use Rattle.ac_literal.specs.Packed.RabinKarp.{NoneBefore, IsMatchBefore};
ghost use Rattle.ac_literal.specs.Packed.Teddy.{HasMarks};
ghost use Rattle.ac_literal.specs.Packed.Scanner.{IsScanner, IsScannerOf, IsSameScanner};
ghost use Rattle.ac_input.specs.Best.{IsBest};

use crate::grams::choice::Choice;
use crate::grams::{Grams, SHORTEST};
use crate::packed::api::MatchKind;
use crate::packed::needle::{clone_needle, find_needle, only_needle};
use crate::packed::pattern::Patterns;
use crate::packed::rabinkarp::RabinKarp;
use crate::packed::teddy::{LANES, Teddy, from_place, lowest, without};
use ac_input::primitives::PatternID;
use ac_input::search::{Match, Span};
use memchr::memmem;
use std::alloc::{AllocError, Global};

/// How many marks a block may have for marks to be worth it.
const FEW: u32 = 8;

/// How near to its start a search for one pattern may find its match, and for how many searches in a row.
const NEAR: usize = 2;

const MANY: u32 = 8;

/// How near a gram may stand for grams to be worth it.
const NEAR_GRAM: usize = 16;

/// For how many places the hash searches alone when marks aren't worth it, at first and at most.
const SHORT: usize = 64;

const LONG: usize = 4096;

/// Where marks are used. No result depends on it.
#[derive(Clone, Copy, Drop)]
pub struct Pace {
    /// Up to this place the hash searches alone.
    hash_until: usize,
    /// For how many places it did so last.
    stretch: usize,
    /// How many searches in a row for one pattern found a match near to where they began.
    near: u32,
}

impl Pace {
    /// Marks are used from the first place on.
    pub fn new() -> Pace {
        Pace {
            hash_until: 0,
            stretch: 0,
            near: 0,
        }
    }

    /// A search for one pattern, from a place on, found this.
    fn met(&mut self, from: usize, found: &Option<Match>) {
        let is_near = match found {
            Some(found) => found.start().saturating_sub(from) < NEAR,
            None => false,
        };
        self.near = if is_near {
            self.near.saturating_add(1)
        } else {
            0
        };
        if self.near > MANY {
            self.slow(from);
        }
    }

    /// Makes the hash search alone for a while, after the block.
    fn slow(&mut self, block: usize) {
        let since = block.saturating_sub(self.hash_until);
        self.stretch = if since < self.stretch {
            self.stretch.saturating_mul(2).min(LONG)
        } else {
            SHORT
        };
        self.hash_until = block.saturating_add(LANES).saturating_add(self.stretch);
    }
}

/// Finds patterns by marks and hashes.
#[derive(Drop)]
pub struct Scanner {
    table: RabinKarp,
    teddy: Teddy,
    /// The only pattern, where there is one alone.
    only: Option<memmem::Finder<'static>>,
    /// The grams of the patterns, where those find fewer places than marks.
    grams: Option<Grams>,
}

/// Whether grams find fewer places than marks.
fn prefers_grams(patterns: &Patterns) -> bool
    requires { AreServed patterns.now }
{
    let mut choice = Choice::new();
    for number in 0..patterns.len() {
        choice.add(patterns.get(PatternID::must(number)));
    }
    choice.takes_grams()
}

/// The grams of the first `len` bytes of some patterns; none where those are too few, or marks find fewer places.
fn grams_of(alloc: Global, patterns: &Patterns, len: usize) -> Result<Option<Grams>, AllocError>
    requires served { AreServed patterns.now }
    requires short { AreAsLong len patterns.now }
    ensures { IfOk result (λ made. IfSome made
        (λ grams. HaveWindows grams len patterns.now (length patterns.now))) }
{
    if len < SHORTEST || !prefers_grams(patterns) {
        return Ok(None);
    }
    let mut grams = Grams::empty(alloc, len)?;
    for number in 0..patterns.len() {
        let pattern = patterns.get(PatternID::must(number));
        grams.add_rarest(&pattern[..len]);
    }
    Ok(Some(grams))
}

/// The same grams in memory from `alloc`.
fn clone_grams(alloc: Global, held: &Option<Grams>) -> Result<Option<Grams>, AllocError>
    ensures { IfOk result (AreCopiedGrams held.now) }
{
    match held {
        Some(grams) => Ok(Some(grams.clone(alloc)?)),
        None => Ok(None),
    }
}

impl Scanner {
    /// For some patterns. It looks at the first bytes of each.
    pub fn new(alloc: Global, kind: MatchKind, patterns: &Patterns) -> Result<Scanner, AllocError>
        requires { AreServed patterns.now }
        ensures { IfOk result (IsScannerOf kind patterns.now) }
    {
        let table = RabinKarp::new(alloc, kind, patterns)?;
        let teddy = Teddy::new(patterns, table.hash_len());
        let only = only_needle(alloc, patterns)?;
        let grams = grams_of(alloc, patterns, table.hash_len())?;
        Ok(Scanner {
            table,
            teddy,
            only,
            grams,
        })
    }

    /// The same in memory from `alloc`.
    pub fn clone(&self, alloc: Global) -> Result<Scanner, AllocError>
        ensures { IfOk result (IsSameScanner self.now) }
    {
        Ok(Scanner {
            table: self.table.clone(alloc)?,
            teddy: self.teddy,
            only: clone_needle(&self.only, alloc)?,
            grams: clone_grams(alloc, &self.grams)?,
        })
    }

    /// Which of several patterns at one place is the match.
    pub fn match_kind(&self) -> &MatchKind
        ensures { result.now ≡ self.now.table.kind }
    {
        self.table.match_kind()
    }

    /// Whether it goes by grams, which find few places in vain.
    pub fn is_sparse(&self) -> bool {
        self.grams.is_some()
    }

    /// How many bytes of memory it takes, besides itself.
    pub fn memory_usage(&self) -> usize {
        let needle = match &self.only {
            Some(needle) => needle.needle().len(),
            None => 0,
        };
        let grams = match &self.grams {
            Some(grams) => grams.memory_usage(),
            None => 0,
        };
        self.table
            .memory_usage()
            .saturating_add(needle)
            .saturating_add(grams)
    }

    /// The match of the kind, if it begins in the block at `at`, where none begins before it.
    #[inline(always)]
    fn find_marked(
        &self,
        patterns: &Patterns,
        haystack: &[u8],
        span: Span,
        at: usize,
        marks: u64,
    ) -> Option<Match>
        requires scanner { IsScanner patterns.now self.now }
        requires start { span.start ≤ at }
        requires end { at + 31 + self.now.table.hash_len ≤ span.end }
        requires within { span.end ≤ length haystack.now }
        requires none { NoneBefore (in_span patterns.now haystack.now span) at }
        requires few { marks < 4294967296 }
        requires marks { HasMarks (in_span patterns.now haystack.now span) at marks }
        ensures { IsMatchBefore self.now.table.kind patterns.now haystack.now span (at + 32) result }
    {
        let mut left = marks;
        while left != 0 {
            let place = lowest(left);
            let found = self.table.find_place(patterns, haystack, span, at + place);
            if found.is_some() {
                return found;
            }
            left = without(left, place);
        }
        None
    }

    /// The match of the kind, if it begins at one of the last places, fewer than a block has. None begins before `at`.
    ///
    /// Not inlined, since only the end of a span comes to it.
    #[inline(never)]
    fn find_last(
        &self,
        patterns: &Patterns,
        haystack: &[u8],
        span: Span,
        at: usize,
    ) -> Option<Match>
        requires scanner { IsScanner patterns.now self.now }
        requires start { span.start ≤ at }
        requires long { self.now.table.hash_len ≤ span.end }
        requires end { at ≤ span.end - self.now.table.hash_len + 1 }
        requires short { span.end - self.now.table.hash_len + 1 < at + 32 }
        requires within { span.end ≤ length haystack.now }
        requires none { NoneBefore (in_span patterns.now haystack.now span) at }
        ensures { IsMatchBefore self.now.table.kind patterns.now haystack.now span
            (span.end - self.now.table.hash_len + 1) result }
    {
        let len = self.table.hash_len();
        let to = span.end - len + 1;
        if at == to {
            return None;
        }
        if to - span.start < LANES {
            return self.table.find_between(patterns, haystack, span, at, to);
        }
        let block = to - LANES;
        let marks = from_place(self.teddy.marks_at(haystack, block, len), at - block);
        self.find_marked(patterns, haystack, span, block, marks)
    }

    /// The match of the kind, if it begins where the next gram stands, and the place after the last one at which it may. None
    /// begins before `at`.
    fn find_by_grams(
        &self,
        grams: &Grams,
        patterns: &Patterns,
        haystack: &[u8],
        span: Span,
        at: usize,
        pace: &mut Pace,
    ) -> (usize, Option<Match>)
        requires scanner { IsScanner patterns.now self.now }
        requires windows { HaveWindows grams.now self.now.table.hash_len patterns.now
            (length patterns.now) }
        requires start { span.start ≤ at }
        requires end { at + self.now.table.hash_len ≤ span.end }
        requires within { span.end ≤ length haystack.now }
        requires none { NoneBefore (in_span patterns.now haystack.now span) at }
        ensures more { at < result.0 }
        ensures end { result.0 + self.now.table.hash_len ≤ span.end + 1 }
        ensures found { IsMatchBefore self.now.table.kind patterns.now haystack.now span result.0 result.1 }
    {
        let to = span.end - self.table.hash_len() + 1;
        let passed = grams.pass(&haystack[at..span.end]);
        if passed < NEAR_GRAM {
            pace.slow(at);
        }
        let from = to.min(at + passed);
        let next = to.min(from.saturating_add(grams.most()).saturating_add(1));
        let found = self
            .table
            .find_between(patterns, haystack, span, from, next);
        (next, found)
    }

    /// The match of the kind, if it begins in the next part, and the end of that part. None begins before `at`.
    #[inline(always)]
    fn find_part(
        &self,
        patterns: &Patterns,
        haystack: &[u8],
        span: Span,
        at: usize,
        pace: &mut Pace,
    ) -> (usize, Option<Match>)
        requires scanner { IsScanner patterns.now self.now }
        requires start { span.start ≤ at }
        requires end { at + self.now.table.hash_len ≤ span.end }
        requires within { span.end ≤ length haystack.now }
        requires none { NoneBefore (in_span patterns.now haystack.now span) at }
        ensures more { at < result.0 }
        ensures end { result.0 + self.now.table.hash_len ≤ span.end + 1 }
        ensures found { IsMatchBefore self.now.table.kind patterns.now haystack.now span result.0 result.1 }
    {
        let len = self.table.hash_len();
        let to = span.end - len + 1;
        if at < pace.hash_until {
            let next = to.min(pace.hash_until);
            let found = self.table.find_between(patterns, haystack, span, at, next);
            return (next, found);
        }
        if let Some(needle) = &self.only {
            let rest = Span {
                start: at,
                end: span.end,
            };
            let found = find_needle(needle, haystack, rest);
            pace.met(at, &found);
            return (to, found);
        }
        if let Some(grams) = &self.grams {
            return self.find_by_grams(grams, patterns, haystack, span, at, pace);
        }
        let (block, marks) = self.teddy.next_marks(haystack, at, to, len);
        if marks == 0 {
            return (to, self.find_last(patterns, haystack, span, block));
        }
        if marks.count_ones() > FEW {
            pace.slow(block);
        }
        let found = self.find_marked(patterns, haystack, span, block, marks);
        (block + LANES, found)
    }

    /// The match of the kind in the span, if it has one.
    pub fn find_in(
        &self,
        patterns: &Patterns,
        haystack: &[u8],
        span: Span,
        pace: &mut Pace,
    ) -> Option<Match>
        requires scanner { IsScanner patterns.now self.now }
        requires order { span.start ≤ span.end }
        requires within { span.end ≤ length haystack.now }
        ensures { IsBest (search_kind self.now.table.kind) (in_span patterns.now haystack.now span) result }
    {
        let len = self.table.hash_len();
        if span.end - span.start < len {
            return None;
        }
        let to = span.end - len + 1;
        let mut at = span.start;
        while at < to {
            let (next, found) = self.find_part(patterns, haystack, span, at, pace);
            if found.is_some() {
                return found;
            }
            at = next;
        }
        None
    }
}
