//! Where a search looks, which of several matches it prefers, and what it returns.
//!
//! A haystack is searched within a [`Span`]. A pattern may lie at many places of it, and patterns may overlap: the [`MatchKind`]
//! says which of them is the match. A [`Match`] holds the pattern's number and where it lies.
ghost use Rattle.std.specs.Prelude.{◌≡◌, ◌+◌, ◌-◌, ◌^◌, ◌<◌, ◌≤◌, ◌↔◌, length, slice_range, IsCharBoundary, IsTrue, true, false, Some};
ghost use Rattle.ac_input.specs.Occurrence.{Occurrence};
ghost use Rattle.ac_input.specs.Best.{asked_kind};
ghost use Rattle.ac_input.specs.Computed.{is_after};
ghost use Rattle.ac_input.specs.Number.{greatest_number};

pub mod candidate;
pub mod input;

use crate::primitives::PatternID;
pub use candidate::Candidate;
pub use input::Input;
use std::marker::Model;
use std::ops::Range;

/// Which of several overlapping occurrences is the match.
#[derive(Clone, Copy, Debug, Default, PartialEq, Eq)]
pub enum MatchKind {
    /// The occurrence that ends first; of those, the one that starts first; of those, the one whose pattern was given first.
    /// Only this kind can be streamed and searched for overlapping matches.
    #[default]
    Standard,
    /// The occurrence that starts first; of those, the one whose pattern was given first. This is what an alternation of
    /// literals means in most regular expression engines.
    LeftmostFirst,
    /// The occurrence that starts first; of those, the longest; of those, the one whose pattern was given first. This is what
    /// a POSIX regular expression means.
    LeftmostLongest,
}

impl MatchKind {
    /// The kind that an earliest search uses: the standard one, whatever the kind.
    pub fn asked(self, earliest: bool) -> MatchKind
        ensures { result ≡ asked_kind self earliest }
    {
        if earliest { MatchKind::Standard } else { self }
    }
}

/// Whether a match has to start where the span starts.
#[derive(Clone, Copy, Debug, PartialEq, Eq)]
pub enum Anchored {
    /// A match may start anywhere in the span.
    No,
    /// A match starts at the span's start, or there is none.
    Yes,
}

impl Anchored {
    /// Whether a match has to start where the span starts.
    pub fn is_anchored(&self) -> bool
        ensures { IsTrue result ↔ (self.now ≡ Anchored.Yes) }
    {
        match self {
            Anchored::No => false,
            Anchored::Yes => true,
        }
    }
}

/// Which kinds of search an automaton is built for.
#[derive(Clone, Copy, Debug, Default, PartialEq, Eq)]
pub enum StartKind {
    /// Anchored and unanchored ones. It may take about twice the memory of one kind.
    Both,
    /// Unanchored ones alone.
    #[default]
    Unanchored,
    /// Anchored ones alone.
    Anchored,
}

/// A part of a haystack: the bytes from `start` up to and without `end`, counted from 0.
#[derive(Clone, Copy, Debug, PartialEq, Eq, Hash)]
pub struct Span {
    pub start: usize,
    pub end: usize,
}

impl Span {
    /// The same part as a range.
    pub fn range(&self) -> Range<usize>
        ensures { result ≡ record { start = self.now.start; end = self.now.end } }
    {
        self.start..self.end
    }

    /// Whether it has no byte; also where it ends before it starts.
    pub fn is_empty(&self) -> bool
        ensures { IsTrue result ↔ (self.now.end ≤ self.now.start) }
    {
        self.start >= self.end
    }

    /// How many bytes it has: none where it ends before it starts.
    pub fn len(&self) -> usize
        ensures { result ≡ self.now.end - self.now.start }
    {
        self.end.saturating_sub(self.start)
    }

    /// Whether the byte at the place is in it.
    pub fn contains(&self, at: usize) -> bool
        ensures { IsTrue result ↔ ((self.now.start ≤ at) × (at < self.now.end)) }
    {
        self.start <= at && at < self.end
    }

    /// The bytes of the haystack that are in it.
    pub fn of<'h>(&self, haystack: &'h [u8]) -> &'h [u8]
        requires order { self.now.start ≤ self.now.end }
        requires within { self.now.end ≤ length haystack.now }
        ensures { result.now ≡ slice_range haystack.now self.now.start self.now.end }
    {
        &haystack[self.start..self.end]
    }

    /// The text that is in it. It starts and ends between characters.
    pub fn of_text<'h>(&self, text: &'h str) -> &'h str
        requires order { self.now.start ≤ self.now.end }
        requires start { IsCharBoundary text.now self.now.start }
        requires end { IsCharBoundary text.now self.now.end }
        ensures { result.now ≡ slice_range text.now self.now.start self.now.end }
    {
        &text[self.start..self.end]
    }

    /// The span, shifted by this many bytes.
    pub fn offset(&self, bytes: usize) -> Span
        requires start { self.now.start + bytes < 2 ^ 64 }
        requires end { self.now.end + bytes < 2 ^ 64 }
        ensures { result ≡ record { start = self.now.start + bytes; end = self.now.end + bytes } }
    {
        Span {
            start: self.start + bytes,
            end: self.end + bytes,
        }
    }
}

impl From<Range<usize>> for Span {
    ghost from_gives = { λ range span. span ≡ record { start = range.start; end = range.end } };

    fn from(range: Range<usize>) -> Span {
        Span {
            start: range.start,
            end: range.end,
        }
    }
}

impl From<Span> for Range<usize> {
    ghost from_gives = { λ span range. range ≡ record { start = span.start; end = span.end } };

    fn from(span: Span) -> Range<usize> {
        span.range()
    }
}

/// Which pattern lies where: the result of a search. It never ends before it starts.
#[derive(Clone, Copy, Debug, PartialEq, Eq, Hash)]
pub struct Match {
    pattern: PatternID,
    span: Span,
}

impl Model for Match {
    ghost use Rattle.std.specs.Prelude.{◌≤◌};
    ghost use Rattle.ac_input.specs.Occurrence.{Occurrence};

    ghost Value = { Occurrence };

    ghost view = { λ m. record { pattern = m.pattern; start = m.span.start; end = m.span.end } };

    ghost invariant = { λ m. m.span.start ≤ m.span.end };

    ghost inverse = { λ o.
        record { pattern = o.pattern; span = record { start = o.start; end = o.end } } };
}

impl Match {
    /// A match of the pattern at the span.
    pub fn new(pattern: PatternID, span: Span) -> Match
        requires { span.start ≤ span.end }
        ensures { result ≡ record { pattern = pattern; start = span.start; end = span.end } }
    {
        Match { pattern, span }
    }

    /// A match of the pattern of this number at the range, where the caller knows that the number fits.
    pub fn must(pattern: usize, range: Range<usize>) -> Match
        requires pattern { pattern ≤ greatest_number }
        requires range { range.start ≤ range.end }
        ensures { result ≡ record { pattern = pattern; start = range.start; end = range.end } }
    {
        Match {
            pattern: PatternID::must(pattern),
            span: Span::from(range),
        }
    }

    /// The number of the pattern that matched.
    pub fn pattern(&self) -> PatternID
        ensures { result ≡ self.now.pattern }
    {
        self.pattern
    }

    /// The place of the first byte.
    pub fn start(&self) -> usize
        ensures value { result ≡ self.now.start }
        ensures ordered { result ≤ self.now.end }
    {
        self.span.start
    }

    /// The place after the last byte.
    pub fn end(&self) -> usize
        ensures value { result ≡ self.now.end }
        ensures ordered { self.now.start ≤ result }
    {
        self.span.end
    }

    /// Where it lies, as a range.
    pub fn range(&self) -> Range<usize>
        ensures { result ≡ record { start = self.now.start; end = self.now.end } }
    {
        self.span.range()
    }

    /// Where it lies.
    pub fn span(&self) -> Span
        ensures { result ≡ record { start = self.now.start; end = self.now.end } }
    {
        self.span
    }

    /// Whether it comes after an occurrence, given by its numbers, in the order of a listing: by end, start and pattern.
    pub fn is_after(&self, pattern: u32, start: usize, end: usize) -> bool
        ensures { result ≡ is_after (Some (record { pattern = pattern; start = start; end = end })) self.now }
    {
        if end != self.end() {
            return end < self.end();
        }
        if start != self.start() {
            return start < self.start();
        }
        pattern < self.pattern().as_u32()
    }

    /// Whether it has no byte: a match of an empty pattern.
    pub fn is_empty(&self) -> bool
        ensures { IsTrue result ↔ (self.now.start ≡ self.now.end) }
    {
        self.span.is_empty()
    }

    /// How many bytes it has.
    pub fn len(&self) -> usize
        ensures { result + self.now.start ≡ self.now.end }
    {
        self.span.len()
    }

    /// The match, shifted by this many bytes.
    pub fn offset(&self, bytes: usize) -> Match
        requires { self.now.end + bytes < 2 ^ 64 }
        ensures { result ≡ record {
          pattern = self.now.pattern;
          start = self.now.start + bytes;
          end = self.now.end + bytes;
        } }
    {
        let span = self.span;
        Match {
            pattern: self.pattern,
            span: span.offset(bytes),
        }
    }
}
