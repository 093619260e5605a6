//! The input of a search: a haystack, and how to search it.
ghost use Rattle.std.specs.Prelude.{◌≡◌, ◌+◌, ◌^◌, ◌<◌, ◌≤◌, ◌↔◌, length, IsTrue};
ghost use Rattle.ac_input.specs.Input.{IsSpanOf, whole_of};

use crate::search::{Anchored, Span};
use std::marker::Model;
use std::ops::Range;

/// A haystack, the span of it that is searched, whether a match has to start where the span starts, and whether the search may
/// end at the first end that it finds.
///
/// It holds a reference and no memory of its own. The span always ends within the haystack. It may start one past its end: then
/// the search is over ([`Input::is_done`]), as a walk is after an empty match at the end.
#[derive(Clone, Drop)]
pub struct Input<'h> {
    haystack: &'h [u8],
    span: Span,
    anchored: Anchored,
    earliest: bool,
}

impl<'h> Model for Input<'h> {
    ghost use Rattle.ac_input.specs.Input.{Asked, IsSpanOf};

    ghost Value = { Asked };

    ghost view = { λ i. record {
      haystack = i.haystack.now;
      span = i.span;
      anchored = i.anchored;
      earliest = i.earliest;
    } };

    ghost invariant = { λ i. IsSpanOf i.haystack.now i.span };
}

impl<'h> Input<'h> {
    /// The whole haystack. A match may start anywhere, and the kind decides which one is returned.
    pub fn new(haystack: &'h [u8]) -> Input<'h>
        ensures { result ≡ whole_of haystack.now }
    {
        Input {
            haystack,
            span: Span {
                start: 0,
                end: haystack.len(),
            },
            anchored: Anchored::No,
            earliest: false,
        }
    }

    /// The same, of this span of the haystack.
    pub fn span(self, span: Span) -> Input<'h>
        requires { IsSpanOf self.haystack span }
        ensures { result ≡ record self.entry { span = span } }
    {
        let mut input = self;
        input.set_span(span);
        input
    }

    /// The same, of this range of the haystack.
    pub fn range(self, range: Range<usize>) -> Input<'h>
        requires { IsSpanOf self.haystack (record { start = range.start; end = range.end }) }
        ensures { result
            ≡ record self.entry { span = record { start = range.start; end = range.end } } }
    {
        let mut input = self;
        input.set_range(range);
        input
    }

    /// The same, anchored or not.
    pub fn anchored(self, anchored: Anchored) -> Input<'h>
        ensures { result ≡ record self.entry { anchored = anchored } }
    {
        let mut input = self;
        input.set_anchored(anchored);
        input
    }

    /// The same, an earliest search or not.
    pub fn earliest(self, earliest: bool) -> Input<'h>
        ensures { result ≡ record self.entry { earliest = earliest } }
    {
        let mut input = self;
        input.set_earliest(earliest);
        input
    }

    /// Sets the span to search.
    pub fn set_span(&mut self, span: Span)
        requires { IsSpanOf self.old.haystack span }
        ensures { self.new ≡ record self.old { span = span } }
    {
        self.span = span;
    }

    /// Sets the range to search.
    pub fn set_range(&mut self, range: Range<usize>)
        requires { IsSpanOf self.old.haystack (record { start = range.start; end = range.end }) }
        ensures { self.new
            ≡ record self.old { span = record { start = range.start; end = range.end } } }
    {
        self.span = Span::from(range);
    }

    /// Sets where the search starts, at most one past the span's end.
    pub fn set_start(&mut self, start: usize)
        requires { start ≤ self.old.span.end + 1 }
        ensures { self.new ≡ record self.old { span = record self.old.span { start = start } } }
    {
        self.span.start = start;
    }

    /// Sets where the search ends. It lies within the haystack, and at most one before the span's start.
    pub fn set_end(&mut self, end: usize)
        requires { IsSpanOf self.old.haystack (record self.old.span { end = end }) }
        ensures { self.new ≡ record self.old { span = record self.old.span { end = end } } }
    {
        self.span.end = end;
    }

    /// Sets whether a match has to start where the span starts.
    pub fn set_anchored(&mut self, anchored: Anchored)
        ensures { self.new ≡ record self.old { anchored = anchored } }
    {
        self.anchored = anchored;
    }

    /// Sets whether the search may end at the first end that it finds, as a standard one does.
    pub fn set_earliest(&mut self, earliest: bool)
        ensures { self.new ≡ record self.old { earliest = earliest } }
    {
        self.earliest = earliest;
    }

    /// The whole haystack.
    pub fn haystack(&self) -> &'h [u8]
        ensures { result.now ≡ self.now.haystack }
    {
        self.haystack
    }

    /// Where the search starts.
    pub fn start(&self) -> usize
        ensures { result ≡ self.now.span.start }
    {
        self.span.start
    }

    /// Where the search ends.
    pub fn end(&self) -> usize
        ensures value { result ≡ self.now.span.end }
        ensures within { result ≤ length self.now.haystack }
        ensures fits { result < 2 ^ 63 }
    {
        self.span.end
    }

    /// The span that is searched.
    pub fn get_span(&self) -> Span
        ensures value { result ≡ self.now.span }
        ensures within { IsSpanOf self.now.haystack result }
    {
        self.span
    }

    /// The same as a range.
    pub fn get_range(&self) -> Range<usize>
        ensures { result ≡ record { start = self.now.span.start; end = self.now.span.end } }
    {
        self.span.range()
    }

    /// Whether a match has to start where the span starts.
    pub fn get_anchored(&self) -> Anchored
        ensures { result ≡ self.now.anchored }
    {
        self.anchored
    }

    /// Whether the search may end at the first end that it finds.
    pub fn get_earliest(&self) -> bool
        ensures { result ≡ self.now.earliest }
    {
        self.earliest
    }

    /// Whether the search is over: then nothing is found, not even an empty pattern.
    pub fn is_done(&self) -> bool
        ensures { IsTrue result ↔ (self.now.span.end < self.now.span.start) }
    {
        self.span.start > self.span.end
    }
}

impl<'h> From<&'h [u8]> for Input<'h> {
    ghost from_gives = { λ haystack input. input ≡ whole_of haystack.now };

    fn from(haystack: &'h [u8]) -> Input<'h> {
        Input::new(haystack)
    }
}

impl<'h> From<&'h str> for Input<'h> {
    ghost from_gives = { λ haystack input. input ≡ whole_of haystack.now };

    fn from(haystack: &'h str) -> Input<'h> {
        Input::new(haystack.as_bytes())
    }
}
