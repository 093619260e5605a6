//! Where a search may begin.
//!
//! An automaton looks at each byte of a haystack, one after another. Most of them stand where nothing can match, and a
//! [`Prefilter`] skips those: for a span it returns a [`Candidate`], and no match that is whole in the span begins before it. The
//! search goes on from there, and uses the prefilter again when it has come back to its start state.
//!
//! There are four ways to skip:
//!
//! - *One pattern*, where no byte is paired: a search for it. Its result is the match itself.
//! - *Packed search*, for up to 128 patterns of a leftmost kind, where no byte is paired. Its result is the match itself, too.
//! - *Start bytes*: a scan for the bytes that patterns begin with, if there are one to three, all of them ASCII.
//! - *Rare bytes*: a scan for one to three bytes of which each pattern holds one. Where one is found, a match may have begun
//!   some bytes before; how many at most is kept for each byte, so that the scan can be stepped back by that.
//!
//! A [`PrefilterBuilder`] chooses among those that serve its patterns by speed alone:
//!
//! 1. The search for one pattern.
//! 2. Start bytes or rare bytes, whichever are estimated to be rarer, if the scan for them is estimated to stop rarely: with packed
//!    search at most once in a thousand bytes (`STOPS_BESIDE_PACKED`), and where packed search doesn't serve, under standard,
//!    with a byte paired or for too many patterns, at most 50 times (`STOPS_ALONE`).
//! 3. Packed search.
//! 4. That scan, however often it stops, if one to three ASCII bytes begin all patterns. Otherwise there is no prefilter.
//!
//! There are two limits since a scan gains more over an automaton alone than over packed search. A scan costs hardly more than
//! reading the text, until it stops; then the automaton runs, some bytes before a rare one, and the scan starts anew. Packed
//! search returns exact matches, costs nearly the same whatever the text is, and passes a thousand bytes in the time of about one
//! stop; an automaton takes as long as a hundred stops for them. How often a scan stops is estimated, from its bytes and their
//! partners (`rank`), so the second limit is half of that.
//!
//! A scan looks at many bytes at a time, and at each once; stepping back makes the automaton look at up to 254 bytes that were
//! scanned before. A search for patterns costs what packed search costs. A prefilter takes the memory of a table of 256 bytes and
//! of the patterns that it searches for; no search takes any.
mod builder;
pub(crate) mod needles;
pub(crate) mod rank;
mod rare_bytes;
mod strategy;

ghost use Rattle.std.specs.Prelude.{◌≡◌, ◌≤◌, length, IfOk};
ghost use Rattle.ac_input.specs.Candidate.{Filter};
ghost use Rattle.ac_literal.specs.Prefilter.{IsCandidateIn, IsNoneWithoutByte, IsCountedIn};

use crate::prefilter::strategy::{Strategy, find_memmem, find_packed, find_start};
use ac_input::history::Pieces;
use ac_input::pairing::Pairing;
pub use ac_input::search::Candidate;
use ac_input::search::{MatchKind, Span};
use ac_input::steps::Steps;
pub use builder::PrefilterBuilder;
use std::alloc::{AllocError, Global};
use std::marker::Model;

/// Finds places before which nothing matches.
///
/// ```text
/// let mut builder = PrefilterBuilder::new(alloc, MatchKind::Standard);
/// builder.add(b"foo")?;
/// builder.add(b"bar")?;
/// if let Some(prefilter) = builder.build()? {
///     let candidate = prefilter.find_in(haystack, Span { start: 0, end: haystack.len() });
/// }
/// ```
#[derive(Drop)]
pub struct Prefilter {
    kind: MatchKind,
    pairing: Pairing,
    patterns: Pieces,
    strategy: Strategy,
    /// Whether patterns of one byte are estimated to occur every few bytes.
    close: bool,
}

impl Model for Prefilter {
    ghost use Rattle.ac_input.specs.Candidate.{Filter};
    ghost use Rattle.ac_literal.specs.Prefilter.{IsStrategyOf, needles_of};

    ghost Value = { Filter };

    ghost view = { λ p.
        record {
          dictionary = record { patterns = p.patterns.items; pairing = p.pairing; kind = p.kind };
          needles = needles_of p.strategy;
        } };

    ghost invariant = { λ p.
        IsStrategyOf
        (record { patterns = p.patterns.items; pairing = p.pairing; kind = p.kind })
        p.strategy };
}

impl Prefilter {
    /// Where the first match of the span may begin; the match itself, where a search for patterns found it.
    ///
    /// It looks at nothing outside the span, and takes no memory.
    pub fn find_in(&self, haystack: &[u8], span: Span) -> Candidate
        requires ordered { span.start ≤ span.end }
        requires within { span.end ≤ length haystack.now }
        ensures candidate { IsCandidateIn self.now haystack.now span result }
        ensures none { IsNoneWithoutByte self.now haystack.now span result }
    {
        self.find_in_counted(haystack, span, &mut Steps::new())
    }

    /// The same, and counts the places that a scan for bytes covered.
    ///
    /// A search for one pattern and packed search are no scans for bytes, so they count nothing.
    pub fn find_in_counted(&self, haystack: &[u8], span: Span, steps: &mut Steps) -> Candidate
        requires ordered { span.start ≤ span.end }
        requires within { span.end ≤ length haystack.now }
        ensures candidate { IsCandidateIn self.now haystack.now span result }
        ensures none { IsNoneWithoutByte self.now haystack.now span result }
        ensures counted { IsCountedIn self.now haystack.now span result steps.old steps.new }
    {
        match &self.strategy {
            Strategy::Memmem(needle) => find_memmem(needle, haystack, span),
            Strategy::Packed(searcher) => find_packed(searcher, haystack, span),
            Strategy::StartBytes(needles) => find_start(needles, haystack, span, steps),
            Strategy::RareBytes(rare) => rare.find_start(haystack, span, steps),
        }
    }

    /// Whether it finds many places in vain with many patterns: packed search that doesn't go by grams.
    pub fn is_dense(&self) -> bool {
        match &self.strategy {
            Strategy::Packed(searcher) => !searcher.is_sparse(),
            _ => false,
        }
    }

    /// Whether a search does better without it, since matches are a few bytes apart: some patterns have one byte, and these bytes are
    /// common.
    pub fn finds_close(&self) -> bool {
        self.close
    }

    /// How many bytes of memory it takes, besides itself.
    pub fn memory_usage(&self) -> usize {
        self.strategy.memory_usage()
    }

    /// A copy of the prefilter, in memory from `alloc`.
    pub fn clone(&self, alloc: Global) -> Result<Prefilter, AllocError>
        ensures { IfOk result (λ copy. copy ≡ self.now) }
    {
        Ok(Prefilter {
            kind: self.kind,
            pairing: self.pairing,
            patterns: self.patterns.same(),
            strategy: self.strategy.clone(alloc)?,
            close: self.close,
        })
    }
}
