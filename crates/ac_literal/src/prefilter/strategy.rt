//! The ways of finding candidates.
//!
//! Two of them search for whole patterns, and return the match. The other two scan for single bytes by `memchr`, and return a
//! place where a match may begin. Each is right for patterns of its own sort; the builder makes sure of that.
ghost use Rattle.std.specs.Prelude.{◌≡◌, ◌≤◌, length, IfOk};
ghost use Rattle.ac_input.specs.Dictionary.{Dictionary};
ghost use Rattle.ac_literal.specs.Prefilter.Strategies.{IsMemmem, IsPacked, IsAnswer, ScansStarts, ScansRare};

use crate::packed::Searcher;
use crate::prefilter::needles::Needles;
use ac_input::primitives::PatternID;
use ac_input::search::{Candidate, Match, Span};
use ac_input::steps::Steps;
use memchr::memmem;
use std::alloc::{AllocError, Global};

/// How candidates are found.
#[derive(Drop)]
pub enum Strategy {
    /// By a search for the one pattern.
    Memmem(memmem::Finder<'static>),
    /// By packed search.
    Packed(Searcher),
    /// By a scan for the bytes that patterns begin with.
    StartBytes(Needles),
    /// By a scan for bytes that hardly occur.
    RareBytes(RareBytes),
}

/// Bytes of which each pattern holds one, and for every byte how far after the beginning of a pattern it stands at most.
#[derive(Clone, Copy)]
pub struct RareBytes {
    pub needles: Needles,
    pub distances: [u8; 256],
}

impl Strategy {
    /// A copy, in memory from `alloc`.
    pub fn clone(&self, alloc: Global) -> Result<Strategy, AllocError>
        ensures { IfOk result (λ copy. copy ≡ self.now) }
    {
        Ok(match self {
            Strategy::Memmem(needle) => {
                Strategy::Memmem(memmem::Finder::new(needle.needle()).into_owned(alloc)?)
            }
            Strategy::Packed(searcher) => Strategy::Packed(searcher.clone(alloc)?),
            Strategy::StartBytes(needles) => Strategy::StartBytes(*needles),
            Strategy::RareBytes(rare) => Strategy::RareBytes(*rare),
        })
    }

    /// How many bytes of memory it takes, besides itself.
    pub fn memory_usage(&self) -> usize {
        match self {
            Strategy::Memmem(needle) => needle.needle().len(),
            Strategy::Packed(searcher) => searcher.memory_usage(),
            Strategy::StartBytes(_) | Strategy::RareBytes(_) => 0,
        }
    }
}

/// The first occurrence of the one pattern: the best of every kind.
pub fn find_memmem(needle: &memmem::Finder<'static>, haystack: &[u8], span: Span) -> Candidate
    requires ordered { span.start ≤ span.end }
    requires within { span.end ≤ length haystack.now }
    ensures { (m : Dictionary) → IsMemmem m needle.now → IsAnswer m haystack.now span result }
{
    let Some(offset) = needle.find(span.of(haystack)) else {
        return Candidate::None;
    };
    let start = span.start + offset;
    let end = start + needle.needle().len();
    Candidate::Match(Match::new(PatternID::must(0), Span { start, end }))
}

/// The leftmost match of several patterns.
pub fn find_packed(searcher: &Searcher, haystack: &[u8], span: Span) -> Candidate
    requires ordered { span.start ≤ span.end }
    requires within { span.end ≤ length haystack.now }
    ensures { (m : Dictionary) → IsPacked m searcher.now → IsAnswer m haystack.now span result }
{
    match searcher.find_in(haystack, span) {
        Some(found) => Candidate::Match(found),
        None => Candidate::None,
    }
}

/// The first place of a byte that patterns begin with.
pub fn find_start(needles: &Needles, haystack: &[u8], span: Span, steps: &mut Steps) -> Candidate
    requires ordered { span.start ≤ span.end }
    requires within { span.end ≤ length haystack.now }
    ensures { ScansStarts needles.now haystack.now span steps.old steps.new result }
{
    match needles.scan(haystack, span, steps) {
        Some(at) => Candidate::PossibleStartOfMatch(at),
        None => Candidate::None,
    }
}

impl RareBytes {
    /// The first place of a rare byte, stepped back by that byte's distance, but not out of the span.
    pub fn find_start(&self, haystack: &[u8], span: Span, steps: &mut Steps) -> Candidate
        requires ordered { span.start ≤ span.end }
        requires within { span.end ≤ length haystack.now }
        ensures { ScansRare self.now haystack.now span steps.old steps.new result }
    {
        let Some(at) = self.needles.scan(haystack, span, steps) else {
            return Candidate::None;
        };
        let distance = self.distances[haystack[at] as usize] as usize;
        Candidate::PossibleStartOfMatch(span.start.max(at.saturating_sub(distance)))
    }
}
