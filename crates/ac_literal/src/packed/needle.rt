//! The search for one pattern alone.
//!
//! With one pattern there is nothing to choose at a place: its first occurrence is the match of either kind. So `memchr`'s search
//! for a needle does the work: it compares two rare bytes of the needle at many places at once. It keeps a copy of the pattern.
ghost use Rattle.std.specs.Prelude.{◌≡◌, ◌<◌, ◌≤◌, [], ◌∷◌, length, IfOk};
ghost use Rattle.ac_input.specs.Best.{IsBest};
ghost use Rattle.ac_literal.specs.declared.packed.api.MatchKind.{MatchKind as Kind};
ghost use Rattle.ac_literal.specs.Packed.{search_kind, in_span};
ghost use Rattle.ac_literal.specs.Packed.Scanner.{IsOnlyPattern};

use crate::packed::pattern::Patterns;
use ac_input::primitives::PatternID;
use ac_input::search::{Match, Span};
use memchr::memmem;
use std::alloc::{AllocError, Global};

/// The only pattern as a needle, where there is just one.
pub fn only_needle(
    alloc: Global,
    patterns: &Patterns,
) -> Result<Option<memmem::Finder<'static>>, AllocError>
    ensures { IfOk result (IsOnlyPattern patterns.now) }
{
    if patterns.len() != 1 {
        return Ok(None);
    }
    let pattern = patterns.get(PatternID::must(0));
    Ok(Some(memmem::Finder::new(pattern).into_owned(alloc)?))
}

/// The same needle in memory from `alloc`.
pub fn clone_needle(
    needle: &Option<memmem::Finder<'static>>,
    alloc: Global,
) -> Result<Option<memmem::Finder<'static>>, AllocError>
    ensures { IfOk result (λ copy. copy ≡ needle.now) }
{
    match needle {
        Some(needle) => Ok(Some(memmem::Finder::new(needle.needle()).into_owned(alloc)?)),
        None => Ok(None),
    }
}

/// The first occurrence of the needle in the span.
pub fn find_needle(needle: &memmem::Finder<'static>, haystack: &[u8], span: Span) -> Option<Match>
    requires full { 0 < length needle.now }
    requires ordered { span.start ≤ span.end }
    requires within { span.end ≤ length haystack.now }
    ensures { (kind : Kind)
        → IsBest (search_kind kind) (in_span (needle.now ∷ []) haystack.now span) result }
{
    let Some(offset) = needle.find(span.of(haystack)) else {
        return None;
    };
    let start = span.start + offset;
    let end = start + needle.needle().len();
    Some(Match::new(PatternID::must(0), Span { start, end }))
}
