//! What is asked of a search, and what it gives, as a list of occurrences: by an iterator and by the plain program.
ghost use Rattle.std.specs.Iterator.{IsFinite};

use crate::engines::{Asked, Pick, pairing};
use ac_input::search::{Anchored, Input, Match, MatchKind};
use std::alloc::{AllocError, Global};
use std::test::Fail;
use test_plain::plain::{Found, Naive};

/// What is asked of a search.
#[derive(Clone, Copy)]
pub enum Asks {
    /// The matches, one after another; the first of them is the match of the text.
    Walk,
    /// All occurrences, also those that overlap.
    List,
}

/// A text, and how it is searched.
#[derive(Clone, Copy)]
pub enum Text<'a> {
    /// All of it.
    Whole(&'a [u8]),
    /// From one place to another.
    Part(&'a [u8], usize, usize),
    /// All of it, for what ends first.
    Earliest(&'a [u8]),
    /// All of it, anchored.
    Bound(&'a [u8]),
    /// From one place to another, anchored.
    BoundPart(&'a [u8], usize, usize),
    /// All of it, anchored, for what ends first.
    BoundEarliest(&'a [u8]),
}

/// The text from one place to another.
fn part(text: &[u8], start: usize, end: usize) -> Result<Input<'_>, Fail> {
    if end > text.len() || start.saturating_sub(1) > end {
        return Err("no such part".into());
    }
    Ok(Input::new(text).range(start..end))
}

/// What a search of the text is given, but for its anchoring.
fn loose<'a>(text: &Text<'a>) -> Result<Input<'a>, Fail> {
    match *text {
        Text::Part(text, start, end) | Text::BoundPart(text, start, end) => part(text, start, end),
        Text::Whole(text) | Text::Bound(text) => Ok(Input::new(text)),
        Text::Earliest(text) | Text::BoundEarliest(text) => Ok(Input::new(text).earliest(true)),
    }
}

/// Whether a search of the text is anchored.
fn anchoring(text: &Text<'_>) -> Anchored {
    match text {
        Text::Whole(_) | Text::Part(..) | Text::Earliest(_) => Anchored::No,
        Text::Bound(_) | Text::BoundPart(..) | Text::BoundEarliest(_) => Anchored::Yes,
    }
}

/// What a search of the text is given.
pub fn input<'a>(text: &Text<'a>) -> Result<Input<'a>, Fail> {
    Ok(loose(text)?.anchored(anchoring(text)))
}

/// The occurrence of a match.
fn occurrence(found: Match) -> Pick {
    (found.pattern().as_usize(), found.start(), found.end())
}

/// All that an iterator gives.
pub fn collected<I: Iterator<Item = Match> + Drop>(
    alloc: Global,
    matches: I,
) -> Result<Vec<Pick>, AllocError>
    requires can { I.can_next matches }
    requires ends { IsFinite (I.remaining matches) }
{
    matches.map(occurrence).collect(alloc)
}

/// The occurrences that the plain program found.
fn picks(alloc: Global, found: &[Found]) -> Result<Vec<Pick>, AllocError> {
    found
        .iter()
        .map(|it| (it.pattern, it.start, it.end))
        .collect(alloc)
}

/// The matches of the plain program, or all occurrences.
fn plain_picks(
    alloc: Global,
    plain: &Naive,
    kind: MatchKind,
    asks: Asks,
    earliest: bool,
) -> Result<Vec<Pick>, AllocError> {
    match asks {
        Asks::Walk => picks(alloc, &plain.walk(alloc, kind, earliest)?),
        Asks::List => picks(alloc, &plain.listing(alloc)?),
    }
}

/// The plain program for an input.
fn plain<'a>(asked: Asked<'a>, input: &Input<'a>) -> Result<Naive<'a>, Fail> {
    Ok(Naive::new(
        asked.patterns,
        pairing(asked.letters)?,
        input.haystack(),
        input.get_span(),
        input.get_anchored(),
    ))
}

/// What the plain program gives.
pub fn by_plain(
    alloc: Global,
    asked: Asked<'_>,
    asks: Asks,
    input: &Input<'_>,
) -> Result<Vec<Pick>, Fail> {
    let plain = plain(asked, input)?;
    Ok(plain_picks(alloc, &plain, asked.kind, asks, input.get_earliest())?)
}

/// The text as the plain program masks it, all occurrences or whole words alone.
pub fn masked_by_plain(
    alloc: Global,
    asked: Asked<'_>,
    text: &[u8],
    mask: u8,
    words: bool,
) -> Result<Vec<u8>, Fail> {
    let plain = plain(asked, &Input::new(text))?.whole_words(words);
    Ok(plain.masked(alloc, mask)?)
}

/// The whole words of the text by the plain program: the matches of the kind, or all of them.
pub fn words_by_plain(
    alloc: Global,
    asked: Asked<'_>,
    asks: Asks,
    text: &[u8],
) -> Result<Vec<Pick>, Fail> {
    let plain = plain(asked, &Input::new(text))?.whole_words(true);
    Ok(plain_picks(alloc, &plain, asked.kind, asks, false)?)
}
