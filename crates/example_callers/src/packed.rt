//! Packed search and prefilters.
ghost use Rattle.std.specs.Prelude.{◌≡◌, ◌↔◌, ◌+◌, ◌<◌, ◌≤◌, true, false, [], ◌∷◌, length, IfOk, IfSome, IsTrue, Some};
ghost use Rattle.ac_input.specs.declared.search.MatchKind.TheVariants.{LeftmostFirst, LeftmostLongest};
ghost use Rattle.ac_input.specs.Dictionary.{whole};
ghost use Rattle.ac_input.specs.Pairing.{IsFolded};
ghost use Rattle.ac_input.specs.Same.{IsUnpaired};
ghost use Rattle.ac_input.specs.Work.{shortest};
ghost use Rattle.ac_literal.specs.Packed.{AreServed, added, added_all, bytes_of, leftmost_first, matches_of, search_kind};
ghost use Rattle.example_callers.specs.Callers.{IsBestOf, IsSkip, LiesIn};

use ac_automaton::automaton::Automaton;
use ac_automaton::search::Search;
use ac_input::pairing::Pairing;
use ac_input::search::{Anchored, Input, Match, MatchKind, Span};
use ac_input::steps::Steps;
use ac_literal::packed::{self, Builder, Config, Searcher};
use ac_literal::prefilter::{Candidate, Prefilter, PrefilterBuilder};
use std::alloc::{AllocError, Global};

/// A match, if there is one, or that memory ran out.
pub type Found = Result<Option<Match>, AllocError>;

/// The leftmost-first match of the text, of patterns that packed search serves.
pub fn first_match(alloc: Global, patterns: &[&[u8]], text: &[u8]) -> Found
    requires { AreServed (bytes_of patterns.now) }
    ensures { IfOk result (IsBestOf LeftmostFirst (bytes_of patterns.now) text.now) }
{
    let searcher = Searcher::new(alloc, patterns)?.unwrap();
    Ok(searcher.find(text))
}

/// Whether packed search serves the patterns.
pub fn can_serve(alloc: Global, patterns: &[&[u8]]) -> Result<bool, AllocError>
    ensures { IfOk result (λ yes. IsTrue yes ↔ AreServed (bytes_of patterns.now)) }
{
    Ok(Searcher::new(alloc, patterns)?.is_some())
}

/// The leftmost-longest match.
pub fn longest_match(alloc: Global, patterns: &[&[u8]], text: &[u8]) -> Found
    requires { AreServed (bytes_of patterns.now) }
    ensures { IfOk result (IsBestOf LeftmostLongest (bytes_of patterns.now) text.now) }
{
    let mut config = Config::new();
    let mut builder = config
        .match_kind(packed::MatchKind::LeftmostLongest)
        .builder(alloc);
    builder.try_extend(patterns)?;
    let searcher = builder.build()?.unwrap();
    Ok(searcher.find(text))
}

/// A searcher of one pattern: there is one, unless the pattern is empty.
pub fn of_one(alloc: Global, pattern: &[u8]) -> Result<Option<Searcher>, AllocError>
    requires { 0 < length pattern.now }
    ensures { IfOk result (λ made. made ≡ Some (leftmost_first (pattern.now ∷ []))) }
{
    let mut builder = Searcher::builder(alloc);
    builder.add(pattern)?;
    builder.build()
}

/// Settings for leftmost-longest matches. The rolling hash alone finds the same.
pub fn longest_config() -> Config
    ensures { search_kind result ≡ LeftmostLongest }
{
    let mut config = Searcher::config();
    config
        .match_kind(packed::MatchKind::LeftmostLongest)
        .only_rabin_karp(true);
    config
}

/// The builder with one pattern more. The borrowed one is unchanged.
pub fn and(builder: &Builder, pattern: &[u8]) -> Result<Builder, AllocError>
    ensures { IfOk result (λ more. more ≡ added builder.now pattern.now) }
{
    let mut more = builder.clone()?;
    more.try_add(pattern)?;
    Ok(more)
}

/// The builder with these patterns more.
pub fn and_all(builder: &Builder, patterns: &[&[u8]]) -> Result<Builder, AllocError>
    ensures { IfOk result (λ more. more ≡ added_all builder.now (bytes_of patterns.now)) }
{
    let mut more = builder.clone()?;
    more.extend(patterns)?;
    Ok(more)
}

/// Whether the text is long enough for a match of one of the patterns so far.
pub fn is_long_enough(builder: &Builder, text: &[u8]) -> bool
    ensures { IsTrue result ↔ (shortest builder.now.patterns ≤ length text.now) }
{
    text.len() >= builder.minimum_len()
}

/// Whether the builder holds a pattern. One that holds none builds nothing.
pub fn holds_some(builder: &Builder) -> bool
    ensures { IsTrue result ↔ (0 < length builder.now.patterns) }
{
    builder.len() > 0
}

/// Whether the searcher prefers the longest match, as one of the leftmost-longest kind does.
pub fn prefers_longest(searcher: &Searcher) -> bool
    ensures { IsTrue result ↔ (search_kind searcher.now.kind ≡ LeftmostLongest) }
{
    matches!(searcher.match_kind(), packed::MatchKind::LeftmostLongest)
}

/// The match of a part of the text. It lies in that part.
pub fn match_in(searcher: &Searcher, text: &[u8], part: Span) -> Option<Match>
    requires order { part.start ≤ part.end }
    requires within { part.end ≤ length text.now }
    ensures { IfSome result (LiesIn part) }
{
    searcher.find_in(text, part)
}

/// All matches of the text, one after another.
pub fn all_matches(
    searcher: &Searcher,
    alloc: Global,
    text: &[u8],
) -> Result<Vec<Match>, AllocError>
    ensures { IfOk result (λ v. v.items ≡ matches_of searcher.now text.now) }
{
    searcher.find_iter(text).collect(alloc)
}

/// The match of the text by packed search, and by an automaton of the same patterns and kind that pairs no byte. It is the same.
pub fn find_by_both<A: Search>(
    searcher: &Searcher,
    automaton: &A,
    text: &[u8],
) -> (Option<Match>, Option<Match>)
    requires supports { A.supports automaton.now Anchored.No }
    requires kind { search_kind searcher.now.kind ≡ (A.built automaton.now).dictionary.kind }
    requires same { searcher.now.patterns ≡ (A.built automaton.now).dictionary.patterns }
    requires unpaired { IsUnpaired (A.built automaton.now).dictionary.pairing }
    ensures { result.0 ≡ result.1 }
{
    let found = automaton.try_find(&Input::new(text)).unwrap();
    (searcher.find(text), found)
}

/// How many bytes a search may skip: no occurrence begins before, and there is none where there is no place.
pub fn skip(prefilter: &Prefilter, text: &[u8]) -> Option<usize>
    ensures { IsSkip (whole prefilter.now.dictionary text.now false) result }
{
    let span = Span {
        start: 0,
        end: text.len(),
    };
    match prefilter.find_in(text, span) {
        Candidate::None => None,
        Candidate::Match(found) => Some(found.start()),
        Candidate::PossibleStartOfMatch(place) => Some(place),
    }
}

/// How many bytes a search may skip, by the prefilter that the automaton holds.
pub fn own_skip<A: Automaton>(automaton: &A, text: &[u8]) -> Option<usize>
    ensures { IsSkip (whole (A.built automaton.now).dictionary text.now false) result }
{
    match automaton.prefilter() {
        Some(prefilter) => skip(prefilter, text),
        None => Some(0),
    }
}

/// Asks a prefilter, which scans for a byte at no place twice.
pub fn ask_counted(prefilter: &Prefilter, text: &[u8], steps: &mut Steps) -> Candidate
    ensures { steps.new.scanned.value ≤ steps.old.scanned.value + length text.now }
{
    let span = Span {
        start: 0,
        end: text.len(),
    };
    prefilter.find_in_counted(text, span, steps)
}

/// A prefilter for searches for one pattern: there is one, unless the pattern is empty.
pub fn prefilter_of(alloc: Global, pattern: &[u8]) -> Result<Prefilter, AllocError>
    requires { 0 < length pattern.now }
    ensures { IfOk result (λ p. p.dictionary.patterns ≡ pattern.now ∷ []) }
{
    let mut builder = PrefilterBuilder::new(alloc, MatchKind::LeftmostFirst);
    builder.try_add(pattern)?;
    let made = builder.build()?;
    Ok(made.unwrap())
}

/// A prefilter for searches that take the two cases of an ASCII letter for the same, if there is one.
pub fn folded_prefilter(alloc: Global, pattern: &[u8]) -> Result<Option<Prefilter>, AllocError>
    ensures { IfOk result (λ made. IfSome made (λ p. IsFolded true p.dictionary.pairing)) }
{
    let mut builder = PrefilterBuilder::new(alloc, MatchKind::Standard);
    builder.ascii_case_insensitive(true).add(pattern)?;
    builder.build()
}

/// A prefilter for searches by this pairing, if there is one.
pub fn paired_prefilter(
    alloc: Global,
    pairing: Pairing,
    pattern: &[u8],
) -> Result<Option<Prefilter>, AllocError>
    ensures { IfOk result (λ made. IfSome made (λ p. p.dictionary.pairing ≡ pairing)) }
{
    let mut builder = PrefilterBuilder::new(alloc, MatchKind::Standard);
    builder.pairing(pairing).add(pattern)?;
    builder.build()
}

/// A searcher for both patterns, of which the first is preferred. There is one, unless one of them is empty.
pub fn of_two(alloc: Global, first: &[u8], second: &[u8]) -> Result<Option<Searcher>, AllocError>
    requires first { 0 < length first.now }
    requires second { 0 < length second.now }
    ensures { IfOk result
        (λ made. made ≡ Some (leftmost_first (first.now ∷ second.now ∷ []))) }
{
    let mut builder = Builder::new(alloc);
    builder.add(first)?.add(second)?;
    builder.build()
}

/// The searcher once more. It finds the same in every text.
pub fn copy_searcher(searcher: &Searcher, alloc: Global) -> Result<Searcher, AllocError>
    ensures { IfOk result (λ copy. copy ≡ searcher.now) }
{
    searcher.clone(alloc)
}

/// Whether the text is long enough to be searched. Each is.
pub fn is_searched(searcher: &Searcher, text: &[u8]) -> bool
    ensures { IsTrue result }
{
    searcher.minimum_len() <= text.len()
}

/// The prefilter once more. It is made for the same searches.
pub fn copy_prefilter(prefilter: &Prefilter, alloc: Global) -> Result<Prefilter, AllocError>
    ensures { IfOk result (λ copy. copy.dictionary ≡ prefilter.now.dictionary) }
{
    prefilter.clone(alloc)
}

/// Whether the text has one of the words, or `None` where packed search doesn't serve them.
pub fn has_any(alloc: Global, words: &[&[u8]], text: &[u8]) -> Result<Option<bool>, AllocError> {
    match Searcher::new(alloc, words)? {
        Some(searcher) => Ok(Some(searcher.find(text).is_some())),
        None => Ok(None),
    }
}

/// A searcher that prefers the longest of the words that start first.
pub fn longest_first(alloc: Global, words: &[&[u8]]) -> Result<Option<Searcher>, AllocError> {
    let mut config = Config::new();
    let mut builder = config
        .match_kind(packed::MatchKind::LeftmostLongest)
        .builder(alloc);
    builder.extend(words)?;
    builder.build()
}
