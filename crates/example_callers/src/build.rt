//! Building an automaton, and asking it what it is.
ghost use Rattle.std.specs.Prelude.{◌≡◌, ◌≢◌, ◌↔◌, ◌<◌, Some, None, false, true, IfOk, IfSome, IsTrue};
ghost use Rattle.ac_input.specs.Pairing.{IsFolded};
ghost use Rattle.ac_literal.specs.Packed.{bytes_of};
ghost use Rattle.ac_input.specs.declared.search.MatchKind.TheVariants.{Standard, LeftmostFirst, LeftmostLongest};
ghost use Rattle.ac_input.specs.declared.search.StartKind.TheVariants.{Unanchored};
ghost use Rattle.aho_corasick.specs.AhoCorasick.{MeansSame, as_built, kind_of, pairing_of, pattern_count, patterns_of, start_kind_of, supported_by};
ghost use Rattle.aho_corasick.specs.Callers.{FindsBytes, IsMostBytes, IsPlain, OccursIn};

use ac_input::primitives::PatternID;
use ac_input::search::Anchored;
use aho_corasick::{
    AhoCorasick, AhoCorasickBuilder, AhoCorasickKind, BuildError, Input, MatchKind, Pairing,
    StartKind,
};
use std::alloc::{AllocError, Global};

/// The automaton of the patterns by the settings that a builder has at first: standard matches, byte for byte, from any place.
pub fn of_bytes(alloc: Global, patterns: &[&[u8]]) -> Result<AhoCorasick, BuildError>
    ensures finds { IfOk result
        (λ ac. FindsBytes (bytes_of patterns.now) (as_built ac).dictionary) }
    ensures starts { IfOk result (λ ac. start_kind_of ac ≡ Unanchored) }
{
    AhoCorasick::new(alloc, patterns)
}

/// One that prefers the pattern that was given first, and takes the two cases of an ASCII letter for the same.
pub fn folded(alloc: Global, patterns: &[&[u8]]) -> Result<AhoCorasick, BuildError>
    ensures patterns { IfOk result (λ ac. patterns_of ac ≡ bytes_of patterns.now) }
    ensures kind { IfOk result (λ ac. kind_of ac ≡ LeftmostFirst) }
    ensures folded { IfOk result (λ ac. IsFolded true (pairing_of ac)) }
{
    let mut builder = AhoCorasick::builder();
    builder
        .match_kind(MatchKind::LeftmostFirst)
        .ascii_case_insensitive(true);
    builder.build(alloc, patterns)
}

/// One of texts that prefers the longest of those that start first.
pub fn of_texts(alloc: Global, texts: &[&str]) -> Result<AhoCorasick, BuildError>
    ensures patterns { IfOk result (λ ac. patterns_of ac ≡ bytes_of texts.now) }
    ensures kind { IfOk result (λ ac. kind_of ac ≡ LeftmostLongest) }
{
    let mut builder = AhoCorasick::builder();
    builder.match_kind(MatchKind::LeftmostLongest);
    builder.build_from_patterns(alloc, texts)
}

/// One that takes little memory, whichever automaton serves: with no rows but those of the starts, and no prefilter. It finds the same.
pub fn thrifty(
    alloc: Global,
    patterns: &[&[u8]],
    pairing: Pairing,
    starts: StartKind,
) -> Result<AhoCorasick, BuildError>
    ensures plain { IfOk result
        (λ ac. IsPlain (bytes_of patterns.now) pairing Standard (as_built ac)) }
    ensures starts { IfOk result (λ ac. start_kind_of ac ≡ starts) }
{
    let mut builder = AhoCorasickBuilder::new();
    builder
        .pairing(pairing)
        .start_kind(starts)
        .prefilter(false)
        .dense_depth(0)
        .byte_classes(true)
        .row_memory(0);
    builder.build(alloc, patterns)
}

/// Which automaton serves where one is named: that one.
pub fn named(
    alloc: Global,
    patterns: &[&[u8]],
    kind: AhoCorasickKind,
) -> Result<AhoCorasickKind, BuildError>
    ensures { IfOk result (λ served. served ≡ kind) }
{
    let mut builder = AhoCorasickBuilder::new();
    builder.kind(Some(kind));
    Ok(builder.build(alloc, patterns)?.kind())
}

/// Which automaton serves both anchorings where none is named: no DFA, since that would be twice as large.
pub fn taken_for_both(alloc: Global, patterns: &[&[u8]]) -> Result<AhoCorasickKind, BuildError>
    ensures { IfOk result (λ served. served ≢ AhoCorasickKind.DFA) }
{
    let mut builder = AhoCorasickBuilder::new();
    builder.start_kind(StartKind::Both);
    Ok(builder.build(alloc, patterns)?.kind())
}

/// A second handle of the automaton, which both share.
pub fn copy(ac: &AhoCorasick, alloc: Global) -> Result<AhoCorasick, AllocError>
    ensures { IfOk result (MeansSame ac.now) }
{
    ac.clone(alloc)
}

/// Whether the automaton has a start for searches of this anchoring.
pub fn serves(ac: &AhoCorasick, anchored: Anchored) -> bool
    ensures { IsTrue result ↔ supported_by ac.now anchored }
{
    match ac.start_kind() {
        StartKind::Both => true,
        StartKind::Unanchored => !anchored.is_anchored(),
        StartKind::Anchored => anchored.is_anchored(),
    }
}

/// Whether the automaton is of the kind that can show all occurrences.
pub fn can_list(ac: &AhoCorasick) -> bool
    ensures { IsTrue result ↔ (kind_of ac.now ≡ Standard) }
{
    matches!(ac.match_kind(), MatchKind::Standard)
}

/// Whether the text is long enough for a match: no pattern occurs in a text that is shorter than the shortest one.
pub fn may_match(ac: &AhoCorasick, text: &[u8]) -> bool
    ensures { OccursIn (as_built ac.now).dictionary text.now → IsTrue result }
{
    text.len() >= ac.min_pattern_len()
}

/// How many bytes an occurrence has at most.
pub fn most_bytes(ac: &AhoCorasick) -> usize
    ensures { IsMostBytes (as_built ac.now).dictionary result }
{
    ac.max_pattern_len()
}

/// The pattern of this number, if there is one.
pub fn numbered(ac: &AhoCorasick, number: usize) -> Option<PatternID>
    ensures { IfSome result (λ p. p < pattern_count ac.now) }
{
    if number < ac.patterns_len() {
        PatternID::new(number).ok()
    } else {
        None
    }
}

/// Which of three words stands first in the text. The automaton is made here, so that `find` needs no condition.
pub fn which_word(alloc: Global, text: &str) -> Result<Option<usize>, BuildError> {
    let ac = AhoCorasick::new(alloc, &[b"foo", b"bar", b"baz"])?;
    let found = ac.find(Input::from(text));
    Ok(found.map(|found| found.pattern().as_usize()))
}

/// One of words in any ASCII case that prefers the longest of those that start first.
pub fn forgiving(alloc: Global, words: &[&str]) -> Result<AhoCorasick, BuildError> {
    let mut builder = AhoCorasick::builder();
    builder
        .match_kind(MatchKind::LeftmostLongest)
        .ascii_case_insensitive(true);
    builder.build_from_patterns(alloc, words)
}

/// One that takes little memory, and serves both anchorings.
pub fn small(
    alloc: Global,
    patterns: &[&[u8]],
    pairing: Pairing,
) -> Result<AhoCorasick, BuildError> {
    let mut builder = AhoCorasickBuilder::new();
    builder
        .pairing(pairing)
        .start_kind(StartKind::Both)
        .kind(Some(AhoCorasickKind::ContiguousNFA))
        .prefilter(false)
        .dense_depth(0)
        .byte_classes(true);
    builder.build(alloc, patterns)
}

/// What automaton serves, and of what it was made.
#[derive(Clone, Copy, Debug)]
pub struct Summary {
    pub kind: AhoCorasickKind,
    pub match_kind: MatchKind,
    pub start_kind: StartKind,
    pub patterns: usize,
    pub shortest: usize,
    pub longest: usize,
    pub memory: usize,
}

/// What the automaton says of itself.
pub fn summary_of(ac: &AhoCorasick) -> Summary {
    Summary {
        kind: ac.kind(),
        match_kind: ac.match_kind(),
        start_kind: ac.start_kind(),
        patterns: ac.patterns_len(),
        shortest: ac.min_pattern_len(),
        longest: ac.max_pattern_len(),
        memory: ac.memory_usage(),
    }
}
