//! Builds that run out of memory. `rt try --test --fail-alloc N -- in_memory_that_may_end` fails the Nth allocation: the call
//! returns an error and makes nothing. If no allocation fails, the result is complete.
use crate::asserts::equal;
use crate::owned::Owned;
use crate::packed::searcher;
use crate::prefilters::made;
use ac_input::pairing::Pairing;
use ac_input::search::StartKind::{self, Both};
use ac_input::search::{Anchored, Input, MatchKind, Span};
use ac_literal::packed::{self, Builder, Searcher};
use ac_literal::prefilter::{Prefilter, PrefilterBuilder};
use ac_noncontiguous::{Automaton, BuildError, BuildErrorKind, NFA, Search};
use ac_tables::{contiguous, dfa};
use std::alloc::{AllocError, Global};
use std::process::Abort;
use std::test::Fail;
use test_rows::drawn::KINDS;
use test_rows::engines::{Asked, Case, FEW, Letters, Pick, Trial, each, pick};

const PATTERNS: &[&[u8]] = &[b"b", b"abc", b"abcd"];

/// Asserts what the automaton of the patterns finds, which has these starts.
fn is_whole<T: Abort, A: Search>(rt: &T, automaton: &A, starts: StartKind) {
    let (anchored, want) = match starts {
        StartKind::Both | StartKind::Unanchored => (Anchored::No, (0, 1, 2)),
        StartKind::Anchored => (Anchored::Yes, (1, 0, 3)),
    };
    let found = automaton.try_find(&Input::new(b"abcd").anchored(anchored));
    equal(rt, &pick(found.ok().flatten()), &Some(want), "it is whole");
}

/// Asserts that the automaton is whole, and a copy of it if there is one.
fn is_whole_in_copies<T: Abort, A: Owned>(rt: &T, alloc: Global, automaton: &A, starts: StartKind) {
    is_whole(rt, automaton, starts);
    if let Ok(copy) = &automaton.copy(alloc) {
        is_whole(rt, copy, starts);
    }
}

/// The same of what was built, or that there was no memory for it.
fn may_be_whole<T: Abort, A: Owned>(
    rt: &T,
    alloc: Global,
    built: Result<A, BuildError>,
    starts: StartKind,
) {
    match &built {
        Ok(automaton) => is_whole_in_copies(rt, alloc, automaton, starts),
        Err(error) => equal(rt, error.kind(), &BuildErrorKind::Memory, "no memory"),
    }
}

/// Asserts that the tables of the automaton are whole: with classes of bytes and without, and a DFA with each of the starts.
fn tables_are_whole<T: Abort>(rt: &T, alloc: Global, nfa: &NFA, classes: bool) {
    let mut builder = contiguous::builder::Builder::new();
    builder.byte_classes(classes);
    let built = builder.build_from_noncontiguous(alloc, nfa);
    may_be_whole(rt, alloc, built, Both);
    let mut builder = dfa::builder::Builder::new();
    builder.byte_classes(classes);
    for starts in [Both, StartKind::Unanchored, StartKind::Anchored] {
        builder.start_kind(starts);
        let built = builder.build_from_noncontiguous(alloc, nfa);
        may_be_whole(rt, alloc, built, starts);
    }
}

#[test]
fn in_memory_that_may_end_tables(rt: HostRuntime) {
    match &NFA::new(rt.alloc(), PATTERNS) {
        Ok(nfa) => {
            is_whole_in_copies(&rt, rt.alloc(), nfa, Both);
            tables_are_whole(&rt, rt.alloc(), nfa, true);
            tables_are_whole(&rt, rt.alloc(), nfa, false);
        }
        Err(error) => equal(&rt, error.kind(), &BuildErrorKind::Memory, "no memory"),
    }
}

/// Automata for the patterns in both cases, of each kind, in memory that may end.
#[derive(Drop)]
struct Built(MatchKind);

impl<T: Abort> Case<T> for Built {
    fn asked(&self) -> Asked<'_> {
        Asked::of(PATTERNS, self.0, Letters::Folded)
    }

    fn in_little_memory(&self) -> bool {
        true
    }

    fn check<A: Search>(&self, on: &Trial<'_, T, A>) -> Result<(), Fail> {
        let rt = on.rt;
        let want = match self.0 {
            MatchKind::Standard => (0, 2, 3),
            MatchKind::LeftmostFirst => (1, 1, 4),
            MatchKind::LeftmostLongest => (2, 1, 5),
        };
        let found = on.automaton.try_find(&Input::new(b"xABCD"))?;
        equal(rt, &pick(found), &Some(want), "it is whole");
        Ok(())
    }
}

#[test]
fn in_memory_that_may_end_builds(rt: HostRuntime) -> Result<(), Fail> {
    for kind in KINDS {
        each(&rt, rt.alloc(), &Built(kind), FEW)?;
    }
    Ok(())
}

/// What is found of the first so many patterns, of which the one that was given first is preferred.
const OF_FIRST: [Option<Pick>; 4] = [None, Some((0, 2, 3)), Some((1, 1, 4)), Some((1, 1, 4))];

/// Asserts what the searcher of a builder's patterns finds, or that there is no memory for it.
fn builder_finds<T: Abort>(rt: &T, builder: &Builder) {
    if let Ok(built) = &builder.build() {
        let found = match built {
            Some(searcher) => pick(searcher.find(b"xabcd")),
            None => None,
        };
        let want = OF_FIRST.get(builder.len()).copied();
        equal(rt, &Some(found), &want, "of so many patterns");
    }
}

/// Asserts that a builder has all patterns; or that an extension ran out of memory, and it keeps the patterns before the failed
/// one, whose searcher finds them, and may be extended further.
fn extends<T: Abort>(rt: &T, builder: &mut Builder, refused: bool) {
    if refused {
        let kept = builder.len();
        assert!(rt; kept < 3);
        builder_finds(rt, builder);
        for pattern in PATTERNS.iter().skip(kept) {
            assert!(rt; builder.try_add(*pattern).is_ok());
        }
    }
    equal(rt, &builder.len(), &3, "it has all patterns");
    builder_finds(rt, builder);
}

/// Asserts what the packed searcher of the patterns finds.
fn packed_finds<T: Abort>(rt: &T, searcher: &Searcher) {
    equal(
        rt,
        &pick(searcher.find(b"xabcd")),
        &Some((2, 1, 5)),
        "packed search",
    );
}

/// Asserts that the searcher is whole, and a copy of it if there is one.
fn packed_finds_in_copies<T: Abort>(rt: &T, alloc: Global, searcher: &Searcher) {
    packed_finds(rt, searcher);
    if let Ok(copy) = &searcher.clone(alloc) {
        packed_finds(rt, copy);
    }
}

/// Asserts where the prefilter of the patterns says that a match may begin.
fn prefilter_finds<T: Abort>(rt: &T, prefilter: &Prefilter) {
    let span = Span { start: 0, end: 5 };
    let found = prefilter.find_in(b"xxabc", span).into_option();
    equal(rt, &found, &Some(2), "the prefilter");
}

/// Asserts that the prefilter is whole, and a copy of it if there is one.
fn prefilter_finds_in_copies<T: Abort>(rt: &T, alloc: Global, prefilter: &Prefilter) {
    prefilter_finds(rt, prefilter);
    if let Ok(copy) = &prefilter.clone(alloc) {
        prefilter_finds(rt, copy);
    }
}

/// Asserts that a builder has this many patterns, and all of them if a pattern is added once more.
fn adds<T: Abort>(rt: &T, builder: &mut Builder, pattern: &[u8], kept: usize) {
    if builder.add(pattern).is_err() {
        equal(rt, &builder.len(), &kept, "none was added");
        assert!(rt; builder.try_add(pattern).is_ok());
    }
    equal(rt, &builder.len(), &kept.saturating_add(1), "one was added");
}

/// Asserts that a builder has all patterns.
fn holds_all<T: Abort>(rt: &T, builder: &Builder) {
    let held = (builder.len(), builder.minimum_len());
    equal(rt, &held, &(3, 1), "how many, and the shortest");
}

/// Asserts that a builder, and a copy of it, have all patterns after one call for each. Of each call only one fails.
fn adds_each<T: Abort>(rt: &T, builder: &mut Builder) {
    for (kept, pattern) in PATTERNS.iter().enumerate() {
        adds(rt, builder, *pattern, kept);
    }
    if let Ok(copy) = &builder.clone() {
        holds_all(rt, copy);
    }
    holds_all(rt, builder);
}

/// Adds the patterns, each once more if it failed.
fn adds_again<T: Abort>(rt: &T, builder: &mut PrefilterBuilder) {
    for pattern in PATTERNS {
        if builder.add(*pattern).is_err() {
            assert!(rt; builder.try_add(*pattern).is_ok());
        }
    }
}

/// What was built, which is there if memory didn't end: packed search and a prefilter serve the patterns.
fn there<'b, T: Abort, X>(rt: &T, built: &'b Result<Option<X>, AllocError>) -> Option<&'b X> {
    let built = built.as_ref().ok()?.as_ref();
    assert!(rt; built.is_some());
    built
}

/// Asserts that a prefilter's builder that failed to add a pattern, and then adds it, builds what it builds elsewhere.
fn prefilter_is_added<T: Abort>(rt: &T, alloc: Global) {
    let mut builder = PrefilterBuilder::new(alloc, MatchKind::Standard);
    adds_again(rt, &mut builder);
    if let Some(prefilter) = there(rt, &builder.build()) {
        prefilter_finds_in_copies(rt, alloc, prefilter);
    }
}

/// Asserts what prefilters find, by each way to make one.
fn prefilters_find<T: Abort>(rt: &T, alloc: Global) {
    prefilter_is_added(rt, alloc);
    if let Some(prefilter) = there(
        rt,
        &made(alloc, MatchKind::Standard, Pairing::none(), PATTERNS),
    ) {
        prefilter_finds_in_copies(rt, alloc, prefilter);
    }
}

/// Asserts what packed searchers find, by each way to make one.
fn searchers_find<T: Abort>(rt: &T, alloc: Global) {
    there(rt, &Searcher::new(alloc, PATTERNS));
    let longest = packed::MatchKind::LeftmostLongest;
    if let Some(searcher) = there(rt, &searcher(alloc, PATTERNS, longest)) {
        packed_finds_in_copies(rt, alloc, searcher);
    }
}

/// An `Err` says that memory ended: there is no other.
#[test]
fn in_memory_that_may_end_literals(rt: HostRuntime) {
    let mut builder = Builder::new(rt.alloc());
    let refused = builder.try_extend(PATTERNS).is_err();
    extends(&rt, &mut builder, refused);
    let mut builder = Builder::new(rt.alloc());
    let refused = builder.extend(PATTERNS).is_err();
    extends(&rt, &mut builder, refused);
    adds_each(&rt, &mut Builder::new(rt.alloc()));
    prefilters_find(&rt, rt.alloc());
    searchers_find(&rt, rt.alloc());
}
