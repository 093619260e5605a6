//! Searches that return an error, in which order the reasons count, and that nothing else is an error.
use crate::asserts::same;
use ac_input::search::{Anchored, Input, MatchKind, StartKind};
use ac_noncontiguous::{MatchError, MatchErrorKind, OverlappingState, ReplaceError, Search};
use aho_corasick::AhoCorasick;
use std::alloc::Global;
use std::process::Abort;
use std::test::Fail;
use test_rows::engines::{Asked, Case, Letters, Trial, all};
use test_rows::fronts::{OwnCase, each_own};

/// Why the calls of a search return an error, if they do: those that find and walk, the overlapping one, and its iterator.
type Refusals = [Option<MatchErrorKind>; 4];

/// The one pattern.
const PATTERNS: &[&[u8]] = &[b"a"];

/// A search of a text by an automaton with these starts, and its error.
struct Row {
    shows: &'static str,
    kind: MatchKind,
    starts: StartKind,
    anchored: Anchored,
    refused: Refusals,
}

/// The error.
fn reason(error: MatchError) -> MatchErrorKind {
    *error.kind()
}

/// The error of a search by each call.
fn refusals_of<A: Search>(automaton: &A, input: &Input<'_>) -> Result<Refusals, Fail> {
    let mut state = OverlappingState::start();
    let overlap = automaton.try_find_overlapping(input, &mut state).err();
    Ok([
        automaton.try_find(input).err().map(reason),
        automaton.try_find_iter(input.clone()?).err().map(reason),
        overlap.map(reason),
        automaton
            .try_find_overlapping_iter(input.clone()?)
            .err()
            .map(reason),
    ])
}

/// The error of a search by the front's own calls.
fn own_refusals_of(ac: &AhoCorasick, input: &Input<'_>) -> Result<Refusals, Fail> {
    let mut state = OverlappingState::start();
    let overlap = ac.try_find_overlapping(input.clone()?, &mut state).err();
    Ok([
        ac.try_find(input.clone()?).err().map(reason),
        ac.try_find_iter(input.clone()?).err().map(reason),
        overlap.map(reason),
        ac.try_find_overlapping_iter(input.clone()?)
            .err()
            .map(reason),
    ])
}

/// The search error of a replacement, if the error isn't for memory.
fn not_memory(error: ReplaceError) -> Option<MatchErrorKind> {
    match error {
        ReplaceError::Match(error) => Some(reason(error)),
        ReplaceError::Memory => None,
    }
}

/// The error of each replacement by the front's own calls, other than for memory.
fn own_replacing(ac: &AhoCorasick, alloc: Global) -> Result<[Option<MatchErrorKind>; 4], Fail> {
    if ac.patterns_len() != 1 {
        return Err("a replacement for each pattern".into());
    }
    let mut text = String::new(alloc);
    let texts = ac.try_replace_all_with(alloc, "a", &mut text, |_, _, _| Ok(true));
    let mut bytes = Vec::new(alloc);
    let all = ac.try_replace_all_with_bytes(alloc, b"a", &mut bytes, |_, _, _| Ok(true));
    Ok([
        ac.try_replace_all(alloc, "a", &["b"])
            .err()
            .and_then(not_memory),
        ac.try_replace_all_bytes(alloc, b"a", &[b"b"])
            .err()
            .and_then(not_memory),
        texts.err().and_then(not_memory),
        all.err().and_then(not_memory),
    ])
}

/// The error of a replacement, which is never anchored, by an automaton with these starts.
fn unstarted(starts: StartKind) -> Option<MatchErrorKind> {
    match starts {
        StartKind::Anchored => Some(MatchErrorKind::InvalidInputUnanchored),
        _ => None,
    }
}

/// The error of a replacement, other than for memory.
fn replacing<A: Search>(automaton: &A, alloc: Global) -> Option<MatchErrorKind> {
    let mut dst = Vec::new(alloc);
    match automaton.try_replace_all_with_bytes(alloc, b"a", &mut dst, |_, _, _| Ok(true)) {
        Err(ReplaceError::Match(error)) => Some(reason(error)),
        _ => None,
    }
}

/// Asserts the error of a search, also of one that would be over at once. A replacement, which is never anchored, fails exactly if
/// there is no start for it.
fn is_refused<T: Abort, A: Search>(
    rt: &T,
    alloc: Global,
    automaton: &A,
    row: &Row,
) -> Result<(), Fail> {
    assert!(rt; replacing(automaton, alloc) == unstarted(row.starts));
    let input = Input::new(b"a").anchored(row.anchored);
    let found = refusals_of(automaton, &input)?;
    let over = refusals_of(automaton, &input.range(1..0))?;
    same(rt, &[found, over], &[row.refused; 2], row.shows);
    Ok(())
}

impl<T: Abort> Case<T> for Row {
    fn asked(&self) -> Asked<'_> {
        Asked::of(PATTERNS, self.kind, Letters::Cased)
    }

    fn check<A: Search>(&self, on: &Trial<'_, T, A>) -> Result<(), Fail> {
        if on.starts != self.starts {
            return Ok(());
        }
        is_refused(on.rt, on.alloc, on.automaton, self)
    }
}

impl<T: Abort> OwnCase<T> for Row {
    fn built_of(&self) -> Asked<'_> {
        Case::<T>::asked(self)
    }

    fn check_own(&self, rt: &T, alloc: Global, ac: &AhoCorasick) -> Result<(), Fail> {
        let replacing = own_replacing(ac, alloc)?;
        same(rt, &replacing, &[unstarted(self.starts); 4], self.shows);
        let input = Input::new(b"a").anchored(self.anchored);
        let found = own_refusals_of(ac, &input)?;
        let over = own_refusals_of(ac, &input.range(1..0))?;
        same(rt, &[found, over], &[self.refused; 2], self.shows);
        Ok(())
    }
}

const NONE: Refusals = [None; 4];

const NO_START: Refusals = [Some(MatchErrorKind::InvalidInputUnanchored); 4];

const NO_ANCHORED_START: Refusals = [Some(MatchErrorKind::InvalidInputAnchored); 4];

const ANCHORED_LIST: Refusals = [None, None, None, Some(MatchErrorKind::InvalidInputAnchored)];

/// Why there are no overlapping occurrences for the first pattern at a place.
const NO_FIRST_OVERLAP: Option<MatchErrorKind> = Some(MatchErrorKind::UnsupportedOverlapping {
    got: MatchKind::LeftmostFirst,
});

const FIRST: Refusals = [None, None, NO_FIRST_OVERLAP, NO_FIRST_OVERLAP];

/// The same for the longest pattern at a place.
const NO_LONGEST_OVERLAP: Option<MatchErrorKind> = Some(MatchErrorKind::UnsupportedOverlapping {
    got: MatchKind::LeftmostLongest,
});

const LONGEST: Refusals = [None, None, NO_LONGEST_OVERLAP, NO_LONGEST_OVERLAP];

const ROWS: &[Row] = &[
    Row {
        shows: "nothing is refused for the standard kind",
        kind: MatchKind::Standard,
        starts: StartKind::Both,
        anchored: Anchored::No,
        refused: NONE,
    },
    Row {
        shows: "the overlapping iterator takes no anchored input",
        kind: MatchKind::Standard,
        starts: StartKind::Both,
        anchored: Anchored::Yes,
        refused: ANCHORED_LIST,
    },
    Row {
        shows: "nor does it where the anchored start is there alone",
        kind: MatchKind::Standard,
        starts: StartKind::Anchored,
        anchored: Anchored::Yes,
        refused: ANCHORED_LIST,
    },
    Row {
        shows: "there is no start for a search that isn't anchored",
        kind: MatchKind::Standard,
        starts: StartKind::Anchored,
        anchored: Anchored::No,
        refused: NO_START,
    },
    Row {
        shows: "there is no start for an anchored search",
        kind: MatchKind::Standard,
        starts: StartKind::Unanchored,
        anchored: Anchored::Yes,
        refused: NO_ANCHORED_START,
    },
    Row {
        shows: "the start counts before the kind",
        kind: MatchKind::LeftmostFirst,
        starts: StartKind::Anchored,
        anchored: Anchored::No,
        refused: NO_START,
    },
    Row {
        shows: "the anchored start counts before the kind",
        kind: MatchKind::LeftmostFirst,
        starts: StartKind::Unanchored,
        anchored: Anchored::Yes,
        refused: NO_ANCHORED_START,
    },
    Row {
        shows: "overlapping occurrences need the standard kind",
        kind: MatchKind::LeftmostFirst,
        starts: StartKind::Both,
        anchored: Anchored::No,
        refused: FIRST,
    },
    Row {
        shows: "the kind counts before the anchored iterator",
        kind: MatchKind::LeftmostFirst,
        starts: StartKind::Both,
        anchored: Anchored::Yes,
        refused: FIRST,
    },
    Row {
        shows: "the longest match is no standard one either",
        kind: MatchKind::LeftmostLongest,
        starts: StartKind::Unanchored,
        anchored: Anchored::No,
        refused: LONGEST,
    },
];

#[test]
fn what_is_refused(rt: HostRuntime) -> Result<(), Fail> {
    all(&rt, rt.alloc(), ROWS)?;
    for row in ROWS {
        each_own(&rt, rt.alloc(), row, &[row.starts])?;
    }
    Ok(())
}
