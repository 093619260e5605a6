//! What the calls of an automaton say: of its patterns, and of the states that texts lead to.
ghost use Rattle.std.specs.Prelude.{IfSome};
ghost use Rattle.ac_automaton.specs.Automaton.{IsState};

use crate::asserts::same;
use ac_input::primitives::{PatternID, StateID};
use ac_input::search::{Anchored, MatchKind};
use ac_noncontiguous::Search;
use std::alloc::{AllocError, Global};
use std::process::Abort;
use std::test::Fail;
use test_rows::engines::{Asked, Case, Letters, Trial, all, serves};

/// A text, and what the state says to which it leads: whether it is dead, whether it is a start, and which patterns match there.
struct Row {
    shows: &'static str,
    patterns: &'static [&'static [u8]],
    kind: MatchKind,
    anchored: Anchored,
    text: &'static [u8],
    dead: bool,
    start: bool,
    matches: &'static [usize],
}

/// The state to which a text leads.
fn reached<A: Search>(automaton: &A, anchored: Anchored, text: &[u8]) -> Option<StateID>
    ensures { IfSome result (IsState (A.Reaches automaton.now)) }
{
    let mut sid = automaton.start_state(anchored).ok()?;
    for byte in text {
        sid = automaton.next_state(anchored, sid, *byte);
    }
    Some(sid)
}

/// The patterns that match at a state.
fn matches_at<A: Search>(
    alloc: Global,
    automaton: &A,
    sid: StateID,
) -> Result<Vec<usize>, AllocError>
    requires { IsState (A.Reaches automaton.now) sid }
{
    let mut matches = Vec::new(alloc);
    if automaton.is_match(sid) {
        for index in 0..automaton.match_len(sid) {
            matches.push(automaton.match_pattern(sid, index).as_usize())?;
        }
    }
    Ok(matches)
}

/// Asserts what the state says; it is special where a search has more to do than to read on.
fn says<T: Abort, A: Search>(rt: &T, automaton: &A, sid: StateID, row: &Row)
    requires { IsState (A.Reaches automaton.now) sid }
{
    let matches = !row.matches.is_empty();
    let special = row.dead || matches || row.start && automaton.prefilter().is_some();
    let found = [
        automaton.is_dead(sid),
        automaton.is_start(sid),
        automaton.is_match(sid),
        automaton.is_special(sid),
    ];
    same(
        rt,
        &found,
        &[row.dead, row.start, matches, special],
        row.shows,
    );
}

impl<T: Abort> Case<T> for Row {
    fn asked(&self) -> Asked<'_> {
        Asked::of(self.patterns, self.kind, Letters::Cased)
    }

    fn check<A: Search>(&self, on: &Trial<'_, T, A>) -> Result<(), Fail> {
        if !serves(on.starts, self.anchored) {
            return Ok(());
        }
        let (rt, automaton) = (on.rt, on.automaton);
        let sid = reached(automaton, self.anchored, self.text).ok_or("no start")?;
        says(rt, automaton, sid, self);
        let matches = matches_at(on.alloc, automaton, sid)?;
        same(rt, &matches, self.matches, self.shows);
        Ok(())
    }
}

const NESTED: &[&[u8]] = &[b"c", b"bc", b"c", b"bcd"];

const ROWS: &[Row] = &[
    Row {
        shows: "the start",
        patterns: NESTED,
        kind: MatchKind::Standard,
        anchored: Anchored::No,
        text: b"",
        dead: false,
        start: true,
        matches: &[],
    },
    Row {
        shows: "a byte that begins no pattern leads back to the start",
        patterns: NESTED,
        kind: MatchKind::Standard,
        anchored: Anchored::No,
        text: b"bcx",
        dead: false,
        start: true,
        matches: &[],
    },
    Row {
        shows: "on the way to a match",
        patterns: NESTED,
        kind: MatchKind::Standard,
        anchored: Anchored::No,
        text: b"b",
        dead: false,
        start: false,
        matches: &[],
    },
    Row {
        shows: "a list has the longest patterns first, and equal ones by number",
        patterns: NESTED,
        kind: MatchKind::Standard,
        anchored: Anchored::No,
        text: b"bc",
        dead: false,
        start: false,
        matches: &[1, 0, 2],
    },
    Row {
        shows: "a longer text, by two of its suffixes",
        patterns: NESTED,
        kind: MatchKind::Standard,
        anchored: Anchored::No,
        text: b"bbcd",
        dead: false,
        start: false,
        matches: &[3],
    },
    Row {
        shows: "anchored, a byte that begins no pattern leads to the dead state",
        patterns: &[b"ab"],
        kind: MatchKind::LeftmostFirst,
        anchored: Anchored::Yes,
        text: b"b",
        dead: true,
        start: false,
        matches: &[],
    },
    Row {
        shows: "the dead state is never left",
        patterns: &[b"ab"],
        kind: MatchKind::LeftmostFirst,
        anchored: Anchored::Yes,
        text: b"bab",
        dead: true,
        start: false,
        matches: &[],
    },
    Row {
        shows: "after a leftmost match nothing more is to come",
        patterns: &[b"ab"],
        kind: MatchKind::LeftmostFirst,
        anchored: Anchored::No,
        text: b"abx",
        dead: true,
        start: false,
        matches: &[],
    },
    Row {
        shows: "after a standard match the search goes on",
        patterns: &[b"ab"],
        kind: MatchKind::Standard,
        anchored: Anchored::No,
        text: b"abx",
        dead: false,
        start: true,
        matches: &[],
    },
    Row {
        shows: "with an empty pattern the start matches",
        patterns: &[b"", b"ab"],
        kind: MatchKind::Standard,
        anchored: Anchored::No,
        text: b"",
        dead: false,
        start: true,
        matches: &[0],
    },
    Row {
        shows: "an empty pattern is the last in a list, and once",
        patterns: &[b"", b"ab"],
        kind: MatchKind::Standard,
        anchored: Anchored::No,
        text: b"ab",
        dead: false,
        start: false,
        matches: &[1, 0],
    },
];

/// Some patterns, and how many bytes each has, the shortest and the longest.
struct Lengths {
    shows: &'static str,
    patterns: &'static [&'static [u8]],
    kind: MatchKind,
    letters: Letters,
    each: &'static [usize],
    shortest_and_longest: (usize, usize),
}

/// How many bytes the pattern of this number has.
fn length_of<A: Search>(automaton: &A, number: usize) -> Option<usize> {
    let pattern = PatternID::new(number).ok()?;
    if number < automaton.patterns_len() {
        Some(automaton.pattern_len(pattern))
    } else {
        None
    }
}

/// How many bytes each pattern has.
fn each_length<A: Search>(alloc: Global, automaton: &A) -> Result<Vec<usize>, AllocError> {
    (0..automaton.patterns_len())
        .filter_map(|number| length_of(automaton, number))
        .collect(alloc)
}

impl<T: Abort> Case<T> for Lengths {
    fn asked(&self) -> Asked<'_> {
        Asked::of(self.patterns, self.kind, self.letters)
    }

    fn check<A: Search>(&self, on: &Trial<'_, T, A>) -> Result<(), Fail> {
        let (rt, automaton) = (on.rt, on.automaton);
        let found = [
            automaton.patterns_len(),
            automaton.min_pattern_len(),
            automaton.max_pattern_len(),
        ];
        let (shortest, longest) = self.shortest_and_longest;
        let want = [self.each.len(), shortest, longest];
        same(rt, &found, &want, self.shows);
        same(rt, &[automaton.match_kind()], &[self.kind], self.shows);
        let lengths = each_length(on.alloc, automaton)?;
        same(rt, &lengths, self.each, self.shows);
        Ok(())
    }
}

const LENGTHS: &[Lengths] = &[
    Lengths {
        shows: "the shortest and the longest",
        patterns: &[b"foo", b"bar", b"quux", b"baz"],
        kind: MatchKind::Standard,
        letters: Letters::Cased,
        each: &[3, 3, 4, 3],
        shortest_and_longest: (3, 4),
    },
    Lengths {
        shows: "an empty pattern is the shortest",
        patterns: &[b"foo", b"", b"quux", b"baz"],
        kind: MatchKind::LeftmostLongest,
        letters: Letters::Cased,
        each: &[3, 0, 4, 3],
        shortest_and_longest: (0, 4),
    },
    Lengths {
        shows: "no pattern is the shortest",
        patterns: &[],
        kind: MatchKind::Standard,
        letters: Letters::Cased,
        each: &[],
        shortest_and_longest: (usize::MAX, 0),
    },
    Lengths {
        shows: "a pattern that is kept out has its number and its length",
        patterns: &[b"Sam", b"Samwise"],
        kind: MatchKind::LeftmostFirst,
        letters: Letters::Cased,
        each: &[3, 7],
        shortest_and_longest: (3, 7),
    },
    Lengths {
        shows: "so has one that only a pair keeps out",
        patterns: &[b"0", b"1a"],
        kind: MatchKind::LeftmostFirst,
        letters: Letters::Paired(&[(0x30, 0x31)]),
        each: &[1, 2],
        shortest_and_longest: (1, 2),
    },
];

#[test]
fn what_automata_say(rt: HostRuntime) -> Result<(), Fail> {
    all(&rt, rt.alloc(), LENGTHS)?;
    all(&rt, rt.alloc(), ROWS)
}
