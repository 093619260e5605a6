//! The types of searches and their results: kinds, spans, matches, inputs, numbers, bytes, pairings, errors.
//!
//! Single facts stand in a list, and are asserted at once: where one is false, the failure shows the list.
use crate::asserts::same;
use ac_input::primitives::PatternID;
use ac_input::search::{Anchored, Candidate, Input, Match, MatchKind, Span, StartKind};
use ac_input::steps::Steps;
use std::ops::Range;

mod bytes;
mod numbers;
mod texts;

/// Kinds, matches, the candidates of prefilters, and counts, which are seen by contracts alone and take no memory.
#[test]
fn kinds_and_matches(rt: HostRuntime) {
    let found = Match::must(1, 2..5);
    let moved = found.offset(10);
    let mut steps = Steps::new();
    steps.look();
    steps.scan(7);
    steps.shift(usize::MAX);
    let mut both = Steps::new();
    both.add(&steps);
    both.add(&steps);
    let facts = [
        size_of::<Steps>() == 0,
        MatchKind::default() == MatchKind::Standard,
        StartKind::default() == StartKind::Unanchored,
        StartKind::Both != StartKind::Anchored,
        Anchored::Yes.is_anchored(),
        !Anchored::No.is_anchored(),
        MatchKind::LeftmostFirst.asked(true) == MatchKind::Standard,
        MatchKind::LeftmostFirst.asked(false) == MatchKind::LeftmostFirst,
        MatchKind::LeftmostLongest.asked(true) == MatchKind::Standard,
        MatchKind::LeftmostLongest.asked(false) == MatchKind::LeftmostLongest,
        MatchKind::Standard.asked(false) == MatchKind::Standard,
        found == Match::new(PatternID::must(1), Span { start: 2, end: 5 }),
        found.len() == 3,
        !found.is_empty(),
        found.span() == Span { start: 2, end: 5 },
        moved.pattern() == PatternID::must(1),
        moved.start() == 12,
        moved.end() == 15,
        moved.range() == (12..15),
        Match::must(0, 4..4).is_empty(),
        Candidate::None.into_option() == None,
        Candidate::Match(found).into_option() == Some(2),
        Candidate::PossibleStartOfMatch(7).into_option() == Some(7),
    ];
    same(&rt, &facts, &[true; 23], "kinds and matches");
}

#[test]
fn spans(rt: HostRuntime) {
    let place = Span { start: 4, end: 4 };
    let backward = Span { start: 5, end: 2 };
    let longest = Span {
        start: 0,
        end: usize::MAX,
    };
    let span = Span { start: 2, end: 5 };
    let facts = [
        span.len() == 3 && !span.is_empty(),
        place.len() == 0 && place.is_empty(),
        backward.len() == 0 && backward.is_empty(),
        longest.len() == usize::MAX && !longest.is_empty(),
        !span.contains(1),
        span.contains(2),
        span.contains(4),
        !span.contains(5),
        span.range() == (2..5),
        Range::from(span) == (2..5),
        Span::from(2..5) == span,
        span.offset(10) == Span { start: 12, end: 15 },
        span.of(b"foobar") == b"oba".as_slice(),
        Span { start: 6, end: 6 }.of(b"foobar") == b"".as_slice(),
        Span { start: 1, end: 3 }.of_text("aéb") == "é",
    ];
    same(&rt, &facts, &[true; 15], "spans");
}

/// Where the span of an input starts and ends.
fn ends(input: &Input<'_>) -> [usize; 2] {
    [input.start(), input.end()]
}

/// Whether an input is anchored, whether it is an earliest search, and whether it is over.
fn flags(input: &Input<'_>) -> [bool; 3] {
    [
        input.get_anchored().is_anchored(),
        input.get_earliest(),
        input.is_done(),
    ]
}

/// A search is over where its span starts one past its end.
const OVER: [(usize, usize, bool); 4] = [(2, 2, false), (3, 2, true), (0, 0, false), (1, 0, true)];

#[test]
fn inputs(rt: HostRuntime) {
    let mut input = Input::from("foobar");
    let fresh = (ends(&input), flags(&input));
    input.set_range(2..4);
    let ranged = ends(&input);
    input.set_start(1);
    input.set_end(5);
    input.set_anchored(Anchored::Yes);
    input.set_earliest(true);
    let kept = input.clone().expect(&rt, "it takes no memory");
    input.set_span(Span { start: 7, end: 6 });
    input.set_anchored(Anchored::No);
    input.set_earliest(false);
    let facts = [
        fresh.0 == [0, 6],
        fresh.1 == [false, false, false],
        ranged == [2, 4],
        ends(&kept) == [1, 5],
        flags(&kept) == [true, true, false],
        ends(&input) == [7, 6],
        flags(&input) == [false, false, true],
        ends(&kept.span(Span { start: 3, end: 3 })) == [3, 3],
        input.haystack() == b"foobar".as_slice(),
        input.get_span() == Span { start: 7, end: 6 },
        input.get_range() == (7..6),
    ];
    same(&rt, &facts, &[true; 11], "inputs");
    for (start, end, done) in OVER {
        assert!(rt; Input::new(b"ab").range(start..end).is_done() == done);
    }
}
