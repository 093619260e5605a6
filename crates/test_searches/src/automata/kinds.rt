//! What the kind of an automaton, and an empty pattern, change of its states.
use super::Leads::{All, Only};
use super::{Kept, PLAIN, State};
use ac_input::search::MatchKind::{LeftmostFirst, LeftmostLongest};
use test_rows::engines::Prefiltering::On;

const INSIDE: &[&[u8]] = &[b"b", b"abc", b"abcd"];

pub const KEPT: &[Kept] = &[
    Kept {
        shows: "a leftmost state that matches fails to the dead one, and starts are special beside a prefilter",
        patterns: INSIDE,
        kind: LeftmostLongest,
        prefilter: (On, true),
        bounds: [5, 7, 6, 7, 9],
        states: &[
            State(2, 1, 0, &[0], Only(&[])),
            State(3, 2, 2, &[0], Only(&[(b'c', 4)])),
            State(4, 3, 0, &[1], Only(&[(b'd', 5)])),
            State(5, 4, 0, &[2], Only(&[])),
            State(8, 1, 6, &[], Only(&[(b'b', 3)])),
        ],
        ..PLAIN
    },
    Kept {
        shows: "without a prefilter the last state that matches is the last special one",
        patterns: INSIDE,
        kind: LeftmostLongest,
        bounds: [5, 5, 6, 7, 9],
        ..PLAIN
    },
    Kept {
        shows: "an empty pattern stands in a list once, both starts match, and there is no prefilter",
        patterns: &[b"", b"ab"],
        prefilter: (On, false),
        bounds: [5, 5, 4, 5, 6],
        states: &[
            State(2, 1, 4, &[0], Only(&[(b'b', 3)])),
            State(3, 2, 4, &[1, 0], Only(&[])),
            State(4, 0, 0, &[0], All(4, &[(b'a', 2)])),
            State(5, 0, 0, &[0], All(1, &[(b'a', 2)])),
        ],
        ..PLAIN
    },
    Kept {
        shows: "under a leftmost kind with an empty pattern every state fails to the dead one, and other bytes lead there",
        patterns: &[b"ab", b""],
        kind: LeftmostLongest,
        prefilter: (On, false),
        bounds: [4, 4, 3, 4, 6],
        states: &[
            State(2, 2, 0, &[0], Only(&[])),
            State(3, 0, 0, &[1], All(0, &[(b'a', 5)])),
            State(4, 0, 0, &[1], All(1, &[(b'a', 5)])),
            State(5, 1, 0, &[], Only(&[(b'b', 2)])),
        ],
        ..PLAIN
    },
    Kept {
        shows: "under leftmost-first an empty pattern that comes first keeps out all others",
        patterns: &[b"", b"ab"],
        kind: LeftmostFirst,
        prefilter: (On, false),
        bounds: [3, 3, 2, 3, 4],
        states: &[State(2, 0, 0, &[0], All(0, &[]))],
        ..PLAIN
    },
    Kept {
        shows: "a pattern that an earlier one begins is not entered (Sam, S, Sa)",
        patterns: &[b"Sam", b"Samwise"],
        kind: LeftmostFirst,
        bounds: [2, 2, 3, 4, 7],
        states: &[
            State(2, 3, 0, &[0], Only(&[])),
            State(6, 2, 3, &[], Only(&[(b'm', 2)])),
        ],
        classes: (b"mw", &[5, 6]),
        ..PLAIN
    },
    Kept {
        shows: "a list has the state's own patterns by number, then those of the state to which it fails",
        patterns: &[b"a", b"a", b"aa"],
        bounds: [3, 3, 4, 5, 6],
        states: &[
            State(2, 1, 4, &[0, 1], Only(&[(b'a', 3)])),
            State(3, 2, 2, &[2, 0, 1], Only(&[])),
        ],
        ..PLAIN
    },
    Kept {
        shows: "under a leftmost kind the list is the state's own, where it matches from its beginning",
        patterns: &[b"a", b"a", b"aa"],
        kind: LeftmostLongest,
        bounds: [3, 3, 4, 5, 6],
        states: &[
            State(2, 1, 0, &[0, 1], Only(&[(b'a', 3)])),
            State(3, 2, 0, &[2], Only(&[])),
        ],
        ..PLAIN
    },
];
